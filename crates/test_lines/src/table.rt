use net_base::NoMemory;
use std::alloc::Global;
use std::io;

/// What answers cases, line by line.
pub trait Answers {
    /// What stands behind a line: the answer to its case, or nothing.
    fn answer(&mut self, alloc: Global, line: &str) -> Result<String, NoMemory>;
}

/// The lines of a table, each with what stands behind it. Empty lines and those that begin with `#` are no
/// cases.
pub fn answered<A: Answers>(
    alloc: Global,
    answers: &mut A,
    table: &str,
) -> Result<String, NoMemory> {
    let mut out = String::new(alloc);
    for line in table.lines() {
        out.push_str(line)?;
        if !line.is_empty() && !line.starts_with('#') {
            out.push_str(answers.answer(alloc, line)?.as_str())?;
        }
        out.push_str("\n")?;
    }
    Ok(out)
}

/// What stands behind the line of a case whose words may be none.
pub fn shown(alloc: Global, answer: Option<String>) -> Result<String, NoMemory> {
    match answer {
        Some(answer) => format!(in alloc; " => {answer}"),
        None => String::from_str(alloc, " => no case"),
    }
}

/// Prints the table of the standard input, each line with what stands behind it.
pub fn print_answered<R: Input + Print + AllocGlobal, A: Answers>(
    rt: &R,
    answers: &mut A,
) -> io::Result<()> {
    let table = io::read_to_string(rt.alloc(), rt.reader())?;
    let text = answered(rt.alloc(), answers, table.as_str())?;
    print!(rt; "{text}")
}
