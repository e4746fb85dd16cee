//! A table of cases: those that tell something, and those that ask by what was told.

use crate::told::Told;
use net_base::NoMemory;
use std::alloc::Global;
use std::io;
use test_lines::{Answers, print_answered, shown};

/// What answers the cases that ask for something.
pub trait Asked {
    /// The answer to the case of a line, by what the lines before told; `None` where its words are none.
    fn answer(&self, alloc: Global, told: &Told, line: &str) -> Result<Option<String>, NoMemory>;
}

#[derive(Drop)]
struct Bench<A> {
    asked: A,
    told: Told,
}

impl<A: Asked + Drop> Answers for Bench<A> {
    fn answer(&mut self, alloc: Global, line: &str) -> Result<String, NoMemory> {
        match self.told.tell(alloc, line)? {
            Some(behind) => Ok(behind),
            None => shown(alloc, self.asked.answer(alloc, &self.told, line)?),
        }
    }
}

/// Prints the table of the standard input, each line with what stands behind it.
pub fn print_told<R: Input + Print + AllocGlobal, A: Asked + Drop>(
    rt: &R,
    asked: A,
) -> io::Result<()> {
    let told = Told::nothing(rt.alloc())?;
    print_answered(rt, &mut Bench { asked, told })
}
