use net_base::{Bytes, NoMemory};
use std::alloc::Global;

/// Where in an escape a byte stands.
#[derive(Clone, Copy)]
enum Escape {
    Outside,
    Begun,
    FirstDigit,
    /// The first digit's value.
    SecondDigit(u8),
}

fn digit(byte: u8) -> u8 {
    match byte {
        b'0'..=b'9' => byte - b'0',
        b'a'..=b'f' => byte - b'a' + 10,
        _ => 0,
    }
}

/// The byte that ends here, if one does, and where the next byte stands.
fn step(escape: Escape, byte: u8) -> (Option<u8>, Escape) {
    match (escape, byte) {
        (Escape::Outside, b'\\') => (None, Escape::Begun),
        (Escape::Begun, b'x') => (None, Escape::FirstDigit),
        (Escape::FirstDigit, _) => (None, Escape::SecondDigit(digit(byte))),
        (Escape::SecondDigit(first), _) => (Some(first << 4 | digit(byte)), Escape::Outside),
        (Escape::Begun, b'n') => (Some(b'\n'), Escape::Outside),
        (Escape::Begun, b'r') => (Some(b'\r'), Escape::Outside),
        (Escape::Begun, b't') => (Some(b'\t'), Escape::Outside),
        (Escape::Begun | Escape::Outside, _) => (Some(byte), Escape::Outside),
    }
}

/// The bytes of a text in which `\n`, `\r`, `\t`, `\\` and `\xNN` stand for what they do in Rust.
pub fn unescaped(alloc: Global, text: &str) -> Result<Bytes, NoMemory> {
    let mut out = Bytes::new(alloc);
    let mut escape = Escape::Outside;
    for byte in text.bytes() {
        let (ended, next) = step(escape, byte);
        if let Some(ended) = ended {
            out.push(ended)?;
        }
        escape = next;
    }
    Ok(out)
}

/// Writes a text in one line: line feeds, carriage returns, tabs and backslashes as escapes.
pub fn write_escaped(out: &mut String, text: &str) -> Result<(), NoMemory> {
    for char in text.chars() {
        match char {
            '\n' => out.push_str("\\n")?,
            '\r' => out.push_str("\\r")?,
            '\t' => out.push_str("\\t")?,
            '\\' => out.push_str("\\\\")?,
            _ => out.push(char)?,
        }
    }
    Ok(())
}
