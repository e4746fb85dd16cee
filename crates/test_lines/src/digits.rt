use crate::repeats::write_repeated;
use hex::FromHexError;
use net_base::{Bytes, NoMemory};
use std::alloc::{AllocError, Global};

/// Adds the bytes of a word of hexadecimal digits; of a word that is none nothing.
fn put_word(alloc: Global, bytes: &mut Bytes, word: &str) -> Result<(), NoMemory> {
    match hex::decode(alloc, word) {
        Ok(piece) => bytes.append(piece.as_slice()),
        Err(FromHexError::OutOfMemory) => Err(AllocError),
        Err(_) => Ok(()),
    }
}

/// The bytes of words of hexadecimal digits, with `«COUNT:PIECE»` for the piece so many times.
pub fn bytes_of(alloc: Global, text: &str) -> Result<Bytes, NoMemory> {
    let mut whole = String::new(alloc);
    write_repeated(&mut whole, text)?;
    let mut bytes = Bytes::new(alloc);
    for word in whole.split_whitespace() {
        put_word(alloc, &mut bytes, word)?;
    }
    Ok(bytes)
}
