// Reading an answer from a reader.
ghost use Rattle.std.specs.Prelude.{◌≡◌, ◌≤◌, length, IfOk, OnErr};
ghost use Rattle.answer_list.specs.Read.{FitsIn, Begun};

use crate::{Answer, ReadError};
use std::io;
use std::io::ErrorKind;

// Reads the next answer from the reader, or `None` at the end of the list; its words stand at the front of the lent slice.
// A read that fails, and a malformed list, is an error, and leaves the slice behind the words that had come by then as it
// was, and so its last word.
pub fn read_answer<R: io::Read>(
    reader: &mut R,
    words: &mut [u64],
) -> Result<Option<Answer>, ReadError>
    ensures ok { IfOk result (λ answer. FitsIn (length words.new) answer) }
    ensures err { OnErr result (Begun words.old words.new) }
{
    let Some(function) = read_word(reader)? else {
        return Ok(None);
    };
    let size = read_word(reader)?.ok_or(ReadError::Malformed)?;
    if (words.len() as u64) < size {
        return Err(ReadError::Malformed);
    }
    let count = size as usize;
    read_words(reader, &mut words[..count])?;
    Ok(Some(Answer { function, count }))
}

// Reads words into the whole slice; a list that ends before is malformed.
fn read_words<R: io::Read>(reader: &mut R, words: &mut [u64]) -> Result<(), ReadError>
    ensures same_length { length words.new ≡ length words.old }
    ensures err { OnErr result (Begun words.old words.new) }
{
    for w in words.iter_mut() {
        *w = read_word(reader)?.ok_or(ReadError::Malformed)?;
    }
    Ok(())
}

// Eight bytes as a little-endian word; fewer are the end.
fn read_word<R: io::Read>(reader: &mut R) -> io::Result<Option<u64>> {
    let mut bytes = [0u8; 8];
    match reader.read_exact(&mut bytes) {
        Ok(()) => Ok(Some(u64::from_le_bytes(bytes))),
        Err(e) if e.kind() == ErrorKind::UnexpectedEof => Ok(None),
        Err(e) => Err(e),
    }
}
