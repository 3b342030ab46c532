// Reading words.
ghost use Rattle.std.specs.Prelude.{◌≡◌, ◌+◌, ◌/◌, ◌%◌, ◌≤◌, ◌<◌, length, take, IfOk, OnErr};
ghost use Rattle.std.specs.Io.{ReadsAtMost};
ghost use Rattle.std.specs.Io.KnownBytes.{Consumes, IsAtEnd, Keeps};
ghost use Rattle.lists.specs.Each.{each};
ghost use Rattle.standard_io.specs.Taken.{Takes};
ghost use Rattle.standard_io.specs.Words.{Reads, BLOCK as block_size, read_word, moved_byte, kept_of};

use crate::{BLOCK, Input, WORDS};
use std::io;
use std::io::{ErrorKind, Read};

// Reads once, behind the bytes that were kept of a word, and answers the whole words that are there then, or the end where
// the reader has come to it. A read that fails is an error: it leaves the words as they were, and takes nothing. How many
// bytes are kept is no part of a type with the block: every count is taken, by its remainder.
pub fn read_words<R: Read>(
    reader: &mut R,
    kept: usize,
    bytes: &mut [u8; BLOCK],
    words: &mut [u32; WORDS],
) -> io::Result<Input>
    ensures ok { IfOk result (λ input. Reads (kept % 4) bytes.old bytes.new words.old words.new input) }
    ensures taken { IfOk result (λ input. Takes (R.remaining reader.old) (R.remaining reader.new)
        (kept % 4) bytes.old bytes.new words.old words.new input) }
    ensures err { OnErr result (words.new ≡ words.old) }
    ensures none_taken { OnErr result (Keeps (R.remaining reader.old) (R.remaining reader.new)) }
{
    let from = kept % 4;
    read_behind(reader, from, bytes, words)
}

impl Input {
    // The bytes that are kept of a word that is not whole yet.
    pub fn kept(self) -> usize
        ensures { result ≡ kept_of self }
    {
        match self {
            Input::Words { kept, .. } => kept,
            Input::End { .. } => 0,
        }
    }
}

fn read_behind<R: Read>(
    reader: &mut R,
    from: usize,
    bytes: &mut [u8; BLOCK],
    words: &mut [u32; WORDS],
) -> io::Result<Input>
    requires { from < 4 }
    ensures ok { IfOk result (λ input. Reads from bytes.old bytes.new words.old words.new input) }
    ensures taken { IfOk result (λ input. Takes (R.remaining reader.old) (R.remaining reader.new)
        from bytes.old bytes.new words.old words.new input) }
    ensures err { OnErr result (words.new ≡ words.old) }
    ensures none_taken { OnErr result (Keeps (R.remaining reader.old) (R.remaining reader.new)) }
{
    let got = read_once(reader, &mut bytes[from..])?;
    if got == 0 {
        return Ok(Input::End {
            remainder: from != 0,
        });
    }
    let n = from + got;
    let count = words_of(bytes, n, words);
    let rest = keep_rest(bytes, n);
    Ok(Input::Words { count, kept: rest })
}

// One read, which is tried again where a signal interrupts it before it brings a byte, in a `for` with a bound, since every
// loop has to end.
fn read_once<R: Read>(reader: &mut R, bytes: &mut [u8]) -> io::Result<usize>
    ensures bound { ReadsAtMost result bytes.new }
    ensures ok { IfOk result (λ n. Consumes (R.remaining reader.old) (R.remaining reader.new) (take n bytes.new)) }
    ensures end { IfOk result (λ n. n ≡ 0 → 0 < length bytes.old → IsAtEnd (R.remaining reader.new)) }
    ensures err { OnErr result (Keeps (R.remaining reader.old) (R.remaining reader.new)) }
{
    for _ in 0..u64::MAX {
        match reader.read(bytes) {
            Ok(got) => return Ok(got),
            Err(e) => {
                if e.kind() != ErrorKind::Interrupted {
                    return Err(e);
                }
            }
        }
    }
    Err(io::Error::from(ErrorKind::Interrupted))
}

// Reads the whole words of the first n bytes, and answers how many they are. The block and n are two arguments, here and in
// keep_rest: the block is fixed memory, and read_word and moved_byte are of the whole of it. The four bytes of a word by its
// place: of words that a zip lends nothing is known after the loop.
fn words_of(bytes: &[u8; BLOCK], n: usize, words: &mut [u32; WORDS]) -> usize
    requires { n ≤ block_size }
    ensures value { result ≡ n / 4 }
    ensures words_after { words.new ≡ each (read_word bytes.now (n / 4)) words.old }
{
    let count = n / 4;
    let (quads, _) = bytes.as_chunks::<4>();
    for (i, w) in words[..count].iter_mut().enumerate() {
        *w = u32::from_le_bytes(quads[i]);
    }
    count
}

// Moves the bytes behind the last whole word of the first n to the front of the block, and answers how many they are.
fn keep_rest(bytes: &mut [u8; BLOCK], n: usize) -> usize
    requires { n ≤ block_size }
    ensures value { result ≡ n % 4 }
    ensures bytes_after { bytes.new ≡ each (moved_byte bytes.old n) bytes.old }
{
    let rest = n % 4;
    bytes.copy_within(n - rest..n, 0);
    rest
}
