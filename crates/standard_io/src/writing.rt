// Writing text.
ghost use Rattle.std.specs.Prelude.{take, OnOk, OnErr};
ghost use Rattle.std.specs.Io.KnownBytes.{Appends};
ghost use Rattle.standard_io.specs.Written.{FrontWritten};

use crate::BLOCK;
use std::io;
use std::io::{ErrorKind, Write};

// Writes the first n bytes of a block, or all where there are fewer, in their order. A write that fails or takes nothing is
// an error: a front of those bytes was written then, and no byte behind it is. One that a signal interrupts is tried
// again. What becomes of bytes that the system takes is outside the logic: the clauses are of a writer whose bytes are known. The
// block and n are two arguments: the clauses (take n block) answer every n, past the block too.
pub fn write_front<W: Write>(writer: &mut W, block: &[u8; BLOCK], n: usize) -> io::Result<()>
    ensures ok { OnOk result (Appends (W.contents writer.old) (W.contents writer.new) (take n block.now)) }
    ensures err { OnErr result (FrontWritten (W.contents writer.old) (W.contents writer.new) (take n block.now)) }
{
    write_all(writer, &block[..n.min(BLOCK)])
}

// Writes every byte in its order, or stops at a write that fails or takes nothing. One that a signal interrupts is tried
// again, in a `for` with a bound, since every loop has to end. It is not std's `write_all`: that says nothing of what was
// written on an error, and the clause `err` does.
fn write_all<W: Write>(writer: &mut W, bytes: &[u8]) -> io::Result<()>
    ensures ok { OnOk result (Appends (W.contents writer.old) (W.contents writer.new) bytes.now) }
    ensures err { OnErr result (FrontWritten (W.contents writer.old) (W.contents writer.new) bytes.now) }
{
    let mut rest = bytes;
    for _ in 0..u64::MAX {
        if rest.is_empty() {
            return Ok(());
        }
        match writer.write(rest) {
            Ok(0) => return Err(io::Error::from(ErrorKind::WriteZero)),
            Ok(got) => rest = &rest[got..],
            Err(e) => {
                if e.kind() != ErrorKind::Interrupted {
                    return Err(e);
                }
            }
        }
    }
    Err(io::Error::from(ErrorKind::Interrupted))
}
