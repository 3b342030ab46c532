// The type of a line that is being written. Its methods are in lib.rt, and not beside it: their clauses name `Wrote`, a
// definition over this type, which the file of a type with a ghost field cannot import.
ghost use Rattle.std.specs.Prelude.{◌≤◌, length};

// A line, or the end of one, in a lent buffer: it is written from the buffer's end to its front, and stands from `at` on.
#[derive(Drop)]
pub(crate) struct Line<'a> {
    pub(crate) text: &'a mut [u8],
    pub(crate) at: usize,
    ghost in_text: { at ≤ length text.now },
}
