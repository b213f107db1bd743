// A reader over a lent text, or over a part of it.
ghost use Rattle.std.specs.Prelude.{◌+◌, ◌≤◌, length};

// It has still to read the bytes of `text` from `place` up to `end`, which begin on line `line`. A slice of what is left
// would forget the places in the whole text that parts name.
#[derive(Drop)]
pub struct Reader<'a> {
    pub(crate) text: &'a [u8],
    pub(crate) place: usize,
    pub(crate) end: usize,
    pub(crate) line: usize,
    ghost within: { end ≤ length text.now },
    ghost forward: { place ≤ end },
    ghost counted: { line ≤ place + 1 },
}
