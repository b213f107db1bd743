// A part of a lent text.
ghost use Rattle.std.specs.Prelude.{◌≡◌};
ghost use Rattle.text.specs.Parts.{span_of};

use crate::span::Span;

// Some bytes of a text, the number of the line that they begin on, counted from 1, and their place in the text.
#[derive(Clone, Copy, PartialEq, Eq, Debug)]
pub struct Part<'a> {
    pub bytes: &'a [u8],
    pub line: usize,
    pub place: usize,
}

impl Part<'_> {
    // Where its bytes stand in the text.
    pub fn span(self) -> Span
        ensures { result ≡ span_of self.entry }
    {
        Span {
            place: self.place,
            len: self.bytes.len(),
        }
    }
}
