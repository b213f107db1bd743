// Where some bytes stand in a text, for when the text is lent again.
ghost use Rattle.std.specs.Prelude.{◌≡◌};
ghost use Rattle.text.specs.Spans.{spanned};

// `len` bytes from `place` on.
#[derive(Clone, Copy, PartialEq, Eq, Hash, Debug)]
pub struct Span {
    pub place: usize,
    pub len: usize,
}

impl Span {
    // The bytes that stand there: what the text lacks of them is left out.
    pub fn of(self, text: &[u8]) -> &[u8]
        ensures { result.now ≡ spanned text.now self }
    {
        let rest = text.get(self.place..).unwrap_or(b"");
        rest.get(..self.len).unwrap_or(rest)
    }
}
