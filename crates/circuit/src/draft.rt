// A net as its line gives it.
use crate::nets::{NetKind, Start};
use text::span::Span;

// A latch still has the name of its next, by where it stands in the text.
#[derive(Clone, Copy, PartialEq, Eq, Debug)]
pub enum Draft {
    Done(NetKind),
    Latch { next: Span, start: Start },
}

// What a line adds to a listing.
#[derive(Clone, Copy, PartialEq, Eq, Debug)]
pub struct Entry {
    pub(crate) name: Span,
    pub(crate) draft: Draft,
}
