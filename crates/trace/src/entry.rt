// What a trace gives a value for, in the order of its text.
ghost use Rattle.std.specs.Prelude.{◌≤◌, length};

use circuit::nets::{Frame, Net, NetKind};
use std::ops::Range;

// A latch whose start is free, where no frame is named, or an input in a frame.
#[derive(Clone, Copy, PartialEq, Eq, Debug)]
pub struct Entry {
    pub frame: Option<Frame>,
    pub net: Net,
}

// The entries still to come: the free starts by net, then the inputs by frame and net. It stands before net `place` of the
// row of `frame`; `frames` are those whose rows follow.
#[derive(Drop)]
pub(crate) struct Entries<'a> {
    pub(crate) nets: &'a [NetKind],
    pub(crate) place: usize,
    pub(crate) frame: Option<Frame>,
    pub(crate) frames: Range<u32>,
    ghost few: { length nets.now ≤ 256 },
    ghost short: { frames.end ≤ 64 },
}
