// The rules of a circuit, and where they leave a net open.
ghost use Rattle.std.specs.Prelude.{◌≡◌, ◌+◌, ◌*◌, ◌^◌, ◌<◌, length};
ghost use Rattle.circuit.specs.Runs.{WellFormed};
ghost use Rattle.frames.specs.Rules.{is_open, frames_in};

use crate::hold::Hold;
use circuit::nets::{Frame, NetKind, Start};

// What the nets of a circuit follow: each its kind, and a net that is held its bit.
#[derive(Clone, Copy)]
pub(crate) struct Rules<'a> {
    pub(crate) nets: &'a [NetKind],
    pub(crate) hold: Option<Hold>,
    ghost formed: { WellFormed nets.now },
}

impl Rules<'_> {
    // How many whole frames so many places have.
    pub(crate) fn frames_in(&self, places: usize) -> usize
        ensures { result ≡ frames_in (length self.now.nets.now) places }
    {
        places.checked_div(self.nets.len()).unwrap_or(0)
    }

    // Where net `n` of frame `t` stands.
    pub(crate) fn place(&self, t: usize, n: usize) -> usize
        requires { t * length self.now.nets.now + n < 2 ^ 64 }
        ensures { result ≡ t * length self.now.nets.now + n }
    {
        t * self.nets.len() + n
    }
}

// Whether a net of this kind has in this frame what is given: by a match, since two `matches!` with an `or` between say it no
// plainer.
pub fn is_open(kind: NetKind, frame: Frame) -> bool
    ensures { result ≡ is_open frame.0 kind }
{
    match kind {
        NetKind::Input => true,
        NetKind::Latch {
            start: Start::Free,
            ..
        } => frame.0 == 0,
        _ => false,
    }
}
