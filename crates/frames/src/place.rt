// What a net has in a frame, by the rules.
ghost use Rattle.std.specs.Prelude.{◌≡◌, ◌+◌, ◌*◌, ◌<◌, ◌≤◌, false, length, slice_index_or};
ghost use Rattle.circuit.specs.Runs.{kind as kind_of};
ghost use Rattle.frames.specs.Rules.{held_bit, first_value, gives, rule};

use crate::hold::Hold;
use crate::rules::Rules;
use circuit::nets::{NetKind, Start};
use values::Kind;

// Net `n` in frame `t`, among cells that have room for that frame.
#[derive(Drop)]
pub(crate) struct Place<'a, K> {
    pub(crate) rules: Rules<'a>,
    pub(crate) cells: &'a [K],
    pub(crate) t: usize,
    pub(crate) n: usize,
    ghost within: { n < length rules.nets.now },
    ghost room: { t * length rules.nets.now + length rules.nets.now ≤ length cells.now },
}

pub(crate) fn cell<K: Kind>(cells: &[K], i: usize) -> K
    requires { i < length cells.now }
    ensures { result ≡ slice_index_or cells.now i (K.algebra.only false) }
{
    cells[i]
}

fn first<K: Kind>(start: Start, given: K) -> K
    ensures { result ≡ first_value K.algebra given start }
{
    match start {
        Start::Zero => K::from(false),
        Start::One => K::from(true),
        Start::Free => given,
    }
}

fn held(hold: Option<Hold>, n: usize) -> Option<bool>
    ensures { result ≡ held_bit hold n }
{
    hold.filter(|h| usize::from(h.net) == n).map(|h| h.bit)
}

impl<K: Kind> Place<'_, K> {
    ghost use Rattle.frames.specs.Place.{values_at};

    // What a net has in this frame or an earlier one.
    fn at(&self, t: usize, n: usize) -> K
        requires past { t ≤ self.now.t }
        requires within { n < length self.now.rules.nets.now }
        ensures { result ≡ values_at K.algebra self.now t n }
    {
        cell(self.cells, self.rules.place(t, n))
    }

    // What the net is worked out to be. What is given stands at its place.
    fn computed(&self) -> K
        ensures { result ≡ gives K.algebra (values_at K.algebra self.now) (values_at K.algebra self.now) self.now.t self.now.n (kind_of self.now.rules.nets.now self.now.n) }
    {
        let kind = self.rules.nets[self.n];
        match kind {
            NetKind::Input => self.at(self.t, self.n),
            NetKind::Latch { start, .. } if self.t == 0 => first(start, self.at(self.t, self.n)),
            NetKind::Latch { next, .. } => self.at(self.t - 1, usize::from(next)),
            NetKind::And(a, b) => self
                .at(self.t, usize::from(a))
                .and(self.at(self.t, usize::from(b))),
            NetKind::Xor(a, b) => self
                .at(self.t, usize::from(a))
                .xor(self.at(self.t, usize::from(b))),
            NetKind::Not(a) => self.at(self.t, usize::from(a)).inverse(),
        }
    }

    // What the net has.
    pub(crate) fn value(&self) -> K
        ensures { result ≡ rule K.algebra self.now.rules.nets.now self.now.rules.hold (values_at K.algebra self.now) (values_at K.algebra self.now) self.now.t self.now.n }
    {
        match held(self.rules.hold, self.n) {
            Some(bit) => K::from(bit),
            None => self.computed(),
        }
    }
}
