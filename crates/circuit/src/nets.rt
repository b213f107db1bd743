// The nets of a circuit.
ghost use Rattle.std.specs.Prelude.{◌≡◌};

// A net, by its place in the circuit.
#[derive(Clone, Copy, PartialEq, Eq, PartialOrd, Ord, Hash, Debug)]
pub struct Net(pub u32);

impl From<Net> for usize {
    ghost from_gives = { λ n r. r ≡ n.0 };

    fn from(net: Net) -> usize {
        // std has no `From<u32>` for `usize`.
        net.0 as usize
    }
}

// A frame of a run, counted from 0.
#[derive(Clone, Copy, PartialEq, Eq, PartialOrd, Ord, Hash, Debug)]
pub struct Frame(pub u32);

impl From<Frame> for usize {
    ghost from_gives = { λ t r. r ≡ t.0 };

    fn from(frame: Frame) -> usize {
        // std has no `From<u32>` for `usize`.
        frame.0 as usize
    }
}

// What a latch has in frame 0: a bit, or either of them.
#[derive(Clone, Copy, PartialEq, Eq, Hash, Debug)]
pub enum Start {
    Zero,
    One,
    Free,
}

// What a net is worked out from. `Body` in record.rt, which has the same cases with texts in them, says why it is another enum.
#[derive(Clone, Copy, PartialEq, Eq, Hash, Debug)]
pub enum NetKind {
    Input,
    Latch { next: Net, start: Start },
    And(Net, Net),
    Xor(Net, Net),
    Not(Net),
}
