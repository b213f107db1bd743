// A circuit, and what a trace of it is to show.
ghost use Rattle.std.specs.Prelude.{◌<◌, length};
ghost use Rattle.circuit.specs.Circuits.{nets_of};

use crate::goal::Goal;
use circuit::circuit::Circuit;

// The goal is one that a trace of this circuit can have: the last frame is below 64, and the target is a net. That cells are
// as many as the frames want is asked by a clause of the methods: a struct that held cells lent to be written would owe, after
// each call, that it holds the same ones.
#[derive(Clone, Copy)]
pub(crate) struct Aim<'a> {
    pub(crate) circuit: &'a Circuit,
    pub(crate) goal: Goal,
    ghost short: { goal.last.0 < 64 },
    ghost inside: { goal.target.0 < length (nets_of circuit.now) },
}
