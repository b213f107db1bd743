// What is written: a trace of a circuit, with names for its nets.
ghost use Rattle.std.specs.Prelude.{◌<◌};

use crate::view::Trace;
use circuit::circuit::Circuit;
use circuit::names::Names;

#[derive(Clone, Copy)]
pub(crate) struct Script<'n, 't, 'r> {
    pub(crate) names: Names<'n, 't>,
    pub(crate) circuit: &'r Circuit,
    pub(crate) trace: Trace<'r>,
    ghost short: { trace.goal.last.0 < 64 },
}
