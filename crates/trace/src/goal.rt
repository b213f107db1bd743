// What a trace is to show.
use circuit::nets::{Frame, Net};
use std::error::Error;
use std::fmt;

// That the target is on in the last frame.
#[derive(Clone, Copy, PartialEq, Eq, Debug)]
pub struct Goal {
    pub last: Frame,
    pub target: Net,
}

// A solution does not put the target on in the last frame.
#[derive(Clone, Copy, PartialEq, Eq, Debug)]
pub struct NotOn;

impl fmt::Display for NotOn {
    ghost use Rattle.std.specs.Prelude.{Some};
    ghost use Rattle.trace.specs.Sentences.{not_on};

    ghost output = { λ _. Some not_on };

    fn fmt<W: fmt::Write>(&self, f: &mut fmt::Formatter<W>) -> fmt::Result {
        write!(f, "the target is off in the last frame")
    }
}

impl Error for NotOn {}
