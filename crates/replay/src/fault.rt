// Why a replay is refused.
ghost use Rattle.std.specs.Prelude.{◌≡◌, ◌<◌, length};
ghost use Rattle.replay.specs.Faults.{fault_number, fault_line};
ghost use Rattle.replay.specs.Sentences.{fault_sentence};
ghost use Rattle.replay.specs.declared.fault.ReplayFault.TheVariants.{Circuit, Trace};

use circuit::fault::ReadFault;
use std::error::Error;
use std::fmt;
use trace::fault::TraceFault;

// The circuit text is refused, the circuit lacks the net of the hold, or the trace text is refused.
#[derive(Clone, Copy, PartialEq, Eq, Debug)]
pub enum ReplayFault {
    Circuit(ReadFault),
    NoNet,
    Trace(TraceFault),
}

impl From<ReadFault> for ReplayFault {
    ghost from_gives = { λ f r. r ≡ Circuit f };

    fn from(fault: ReadFault) -> ReplayFault {
        ReplayFault::Circuit(fault)
    }
}

impl From<TraceFault> for ReplayFault {
    ghost from_gives = { λ f r. r ≡ Trace f };

    fn from(fault: TraceFault) -> ReplayFault {
        ReplayFault::Trace(fault)
    }
}

impl ReplayFault {
    // The number under which the refusal is known; docs/REFUSALS.md lists it.
    pub fn number(self) -> u8
        ensures { result ≡ fault_number self }
    {
        match self {
            ReplayFault::Circuit(fault) => fault.number(),
            ReplayFault::NoNet => 11,
            ReplayFault::Trace(fault) => fault.number(),
        }
    }

    // The line at fault, in the text at fault; 0, and not none, where it is no line's fault, since the line is printed.
    pub fn line(self) -> usize
        ensures { result ≡ fault_line self }
    {
        match self {
            ReplayFault::Circuit(fault) => fault.line,
            ReplayFault::NoNet => 0,
            ReplayFault::Trace(fault) => fault.line(),
        }
    }

    // What is wrong, and what to do about it.
    pub fn sentence(self) -> &'static str
        ensures is { result.now ≡ fault_sentence self }
        ensures words { 0 < length result.now }
    {
        match self {
            ReplayFault::Circuit(fault) => fault.sentence(),
            ReplayFault::NoNet => {
                "the circuit has no net of the name that is to be held: hold another net"
            }
            ReplayFault::Trace(fault) => fault.sentence(),
        }
    }
}

impl fmt::Display for ReplayFault {
    ghost use Rattle.std.specs.Prelude.{Some};

    ghost output = { λ fault. Some (fault_sentence fault) };

    fn fmt<W: fmt::Write>(&self, f: &mut fmt::Formatter<W>) -> fmt::Result {
        f.write_str(self.sentence())
    }
}

impl Error for ReplayFault {}
