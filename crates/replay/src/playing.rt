// The target's value, by the frames of a trace worked out.
ghost use Rattle.std.specs.Prelude.{◌≡◌, ◌≤◌, map, length, replicate};
ghost use Rattle.circuit.specs.Circuits.{nets_of};
ghost use Rattle.values.specs.Threes.{is_one};
ghost use Rattle.values.specs.declared.three.Three.TheVariants.{Zero};
ghost use Rattle.frames.specs.Rules.{grid};
ghost use Rattle.frames.specs.Worked.{worked};
ghost use Rattle.trace.specs.Dashing.{Ready};
ghost use Rattle.trace.specs.Laid.{held_laid};
ghost use Rattle.trace.specs.Recordings.{held_trace};
ghost use Rattle.replay.specs.Answers.{answer_by};

use crate::replayer::Cells;
use crate::report::Answer;
use circuit::circuit::Circuit;
use frames::{Hold, work_out};
use trace::goal::Goal;
use trace::recording::Recording;
use values::{Kind, Three};

// Lays the trace that is held out, over so many zeros.
pub(crate) fn lay(recording: &Recording, cells: &mut Cells<Three>, count: usize)
    requires { count ≤ 16384 }
    ensures { cells.new ≡ held_laid (nets_of recording.now.circuit) (held_trace recording.now) (replicate count Zero) }
{
    cells.refill_with(count, Three::Zero);
    recording.lay_out(cells.as_mut_slice());
}

// Which of the values are One.
fn lower(bits: &mut Cells<bool>, cells: &Cells<Three>)
    ensures { bits.new ≡ map is_one cells.now }
{
    bits.refill_from_slice(cells.as_slice());
}

// Works out the frames, and tells the target's value in the last one.
fn target_value<K: Kind>(circuit: &Circuit, hold: Option<Hold>, cells: &mut [K], goal: Goal) -> K
    requires { Ready (nets_of circuit.now) goal (length cells.old) }
    ensures { result ≡ worked K.algebra (nets_of circuit.now) hold (grid K.algebra (length (nets_of circuit.now)) cells.old) goal.last.0 goal.target.0 }
{
    work_out(circuit, hold, cells);
    cells[goal.place(circuit)]
}

// The answer: by bits where no dash stands, else three-way.
pub(crate) fn answer(
    circuit: &Circuit,
    hold: Option<Hold>,
    dashes: usize,
    cells: &mut Cells<Three>,
    bits: &mut Cells<bool>,
    goal: Goal,
) -> Answer
    requires { Ready (nets_of circuit.now) goal (length cells.old) }
    ensures { result ≡ answer_by (nets_of circuit.now) hold dashes cells.old goal }
{
    if dashes == 0 {
        lower(bits, cells);
        return Answer::from(target_value(circuit, hold, bits.as_mut_slice(), goal));
    }
    Answer::from(target_value(circuit, hold, cells.as_mut_slice(), goal))
}
