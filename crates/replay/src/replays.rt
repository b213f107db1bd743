// A trace text played on a circuit text.
ghost use Rattle.std.specs.Prelude.{◌≡◌, true, is_some, IfOk, Some};
ghost use Rattle.circuit.specs.Circuits.{nets_of};
ghost use Rattle.trace.specs.Recordings.{held_trace};
ghost use Rattle.trace.specs.Texts.{Told};
ghost use Rattle.replay.specs.Law.{Lawful};
ghost use Rattle.replay.specs.Replayers.{Idle};
ghost use Rattle.replay.specs.Answers.{hold_inside, report_of, replayed, named_hold};

use crate::fault::ReplayFault;
use crate::playing::{answer, lay};
use crate::record::HoldRecord;
use crate::replayer::Replayer;
use crate::report::Report;
use circuit::circuit::Circuit;
use circuit::names::Names;
use frames::Hold;
use std::alloc::{AllocError, Global};
use store::Store;
use trace::recording::Recording;

// Whether a circuit of so many nets has the net of the hold.
fn hold_inside(hold: Option<Hold>, nets: usize) -> bool
    ensures { result ≡ hold_inside hold nets }
{
    hold.is_none_or(|h| usize::from(h.net) < nets)
}

impl Replayer {
    // Room for any circuit and any trace, so that a replay wants no memory.
    pub fn new(heap: Global) -> Result<Replayer, AllocError>
        ensures { IfOk result Idle }
    {
        let circuit = Circuit::new(heap)?;
        let recording = Recording::new(heap, circuit)?;
        let threes = Store::new(heap)?;
        let bits = Store::new(heap)?;
        Ok(Replayer {
            recording,
            threes,
            bits,
        })
    }

    // What the trace that is held shows.
    fn report(&mut self, hold: Option<Hold>) -> Report
        requires { is_some (held_trace self.old.recording) ≡ true }
        ensures { (t : Told) → held_trace self.old.recording ≡ Some t → result ≡ report_of (nets_of self.old.recording.circuit) hold t }
    {
        let trace = self.recording.trace().unwrap();
        let circuit = self.recording.circuit();
        let goal = trace.goal;
        let dashes = trace.dashes();
        let nets = circuit.len();
        let frames = goal.last.0 + 1;
        let places = (usize::from(goal.last) + 1) * nets;
        lay(&self.recording, &mut self.threes, places);
        let answer = answer(
            circuit,
            hold,
            dashes,
            &mut self.threes,
            &mut self.bits,
            goal,
        );
        Report {
            nets,
            frames,
            dashes,
            answer,
        }
    }

    // The two texts are arguments of their own, as in the public calls below, at which the two clauses stand again for their readers.
    fn play(
        &mut self,
        circuit: &[u8],
        trace: &[u8],
        hold: Option<Hold>,
    ) -> Result<Report, ReplayFault>
        ensures is { result ≡ replayed circuit.now trace.now hold }
        ensures law { Lawful circuit.now trace.now hold result }
    {
        self.recording.read_circuit(circuit)?;
        if !hold_inside(hold, self.recording.circuit().len()) {
            return Err(ReplayFault::NoNet);
        }
        self.recording.read(circuit, trace)?;
        Ok(self.report(hold))
    }

    // Plays a trace text on a circuit text, with the hold that the record shows.
    pub fn replay(
        &mut self,
        circuit: &[u8],
        trace: &[u8],
        holds: &HoldRecord,
    ) -> Result<Report, ReplayFault>
        ensures is { result ≡ replayed circuit.now trace.now holds.now.hold }
        ensures law { Lawful circuit.now trace.now holds.now.hold result }
    {
        self.play(circuit, trace, holds.hold())
    }

    // The same with a net held for this replay alone: then the record shows its earlier hold again, also where the replay
    // is refused.
    pub fn replay_held(
        &mut self,
        circuit: &[u8],
        trace: &[u8],
        holds: &mut HoldRecord,
        hold: Hold,
    ) -> Result<Report, ReplayFault>
        ensures is { result ≡ replayed circuit.now trace.now (Some hold) }
        ensures law { Lawful circuit.now trace.now (Some hold) result }
        ensures holds { holds.new.hold ≡ holds.old.hold }
    {
        let held = holds.set(hold);
        self.play(circuit, trace, held.hold())
    }

    // A hold of the net that has this name in a circuit text.
    pub fn hold_named(
        &mut self,
        circuit: &[u8],
        name: &[u8],
        bit: bool,
    ) -> Result<Hold, ReplayFault>
        ensures { result ≡ named_hold circuit.now name.now bit }
    {
        self.recording.read_circuit(circuit)?;
        let names = Names::new(self.recording.circuit(), circuit);
        let net = names.net(name).ok_or(ReplayFault::NoNet)?;
        Ok(Hold { net, bit })
    }
}
