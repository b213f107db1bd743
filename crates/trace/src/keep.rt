// Keeping a trace: which entries of a solution do not matter to the target.
ghost use Rattle.std.specs.Prelude.{◌≡◌, ◌+◌, ◌*◌, ◌<◌, ◌≤◌, map, length, slice_index_or};
ghost use Rattle.circuit.specs.Circuits.{nets_of};
ghost use Rattle.values.specs.Threes.{threes, is_one, three_of};
ghost use Rattle.frames.specs.Calls.{Changes};
ghost use Rattle.values.specs.declared.three.Three.TheVariants.{Zero};
ghost use Rattle.trace.specs.Dashes.{frame_of, goal_place, grid_at};
ghost use Rattle.trace.specs.Aims.{Aims, Whole};
ghost use Rattle.trace.specs.Dashing.{OpenEntry, Dashes, DashesAll};
ghost use Rattle.trace.specs.Keeping.{Kept, Found};
ghost use Rattle.trace.specs.Layout.{entries};

use crate::aim::Aim;
use crate::entry::{Entries, Entry};
use crate::goal::{Goal, NotOn};
use crate::recording::{MOST_CELLS, MOST_VALUES, Recording};
use circuit::circuit::Circuit;
use frames::{change, work_out};
use store::Store;
use values::Three;

impl<'a> Aim<'a> {
    // The goal, if a trace of the circuit can have it.
    fn new(circuit: &'a Circuit, goal: Goal) -> Option<Aim<'a>>
        ensures { Aims circuit.now goal result }
    {
        if goal.last.0 < 64 && usize::from(goal.target) < circuit.len() {
            Some(Aim { circuit, goal })
        } else {
            None
        }
    }

    // Whether the target is on for certain in the last frame.
    fn is_on(self, cells: &[Three]) -> bool
        requires { Whole self (length cells.now) }
        ensures { result ≡ is_one (slice_index_or cells.now (goal_place (length (nets_of self.entry.circuit.now)) self.entry.goal) Zero) }
    {
        cells[self.goal.place(self.circuit)].is_one()
    }

    // Puts a value at an entry, and works out what that changes.
    fn put(self, cells: &mut [Three], entry: Entry, value: Three)
        ensures { Changes threes (nets_of self.entry.circuit.now) (frame_of entry) entry.net.0 value cells.old cells.new }
    {
        change(self.circuit, cells, entry.in_frame(), entry.net, value);
    }

    // Makes an entry a dash, if the target still comes on.
    fn try_dash(self, cells: &mut [Three], entry: Entry)
        requires whole { Whole self (length cells.old) }
        requires opened { OpenEntry (nets_of self.circuit.now) self.goal.last.0 entry }
        ensures { Dashes (nets_of self.entry.circuit.now) self.entry.goal entry cells.old cells.new }
    {
        let old = cells[entry.place(self.circuit)];
        self.put(cells, entry, Three::U);
        if !self.is_on(cells) {
            self.put(cells, entry, old);
        }
    }

    // Tries every entry, in the order of the trace.
    fn dash_all(self, cells: &mut [Three])
        requires { Whole self (length cells.old) }
        ensures { DashesAll (nets_of self.entry.circuit.now) self.entry.goal (entries (nets_of self.entry.circuit.now) self.entry.goal.last.0) cells.old cells.new }
    {
        for entry in Entries::new(self.circuit, self.goal.last) {
            self.try_dash(cells, entry);
        }
    }

    // Works out the frames of a solution and finds its dashes. Refused where the target does not come on.
    fn find_dashes(self, cells: &mut [Three]) -> Result<(), NotOn>
        requires { Whole self (length cells.old) }
        ensures { Found (nets_of self.entry.circuit.now) self.entry.goal cells.old cells.new result }
    {
        work_out(self.circuit, None, cells);
        if !self.is_on(cells) {
            return Err(NotOn);
        }
        self.dash_all(cells);
        Ok(())
    }

    // The values of the entries, in the order of the trace.
    fn collect(self, cells: &[Three], values: &mut Store<Three, MOST_VALUES>)
        requires { Whole self (length cells.now) }
        ensures { values.new ≡ map (grid_at (length (nets_of self.entry.circuit.now)) cells.now) (entries (nets_of self.entry.circuit.now) self.entry.goal.last.0) }
    {
        values.clear();
        for entry in Entries::new(self.circuit, self.goal.last) {
            values.push_if_room(cells[entry.place(self.circuit)]);
        }
    }
}

// The bits of a solution as three-way values.
fn lift(solution: &[bool], cells: &mut Store<Three, MOST_CELLS>)
    requires { length solution.now ≤ 16384 }
    ensures { cells.new ≡ map three_of solution.now }
{
    cells.refill_from_slice(solution);
}

impl Recording {
    // Keeps the trace of a solution: a bit for each net in each frame up to the goal's last, by frame and net. Its free starts by net,
    // then its inputs by frame and net, each become a dash if the target in the last frame still comes out 1. Refused where
    // they do not put the target on.
    pub fn keep(&mut self, solution: &[bool], goal: Goal) -> Result<(), NotOn>
        ensures { Kept result solution.now goal self.old self.new }
    {
        let aim = Aim::new(&self.circuit, goal).ok_or(NotOn)?;
        if solution.len() != (usize::from(goal.last) + 1) * self.circuit.len() {
            return Err(NotOn);
        }
        lift(solution, &mut self.cells);
        aim.find_dashes(self.cells.as_mut_slice())?;
        self.goal = None;
        aim.collect(self.cells.as_slice(), &mut self.values);
        self.goal = Some(goal);
        Ok(())
    }
}
