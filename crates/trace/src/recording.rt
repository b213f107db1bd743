// A circuit, with room for one trace of it.
ghost use Rattle.std.specs.Prelude.{◌≡◌, true};
ghost use Rattle.trace.specs.Layout.{fits_in};

use crate::goal::Goal;
use circuit::circuit::Circuit;
use store::Store;
use values::Three;

// 256 free starts, and 256 inputs in each of 64 frames.
pub const MOST_VALUES: usize = 16640;

// 256 nets in each of 64 frames.
pub const MOST_CELLS: usize = 16384;

// Where a trace is held, `goal` is what it shows, and `values` has a value for each entry of the circuit. `cells` is room to
// work out frames in.
#[derive(Drop)]
pub struct Recording {
    pub(crate) circuit: Circuit,
    pub(crate) goal: Option<Goal>,
    pub(crate) values: Store<Three, MOST_VALUES>,
    pub(crate) cells: Store<Three, MOST_CELLS>,
    ghost fits: { fits_in circuit.nets goal values ≡ true },
}
