// What a circuit consists of.
ghost use Rattle.std.specs.Prelude.{◌≡◌, ◌≤◌, [], length, IfOk};
ghost use Rattle.circuit.specs.Circuits.{nets_of, Blank};

use crate::circuit::{Circuit, Nets};
use crate::listing::Listing;
use crate::nets::NetKind;
use std::alloc::{AllocError, Global};

// The most nets that a circuit has.
pub const MOST_NETS: usize = 256;

impl Circuit {
    // A circuit of no nets, with room for all that it may ever hold.
    pub fn new(heap: Global) -> Result<Circuit, AllocError>
        ensures { IfOk result Blank }
    {
        let nets = Nets::new(heap)?;
        let listing = Listing::new(heap)?;
        Ok(Circuit { nets, listing })
    }

    // The nets, in the order of their numbers.
    pub fn nets(&self) -> &[NetKind]
        ensures is { result.now ≡ nets_of self.now }
        ensures few { length result.now ≤ 256 }
    {
        self.nets.as_slice()
    }

    // How many nets there are.
    pub fn len(&self) -> usize
        ensures is { result ≡ length (nets_of self.now) }
        ensures few { result ≤ 256 }
    {
        self.nets.len()
    }
}
