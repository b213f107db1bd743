// The names of a circuit: which one a net has, and which net has one.
ghost use Rattle.std.specs.Prelude.{◌≡◌, ◌≤◌, length};
ghost use Rattle.circuit.specs.Names.{name_at, place_from};
ghost use Rattle.circuit.specs.Named.{names_in};

use crate::circuit::Circuit;
use crate::nets::Net;

// The names of a circuit, by the text that it was read from.
#[derive(Clone, Copy)]
pub struct Names<'c, 't> {
    circuit: &'c Circuit,
    text: &'t [u8],
}

impl<'c, 't> Names<'c, 't> {
    pub fn new(circuit: &'c Circuit, text: &'t [u8]) -> Names<'c, 't>
        ensures circuit { result.circuit ≡ circuit.entry }
        ensures text { result.text ≡ text.entry }
    {
        Names { circuit, text }
    }

    // How many nets have a name.
    pub fn len(self) -> usize
        ensures is { result ≡ length (names_in self.entry) }
        ensures few { result ≤ 256 }
    {
        self.circuit.listing.entries.len()
    }

    // The name of a net, empty where there is none: empty and not `None`, since `name_at`, which the contract cites, gives a text
    // for each net.
    pub fn name(self, net: Net) -> &'t [u8]
        ensures { result.now ≡ name_at (names_in self.entry) net }
    {
        let entries = self.circuit.listing.entries.as_slice();
        entries
            .get(usize::from(net))
            .map_or(b"", |entry| entry.name.of(self.text))
    }

    // The net of that name.
    pub fn net(self, name: &[u8]) -> Option<Net>
        ensures { result ≡ place_from 0 name.now (names_in self.entry) }
    {
        self.circuit.listing.lookup(self.text).find(name)
    }
}
