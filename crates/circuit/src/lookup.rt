// Names looked up among those of the lines so far.
ghost use Rattle.std.specs.Prelude.{◌≡◌, ◌<◌, ◌≤◌, length, IfSome};
ghost use Rattle.std.specs.List.{position};
ghost use Rattle.std.specs.Str.{bytes_eq};
ghost use Rattle.std.specs.Option.{ok_or};
ghost use Rattle.text.specs.Spans.{spanned};
ghost use Rattle.circuit.specs.declared.fault.Refusal.TheVariants.{OperandUnknown};
ghost use Rattle.circuit.specs.Judge.{pair_of};
ghost use Rattle.circuit.specs.Names.{place_from};

use crate::draft::Entry;
use crate::fault::Refusal;
use crate::nets::Net;

// The text that is read, and the lines so far, whose names stand in it.
#[derive(Clone, Copy)]
pub(crate) struct Lookup<'t, 'e> {
    pub(crate) text: &'t [u8],
    pub(crate) entries: &'e [Entry],
    ghost few: { length entries.now ≤ 256 },
}

impl<'t, 'e> Lookup<'t, 'e> {
    ghost use Rattle.circuit.specs.Lookups.{known};

    // Whether a line has that name.
    fn has(self, entry: Entry, name: &[u8]) -> bool
        ensures { result ≡ bytes_eq (spanned self.entry.text.now entry.name) name.now }
    {
        entry.name.of(self.text) == name
    }

    // Where the first line of that name stands.
    fn place(self, name: &[u8]) -> Option<usize>
        ensures is { result ≡ position (λ e. bytes_eq (spanned self.entry.text.now e.name) name.now) self.entry.entries.now }
        ensures few { IfSome result (λ i. i < 256) }
    {
        self.entries.iter().position(|entry| self.has(*entry, name))
    }

    // The net whose name it is.
    #[tactic(auto, using(crate::proofs::Finding::found))]
    pub(crate) fn find(self, name: &[u8]) -> Option<Net>
        ensures { result ≡ place_from 0 name.now (known self.entry) }
    {
        let place = self.place(name)?;
        // The cast is proved: there are at most 256 lines. A conversion that may fail would bring a refusal that cannot come.
        Some(Net(place as u32))
    }

    // The net of a gate's operand.
    pub(crate) fn operand(self, name: &[u8]) -> Result<Net, Refusal>
        ensures { result ≡ ok_or (place_from 0 name.now (known self.entry)) OperandUnknown }
    {
        self.find(name).ok_or(Refusal::OperandUnknown)
    }

    // The nets of a gate's operands.
    pub(crate) fn operands(self, a: &[u8], b: &[u8]) -> Result<(Net, Net), Refusal>
        ensures { result ≡ ok_or (pair_of (known self.entry) a.now b.now) OperandUnknown }
    {
        Ok((self.operand(a)?, self.operand(b)?))
    }
}
