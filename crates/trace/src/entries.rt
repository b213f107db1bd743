// The entries one by one.
ghost use Rattle.std.specs.Prelude.{◌≡◌, ◌<◌, position};
ghost use Rattle.std.specs.Iterator.{YieldsFirst, item_count};
ghost use Rattle.circuit.specs.Circuits.{nets_of};
ghost use Rattle.trace.specs.Layout.{wanted, entries};
ghost use Rattle.trace.specs.Coming.{left, Rows};

use crate::entry::{Entries, Entry};
use circuit::circuit::Circuit;
use circuit::nets::{Frame, Net, NetKind, Start};

// Whether the net has an entry at its start, or else in a frame.
fn is_wanted(frame: Option<Frame>, kind: NetKind) -> bool
    ensures { result ≡ wanted frame kind }
{
    match kind {
        NetKind::Input => frame.is_some(),
        NetKind::Latch { start, .. } => frame.is_none() && start == Start::Free,
        _ => false,
    }
}

// How many nets stand before the first that has an entry, if one has.
fn ahead(nets: &[NetKind], frame: Option<Frame>) -> Option<usize>
    ensures { result ≡ position (wanted frame) nets.now }
{
    nets.iter().position(|kind| is_wanted(frame, *kind))
}

impl<'a> Entries<'a> {
    // The entries of a trace that ends in the frame `last`.
    pub(crate) fn new(circuit: &'a Circuit, last: Frame) -> Entries<'a>
        requires { last.0 < 64 }
        ensures { left result ≡ entries (nets_of circuit.now) last.0 }
    {
        Entries {
            nets: circuit.nets(),
            place: 0,
            frame: None,
            frames: 0..last.0 + 1,
        }
    }

    // The next entry of the row, if it has one more.
    fn in_row(&mut self) -> Option<Entry>
        ensures { Rows self.old self.new result }
    {
        let rest = self.nets.get(self.place..)?;
        let place = self.place + ahead(rest, self.frame)?;
        self.place = place + 1;
        Some(Entry {
            frame: self.frame,
            // The cast is proved; a conversion that may fail would bring a refusal that cannot come.
            net: Net(place as u32),
        })
    }
}

impl Iterator for Entries<'_> {
    type Item = Entry;

    ghost next_gives = { YieldsFirst left };

    ghost remaining = { item_count left };

    #[inline]
    fn next(&mut self) -> Option<Entry> {
        if let Some(entry) = self.in_row() {
            return Some(entry);
        }
        self.frame = Some(Frame(self.frames.next()?));
        self.place = 0;
        self.in_row()
    }
}
