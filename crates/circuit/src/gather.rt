// All lines judged, one after the other.
ghost use Rattle.std.specs.Prelude.{◌≡◌, ℕ, ◌+◌, ◌<◌, List, [], length, IfOk, OnOk, MatchResult};
ghost use Rattle.text.specs.Readers.{left};
ghost use Rattle.circuit.specs.declared.fault.Refusal.TheVariants.{TooManyLines};
ghost use Rattle.circuit.specs.Drafts.{state_of};
ghost use Rattle.circuit.specs.Faults.{fault};
ghost use Rattle.circuit.specs.Reading.{outcome, taken, closing, gathered};

use crate::fault::{ReadFault, Refusal};
use crate::listing::Listing;
use crate::parts::MOST_NETS;
use std::alloc::{AllocError, Global};
use store::Store;
use text::class::Class;
use text::part::Part;
use text::reader::Reader;

impl Listing {
    // Room for all lines.
    pub(crate) fn new(heap: Global) -> Result<Listing, AllocError>
        ensures { IfOk result (λ l. l.entries ≡ []) }
    {
        let entries = Store::new(heap)?;
        Ok(Listing { entries })
    }

    pub(crate) fn clear(&mut self)
        ensures { self.new.entries ≡ [] }
    {
        self.entries.clear();
    }

    // Refuses one more line where there are 256: the list so far is the count of lines.
    fn one_more(&self, line: usize) -> Result<(), ReadFault>
        ensures { MatchResult result (λ _. length self.now.entries < 256) (λ f. (length self.now.entries ≡ 256) × (f ≡ fault TooManyLines line)) }
    {
        if self.entries.len() == MOST_NETS {
            return Err(Refusal::TooManyLines.at(line));
        }
        Ok(())
    }

    // Takes one line, whose number is `number`.
    fn take(&mut self, line: Reader, number: usize) -> Result<(), ReadFault>
        requires { number ≡ length self.old.entries + 1 }
        ensures is { outcome result (state_of line.entry.text.now self.new) ≡ taken (state_of line.entry.text.now self.old) (left line.entry) }
        ensures len { OnOk result (length self.new.entries ≡ number) }
    {
        self.one_more(number)?;
        let known = self.lookup(line.text());
        let entry = known.judge(line).map_err(|refusal| refusal.at(number))?;
        self.entries.push_if_room(entry);
        Ok(())
    }

    // Judges what stands after the last line feed.
    fn close(&self, tail: Part) -> Result<(), ReadFault>
        requires { tail.line ≡ length self.now.entries + 1 }
        ensures { (t : List ℕ) → outcome result (state_of t self.now) ≡ closing (state_of t self.now) tail.entry.bytes.now }
    {
        if tail.bytes.is_empty() {
            return Ok(());
        }
        self.one_more(tail.line)?;
        Err(Refusal::LineOpen.at(tail.line))
    }

    // Takes every line of the text.
    pub(crate) fn gather(&mut self, text: &[u8]) -> Result<(), ReadFault>
        requires { length self.old.entries ≡ 0 }
        ensures { outcome result (state_of text.now self.new) ≡ gathered (state_of text.now self.old) text.now }
    {
        let mut lines = Reader::new(text);
        // No `for`: the same reader then gives what stands after the last line feed.
        while let Some(line) = lines.part(Class::Feed) {
            self.take(lines.inside(line), line.line)?;
        }
        self.close(lines.left())
    }
}
