// Reading a circuit.
ghost use Rattle.std.specs.Prelude.{◌≡◌, []};
ghost use Rattle.circuit.specs.Accepts.{Reads, Accepts};
ghost use Rattle.circuit.specs.Drafts.{state_of};
ghost use Rattle.circuit.specs.Reading.{outcome, reading, named};

use crate::circuit::{Circuit, Nets};
use crate::fault::{ReadFault, Refusal};
use crate::listing::Listing;

// The most bytes that a circuit text has.
pub const LONGEST_TEXT: usize = 16384;

impl Listing {
    // Lists the lines of a text, and writes its nets.
    fn read(&mut self, text: &[u8], nets: &mut Nets) -> Result<(), ReadFault>
        requires { nets.old ≡ [] }
        ensures { outcome result (named (state_of text.now self.new).names nets.new) ≡ reading text.now }
    {
        self.clear();
        if text.len() > LONGEST_TEXT {
            return Err(Refusal::TextTooLong.at(0));
        }
        self.gather(text)?;
        self.lookup(text).resolve(nets)
    }
}

impl Circuit {
    // Puts the nets of a text in place of those that it has. A refused text leaves none.
    fn replace(&mut self, text: &[u8]) -> Result<(), ReadFault>
        ensures { Reads result text.now self.new }
    {
        self.nets.clear();
        let r = self.listing.read(text, &mut self.nets);
        // Not `?`: the refusal is passed on as it is, once the lists are cleared.
        if r.is_err() {
            self.nets.clear();
            self.listing.clear();
        }
        r
    }

    // Reads a text: what writing gives for a circuit, and nothing else. A refused reading leaves a circuit of no nets.
    #[tactic(auto, using(crate::proofs::Lawful::lawful))]
    pub fn read(&mut self, text: &[u8]) -> Result<(), ReadFault>
        ensures reads { Reads result text.now self.new }
        ensures accepts { Accepts result text.now self.new }
    {
        self.replace(text)
    }
}
