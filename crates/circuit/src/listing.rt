// The lines so far: their names, by where they stand in the text, and their nets as far as they are known.
ghost use Rattle.std.specs.Prelude.{◌≡◌};

use crate::draft::Entry;
use crate::lookup::Lookup;
use crate::parts::MOST_NETS;
use store::Store;

#[derive(Drop)]
pub struct Listing {
    pub(crate) entries: Store<Entry, MOST_NETS>,
}

impl Listing {
    // The lines so far, with the text that their names stand in.
    pub(crate) fn lookup<'t, 'e>(&'e self, text: &'t [u8]) -> Lookup<'t, 'e>
        ensures text { result.text ≡ text.entry }
        ensures entries { result.entries.now ≡ self.now.entries }
    {
        Lookup {
            text,
            entries: self.entries.as_slice(),
        }
    }
}
