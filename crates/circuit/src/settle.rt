// The nexts of the latches, looked up once all names are known.
ghost use Rattle.std.specs.Prelude.{◌≡◌, []};
ghost use Rattle.circuit.specs.Drafts.{drawn, drafts_in};
ghost use Rattle.circuit.specs.Lookups.{known};
ghost use Rattle.circuit.specs.Reading.{outcome, settled, resolve};

use crate::circuit::Nets;
use crate::draft::Draft;
use crate::fault::{ReadFault, Refusal};
use crate::lookup::Lookup;
use crate::nets::NetKind;

impl Lookup<'_, '_> {
    fn settle(self, draft: Draft, line: usize) -> Result<NetKind, ReadFault>
        ensures { result ≡ settled (known self.entry) line (drawn self.entry.text.now draft) }
    {
        match draft {
            Draft::Done(kind) => Ok(kind),
            Draft::Latch { next, start } => {
                let unknown = Refusal::NextUnknown.at(line);
                let next = self.find(next.of(self.text)).ok_or(unknown)?;
                Ok(NetKind::Latch { next, start })
            }
        }
    }

    // Writes the nets of all lines.
    pub(crate) fn resolve(self, nets: &mut Nets) -> Result<(), ReadFault>
        requires { nets.old ≡ [] }
        ensures { outcome result nets.new ≡ resolve (known self.entry) [] (drafts_in self.entry.text.now self.entry.entries.now) }
    {
        for entry in self.entries {
            // The list so far is the count of lines.
            let kind = self.settle(entry.draft, nets.len() + 1)?;
            nets.push_if_room(kind);
        }
        Ok(())
    }
}
