// One line judged, given the names of the lines before it.
ghost use Rattle.std.specs.Prelude.{◌≡◌};
ghost use Rattle.text.specs.Readers.{left};
ghost use Rattle.circuit.specs.Drafts.{drafted, kept};
ghost use Rattle.circuit.specs.Judge.{names_good, fitted, judged};
ghost use Rattle.circuit.specs.Lookups.{known};
ghost use Rattle.circuit.specs.Record.{said};
ghost use Rattle.circuit.specs.Rows.{BodyStands};

use crate::draft::{Draft, Entry};
use crate::fault::Refusal;
use crate::lookup::Lookup;
use crate::nets::{NetKind, Start};
use crate::record::{Body, Row, record};
use text::name::is_name;
use text::reader::Reader;

// Whether every name of the line is one.
fn names_good(row: Row) -> bool
    ensures { result ≡ names_good row.entry.name.bytes.now (said row.entry.body) }
{
    is_name(row.name.bytes)
        && match row.body {
            Body::Input => true,
            Body::Latch { next, start: _ } => is_name(next.bytes),
            Body::And(a, b) | Body::Xor(a, b) => is_name(a.bytes) && is_name(b.bytes),
            Body::Not(a) => is_name(a.bytes),
        }
}

impl Lookup<'_, '_> {
    // The net of a record, whose operands are nets of earlier lines.
    fn fit(self, body: Body) -> Result<Draft, Refusal>
        requires { BodyStands self.text.now body }
        ensures { drafted self.entry.text.now result ≡ fitted (known self.entry) (said body.entry) }
    {
        match body {
            Body::Input => Ok(Draft::Done(NetKind::Input)),
            Body::Latch { next, start } => Ok(Draft::Latch {
                next: next.span(),
                start: Start::try_from(start.bytes)?,
            }),
            Body::And(a, b) => {
                let (a, b) = self.operands(a.bytes, b.bytes)?;
                Ok(Draft::Done(NetKind::And(a, b)))
            }
            Body::Xor(a, b) => {
                let (a, b) = self.operands(a.bytes, b.bytes)?;
                Ok(Draft::Done(NetKind::Xor(a, b)))
            }
            Body::Not(a) => {
                let a = self.operand(a.bytes)?;
                Ok(Draft::Done(NetKind::Not(a)))
            }
        }
    }

    // What a line of the text adds.
    pub(crate) fn judge(self, line: Reader) -> Result<Entry, Refusal>
        requires { line.text ≡ self.text }
        ensures { kept self.entry.text.now result ≡ judged (known self.entry) (left line.entry) }
    {
        let row = record(line).ok_or(Refusal::BadRecord)?;
        if !names_good(row) {
            return Err(Refusal::BadName);
        }
        if self.find(row.name.bytes).is_some() {
            return Err(Refusal::NameTaken);
        }
        let draft = self.fit(row.body)?;
        Ok(Entry {
            name: row.name.span(),
            draft,
        })
    }
}
