// The record that a line holds.
ghost use Rattle.std.specs.Prelude.{◌≡◌, None, IfSome, MatchOption};
ghost use Rattle.text.specs.Readers.{left};
ghost use Rattle.circuit.specs.Record.{letter_in, seen, row_of};
ghost use Rattle.circuit.specs.Rows.{Sorted, FieldsStand, RowStands};

use text::class::Class;
use text::part::Part;
use text::reader::Reader;

// What a line says of its net, by the texts of its fields. `NetKind` has the same cases: one enum for both would take two
// parameters, and each clause would still name all five.
#[derive(Clone, Copy, PartialEq, Eq, Debug)]
pub(crate) enum Body<'a> {
    Input,
    Latch { next: Part<'a>, start: Part<'a> },
    And(Part<'a>, Part<'a>),
    Xor(Part<'a>, Part<'a>),
    Not(Part<'a>),
}

#[derive(Clone, Copy, PartialEq, Eq, Debug)]
pub(crate) struct Row<'a> {
    pub(crate) name: Part<'a>,
    pub(crate) body: Body<'a>,
}

// The fields of a line whose count of fields is that of some record. They are no slice for a pattern, since they come one by
// one from the reader.
#[derive(Clone, Copy, PartialEq, Eq, Debug)]
enum Fields<'a> {
    Two(Part<'a>, Part<'a>),
    Three(Part<'a>, Part<'a>, Part<'a>),
    Four(Part<'a>, Part<'a>, Part<'a>, Part<'a>),
}

// Any field may be the last one, which only the end of the line tells: so each may end the call.
fn split<'a>(mut line: Reader<'a>) -> Option<Fields<'a>>
    ensures sorted { MatchOption result (row_of (left line.entry) ≡ None) (λ f. Sorted f (left line.entry)) }
    ensures stand { IfSome result (λ f. FieldsStand line.entry.text.now f) }
{
    let kind = line.part(Class::Tab)?;
    let Some(name) = line.part(Class::Tab) else {
        return Some(Fields::Two(kind, line.left()));
    };
    let Some(a) = line.part(Class::Tab) else {
        return Some(Fields::Three(kind, name, line.left()));
    };
    let Some(_) = line.part(Class::Tab) else {
        return Some(Fields::Four(kind, name, a, line.left()));
    };
    None
}

// The letter of a field that is one byte. Letters are characters here, so that the records read as they are written.
pub(crate) fn letter(field: &[u8]) -> Option<char>
    ensures { result ≡ letter_in field.now }
{
    match field {
        [b] => Some(char::from(*b)),
        _ => None,
    }
}

// The record of a line, if its letter is known and has that count of fields.
pub(crate) fn record<'a>(line: Reader<'a>) -> Option<Row<'a>>
    ensures is { seen result ≡ row_of (left line.entry) }
    ensures stands { RowStands line.entry.text.now result }
{
    match split(line)? {
        Fields::Two(kind, name) => match letter(kind.bytes)? {
            'I' => Some(Row {
                name,
                body: Body::Input,
            }),
            _ => None,
        },
        Fields::Three(kind, name, a) => match letter(kind.bytes)? {
            'N' => Some(Row {
                name,
                body: Body::Not(a),
            }),
            _ => None,
        },
        Fields::Four(kind, name, a, b) => match letter(kind.bytes)? {
            'L' => Some(Row {
                name,
                body: Body::Latch { next: a, start: b },
            }),
            'A' => Some(Row {
                name,
                body: Body::And(a, b),
            }),
            'X' => Some(Row {
                name,
                body: Body::Xor(a, b),
            }),
            _ => None,
        },
    }
}
