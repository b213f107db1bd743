// Reading a trace, line by line.
ghost use Rattle.std.specs.Prelude.{◌≡◌, ◌≤◌, [], length};
ghost use Rattle.std.specs.Option.{option_map};
ghost use Rattle.circuit.specs.Named.{names_in};
ghost use Rattle.circuit.specs.Reading.{outcome};
ghost use Rattle.sinks.specs.Sinks.{strip};
ghost use Rattle.trace.specs.Coming.{left};
ghost use Rattle.trace.specs.Readings.{digit_of, number_of, valued, line_at, field_at, first_at, read_on};
ghost use Rattle.trace.specs.Seen.{seen_taken, seen_split, seen_first};

use crate::entry::{Entries, Entry};
use crate::fault::TraceFault;
use crate::goal::Goal;
use crate::recording::MOST_VALUES;
use crate::writing::put_head;
use circuit::names::Names;
use circuit::nets::Frame;
use sinks::matcher::Matcher;
use store::Store;
use text::class::Class;
use text::cut::first_of;
use values::Three;

fn digit_of(b: u8) -> Option<u32>
    ensures { result ≡ digit_of b }
{
    char::from(b).to_digit(10)
}

// A number below 64, without a leading zero: by hand, since the library's `parse` takes leading zeros and a sign.
fn number_of(field: &[u8]) -> Option<u32>
    ensures { result ≡ number_of field.now }
{
    match field {
        [d] => digit_of(*d),
        [d, e] => {
            let tens = digit_of(*d)?;
            let ones = digit_of(*e)?;
            let n = 10 * tens + ones;
            (tens > 0 && n < 64).then_some(n)
        }
        _ => None,
    }
}

// A value, and what follows its line.
#[derive(Clone, Copy)]
pub(crate) struct Taken<'a> {
    pub(crate) value: Three,
    pub(crate) rest: &'a [u8],
}

fn take_value<'a>(text: &'a [u8]) -> Option<Taken<'a>>
    ensures { seen_taken result ≡ valued text.now }
{
    match text {
        [b, b'\n', rest @ ..] => {
            let value = Three::try_from(*b).ok()?;
            Some(Taken { value, rest })
        }
        _ => None,
    }
}

pub(crate) fn take_line<'a>(names: Names, entry: Entry, text: &'a [u8]) -> Option<Taken<'a>>
    ensures { seen_taken result ≡ line_at (names_in names.entry) entry text.now }
{
    let mut matcher = Matcher { rest: text };
    // Not `.ok()?`: tried, and the proof then lacks what a refused head says of the text.
    let Ok(()) = put_head(&mut matcher, names, entry) else {
        return None;
    };
    take_value(matcher.rest)
}

// What a byte of some class closes, and what follows: by a slice and no reader, since a fault of a trace names no place.
#[derive(Clone, Copy)]
struct Split<'a> {
    part: &'a [u8],
    rest: &'a [u8],
}

fn field<'a>(text: &'a [u8], class: Class) -> Option<Split<'a>>
    ensures { seen_split result ≡ field_at class text.now }
{
    let n = first_of(text, class)?;
    Some(Split {
        part: &text[..n],
        rest: &text[n + 1..],
    })
}

fn after<'a>(text: &'a [u8], front: &[u8]) -> Option<&'a [u8]>
    ensures { option_map (λ x. x.now) result ≡ strip text.now front.now }
{
    text.strip_prefix(front)
}

// What the first line says, and what follows it.
#[derive(Clone, Copy)]
pub(crate) struct First<'a> {
    pub(crate) goal: Goal,
    pub(crate) rest: &'a [u8],
}

pub(crate) fn first_line<'a>(names: Names, text: &'a [u8]) -> Option<First<'a>>
    ensures { seen_first result ≡ first_at (names_in names.entry) text.now }
{
    let rest = after(text, b"run\t")?;
    let number = field(rest, Class::Tab)?;
    let last = Frame(number_of(number.part)?);
    let name = field(number.rest, Class::Feed)?;
    let target = names.net(name.part)?;
    Some(First {
        goal: Goal { last, target },
        rest: name.rest,
    })
}

pub(crate) fn read_lines(
    values: &mut Store<Three, MOST_VALUES>,
    names: Names,
    entries: Entries,
    text: &[u8],
) -> Result<(), TraceFault>
    requires empty { values.old ≡ [] }
    requires few { length (left entries) ≤ 16640 }
    ensures { outcome result values.new ≡ read_on (names_in names.entry) [] (left entries.entry) text.now }
{
    let mut rest = text;
    for entry in entries {
        let line = values.len() + 2;
        let taken = take_line(names, entry, rest).ok_or(TraceFault::LaterLine(line))?;
        values.push_if_room(taken.value);
        rest = taken.rest;
    }
    if rest.is_empty() {
        Ok(())
    } else {
        Err(TraceFault::LaterLine(values.len() + 2))
    }
}
