// The text of a trace, put into any sink.
ghost use Rattle.std.specs.Prelude.{◌≡◌, ◌<◌, ◌≤◌, length};
ghost use Rattle.circuit.specs.Named.{names_in};
ghost use Rattle.sinks.specs.Sinks.{Puts};
ghost use Rattle.trace.specs.Coming.{left};
ghost use Rattle.trace.specs.Scripts.{script_text};
ghost use Rattle.trace.specs.Texts.{decimal, first_line, head, line, lines};

use crate::decimal::Decimal;
use crate::entry::{Entries, Entry};
use crate::goal::Goal;
use crate::script::Script;
use circuit::names::Names;
use sinks::parts::put_all;
use sinks::sink::{Refused, Sink};
use values::Three;

impl Decimal {
    fn new(n: u32) -> Decimal
        ensures { result.n ≡ n }
    {
        // the casts are proved: a digit fits a byte
        let digits = [b'0' + (n / 10 % 10) as u8, b'0' + (n % 10) as u8];
        Decimal { n, digits }
    }

    // Without a leading zero.
    fn as_bytes(&self) -> &[u8]
        ensures { result.now ≡ decimal self.now.n }
    {
        if self.n < 10 {
            &self.digits[1..]
        } else {
            &self.digits
        }
    }
}

// The calls that put take the sink and the names side by side: a struct that held the sink, lent to be written, would owe after
// each call that it holds the same one.
pub(crate) fn put_head<S: Sink>(sink: &mut S, names: Names, entry: Entry) -> Result<(), Refused>
    ensures { Puts (S.meaning sink.old) (S.meaning sink.new) (head (names_in names.entry) entry) result }
{
    let name = names.name(entry.net);
    match entry.frame {
        None => put_all(sink, &[b"s\t", name, b"\t"]),
        Some(frame) => {
            let number = Decimal::new(frame.0);
            put_all(sink, &[b"i\t", number.as_bytes(), b"\t", name, b"\t"])
        }
    }
}

fn put_line<S: Sink>(sink: &mut S, names: Names, entry: Entry, value: Three) -> Result<(), Refused>
    ensures { Puts (S.meaning sink.old) (S.meaning sink.new) (line (names_in names.entry) entry value) result }
{
    put_head(sink, names, entry)?;
    sink.put(&[u8::from(value), b'\n'])
}

fn put_lines<S: Sink>(
    sink: &mut S,
    names: Names,
    entries: Entries,
    values: &[Three],
) -> Result<(), Refused>
    ensures { Puts (S.meaning sink.old) (S.meaning sink.new) (lines (names_in names.entry) (left entries.entry) values.now) result }
{
    // the values first: where they end, no further entry is looked for
    for (value, entry) in values.iter().zip(entries) {
        put_line(sink, names, entry, *value)?;
    }
    Ok(())
}

fn put_first<S: Sink>(sink: &mut S, names: Names, goal: Goal) -> Result<(), Refused>
    ensures { Puts (S.meaning sink.old) (S.meaning sink.new) (first_line (names_in names.entry) goal.last.0 goal.target) result }
{
    let number = Decimal::new(goal.last.0);
    let name = names.name(goal.target);
    put_all(sink, &[b"run\t", number.as_bytes(), b"\t", name, b"\n"])
}

impl Script<'_, '_, '_> {
    // Puts the whole text.
    pub(crate) fn put<S: Sink>(self, sink: &mut S) -> Result<(), Refused>
        ensures { Puts (S.meaning sink.old) (S.meaning sink.new) (script_text self.entry) result }
    {
        put_first(sink, self.names, self.trace.goal)?;
        let entries = Entries::new(self.circuit, self.trace.goal.last);
        put_lines(sink, self.names, entries, self.trace.values)
    }
}
