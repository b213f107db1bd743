// A reader yields the parts that bytes of one class close, each a part of the text with its line and place.
ghost use Rattle.std.specs.Prelude.{◌≡◌, ◌≤◌, length, position, MatchOption};
ghost use Rattle.text.specs.Class.{class_of, same};
ghost use Rattle.text.specs.Cut.{stop};
ghost use Rattle.text.specs.Parts.{Stands};
ghost use Rattle.text.specs.Readers.{lines_closed, left, Starts, Inside, Yields, Ends};

use crate::class::{Class, class_of};
use crate::part::Part;
use crate::reader::Reader;

// Whether a byte is of the class.
fn is_of(b: u8, class: Class) -> bool
    ensures { result ≡ same (class_of b) class }
{
    class_of(b) == class
}

// The place of the first byte of the class, if there is one.
pub fn first_of(text: &[u8], class: Class) -> Option<usize>
    ensures { result ≡ position (λ b. same (class_of b) class) text.now }
{
    text.iter().position(|b| is_of(*b, class))
}

// How many bytes stand before the first of the class.
pub fn bytes_before(text: &[u8], class: Class) -> usize
    ensures is { result ≡ stop class text.now }
    ensures within { result ≤ length text.now }
{
    first_of(text, class).unwrap_or(text.len())
}

// How many lines a byte of the class closes.
fn lines_closed(class: Class) -> usize
    ensures is { result ≡ lines_closed class }
    ensures few { result ≤ 1 }
{
    usize::from(class == Class::Feed)
}

impl<'a> Reader<'a> {
    // Reads a whole text, which begins on line 1.
    pub fn new(text: &'a [u8]) -> Reader<'a>
        ensures { Starts result text.entry }
    {
        Reader {
            text,
            place: 0,
            end: text.len(),
            line: 1,
        }
    }

    // A reader over one part of the text that this one reads.
    pub fn inside(&self, part: Part<'a>) -> Reader<'a>
        ensures { Inside self.now part.entry result }
    {
        let place = part.place.min(self.text.len());
        let len = part.bytes.len().min(self.text.len() - place);
        Reader {
            text: self.text,
            place,
            end: place + len,
            line: part.line.min(place + 1),
        }
    }

    // The text that it reads, or reads a part of.
    pub fn text(&self) -> &'a [u8]
        ensures { result ≡ self.now.text }
    {
        self.text
    }

    // What is left to read.
    pub fn left(&self) -> Part<'a>
        ensures bytes { result.bytes.now ≡ left self.now }
        ensures stands { Stands self.now.text.now result }
        ensures line { result.line ≡ self.now.line }
        ensures place { result.place ≡ self.now.place }
    {
        Part {
            bytes: &self.text[self.place..self.end],
            line: self.line,
            place: self.place,
        }
    }

    // The next part that a byte of the class closes, if there is one.
    pub fn part(&mut self, class: Class) -> Option<Part<'a>>
        ensures { MatchOption result (Ends class self.old self.new) (λ p. Yields class p self.old self.new) }
    {
        let rest = self.left();
        let n = first_of(rest.bytes, class)?;
        self.place += n + 1;
        self.line += lines_closed(class);
        Some(Part {
            bytes: &rest.bytes[..n],
            line: rest.line,
            place: rest.place,
        })
    }
}
