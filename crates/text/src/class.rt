// The six classes of bytes, by a table of 256.
ghost use Rattle.std.specs.Prelude.{◌≡◌};
ghost use Rattle.text.specs.Class.{class_of};

// `Other` is a class like the others: the bytes that no record and no name has.
#[derive(Clone, Copy, PartialEq, Eq, Debug)]
pub enum Class {
    Letter,
    Digit,
    Underscore,
    Tab,
    Feed,
    Other,
}

// One letter for each, so that the table is read by rows.
const L: Class = Class::Letter;

const D: Class = Class::Digit;

const U: Class = Class::Underscore;

const T: Class = Class::Tab;

const F: Class = Class::Feed;

const O: Class = Class::Other;

// A row for 32 bytes.
static CLASSES: [Class; 256] = [
    O, O, O, O, O, O, O, O, O, T, F, O, O, O, O, O, O, O, O, O, O, O, O, O, O, O, O, O, O, O, O, O,
    O, O, O, O, O, O, O, O, O, O, O, O, O, O, O, O, D, D, D, D, D, D, D, D, D, D, O, O, O, O, O, O,
    O, O, O, O, O, O, O, O, O, O, O, O, O, O, O, O, O, O, O, O, O, O, O, O, O, O, O, O, O, O, O, U,
    O, L, L, L, L, L, L, L, L, L, L, L, L, L, L, L, L, L, L, L, L, L, L, L, L, L, L, O, O, O, O, O,
    O, O, O, O, O, O, O, O, O, O, O, O, O, O, O, O, O, O, O, O, O, O, O, O, O, O, O, O, O, O, O, O,
    O, O, O, O, O, O, O, O, O, O, O, O, O, O, O, O, O, O, O, O, O, O, O, O, O, O, O, O, O, O, O, O,
    O, O, O, O, O, O, O, O, O, O, O, O, O, O, O, O, O, O, O, O, O, O, O, O, O, O, O, O, O, O, O, O,
    O, O, O, O, O, O, O, O, O, O, O, O, O, O, O, O, O, O, O, O, O, O, O, O, O, O, O, O, O, O, O, O,
];

impl From<u8> for Class {
    ghost from_gives = { λ b r. r ≡ class_of b };

    fn from(b: u8) -> Class {
        CLASSES[usize::from(b)]
    }
}

// The class of a byte: `Class::from`, by the name that contracts have for it.
pub fn class_of(b: u8) -> Class
    ensures { result ≡ class_of b }
{
    Class::from(b)
}
