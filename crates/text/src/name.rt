// Names: which bytes make one.
ghost use Rattle.std.specs.Prelude.{◌≡◌};
ghost use Rattle.text.specs.Class.{class_of};
ghost use Rattle.text.specs.Name.{in_names, all_in_names, is_name};

use crate::class::{Class, class_of};

// The most bytes that a name has.
pub const LONGEST_NAME: usize = 16;

// Whether a byte is of a class that names have.
fn in_names(b: u8) -> bool
    ensures { result ≡ in_names (class_of b) }
{
    matches!(
        class_of(b),
        Class::Letter | Class::Digit | Class::Underscore
    )
}

// Whether each byte is.
fn all_in_names(s: &[u8]) -> bool
    ensures { result ≡ all_in_names s.now }
{
    s.iter().all(|b| in_names(*b))
}

// Whether the bytes are a name: 1 to 16 letters, digits and underscores.
pub fn is_name(s: &[u8]) -> bool
    ensures { result ≡ is_name s.now }
{
    (1..=LONGEST_NAME).contains(&s.len()) && all_in_names(s)
}
