// A number below 100 in decimal digits.
ghost use Rattle.std.specs.Prelude.{◌≡◌};
ghost use Rattle.trace.specs.Texts.{digits_of};

// By hand: the library prints a number to a writer of text, and its crate for digits would be one more to trust with a text
// of two bytes.
#[derive(Drop)]
pub(crate) struct Decimal {
    pub(crate) n: u32,
    pub(crate) digits: [u8; 2],
    ghost are: { digits ≡ digits_of n },
}
