// Three-way values as bytes: the digit of a bit, or a dash.
ghost use Rattle.std.specs.Prelude.{◌≡◌};
ghost use Rattle.std.specs.Result.{result_ok};
ghost use Rattle.values.specs.Bytes.{byte_of, value_of};

use crate::three::Three;

// A byte that stands for no value.
#[derive(Clone, Copy, PartialEq, Eq, Debug)]
pub struct NoValue;

impl From<Three> for u8 {
    ghost from_gives = { λ value r. r ≡ byte_of value };

    fn from(value: Three) -> u8 {
        match value {
            Three::Zero => b'0',
            Three::One => b'1',
            Three::U => b'-',
        }
    }
}

impl TryFrom<u8> for Three {
    type Error = NoValue;

    ghost try_from_gives = { λ byte r. result_ok r ≡ value_of byte };

    fn try_from(byte: u8) -> Result<Three, NoValue> {
        match byte {
            b'0' => Ok(Three::Zero),
            b'1' => Ok(Three::One),
            b'-' => Ok(Three::U),
            _ => Err(NoValue),
        }
    }
}
