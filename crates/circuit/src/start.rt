// What a latch's line says of frame 0.
ghost use Rattle.std.specs.Prelude.{◌≡◌};
ghost use Rattle.std.specs.Option.{ok_or};
ghost use Rattle.circuit.specs.declared.fault.Refusal.TheVariants.{BadStart};
ghost use Rattle.circuit.specs.Judge.{start_of};

use crate::fault::Refusal;
use crate::nets::Start;
use crate::record::letter;

// 0 and 1 are bits, and - is either of them.
impl TryFrom<&[u8]> for Start {
    type Error = Refusal;

    ghost try_from_gives = { λ s r. r ≡ ok_or (start_of s.now) BadStart };

    fn try_from(field: &[u8]) -> Result<Start, Refusal> {
        match letter(field) {
            Some('0') => Ok(Start::Zero),
            Some('1') => Ok(Start::One),
            Some('-') => Ok(Start::Free),
            _ => Err(Refusal::BadStart),
        }
    }
}
