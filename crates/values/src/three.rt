// Three-way values: a bit, or not known which.
ghost use Rattle.std.specs.Prelude.{◌≡◌};
ghost use Rattle.std.proofs.Common.{rules};
ghost use Rattle.values.specs.ThreeLaws.{three_laws};
ghost use Rattle.values.specs.Threes.{threes, three_of, is_one};

use crate::kind::Kind;

// `Zero` and `One` stand for their bit alone, and `U` stands for both bits.
#[derive(Clone, Copy, PartialEq, Eq, Hash, Debug)]
pub enum Three {
    Zero,
    One,
    U,
}

impl Three {
    pub fn is_one(self) -> bool
        ensures { result ≡ is_one self }
    {
        matches!(self, Three::One)
    }
}

impl From<bool> for Three {
    ghost from_gives = { λ bit r. r ≡ three_of bit };

    fn from(bit: bool) -> Three {
        if bit { Three::One } else { Three::Zero }
    }
}

// Whether it is 1 for certain.
impl From<Three> for bool {
    ghost from_gives = { λ value r. r ≡ is_one value };

    fn from(value: Three) -> bool {
        value.is_one()
    }
}

impl Kind for Three {
    ghost algebra = { threes };

    ghost laws = { three_laws };

    ghost from_only = { Prim.search rules };

    ghost eq_decides = { Prim.search rules };

    fn inverse(self) -> Three {
        match self {
            Three::Zero => Three::One,
            Three::One => Three::Zero,
            Three::U => Three::U,
        }
    }

    fn and(self, other: Three) -> Three {
        match (self, other) {
            (Three::Zero, _) | (_, Three::Zero) => Three::Zero,
            (Three::One, Three::One) => Three::One,
            _ => Three::U,
        }
    }

    fn xor(self, other: Three) -> Three {
        match other {
            Three::Zero => self,
            Three::One => self.inverse(),
            Three::U => Three::U,
        }
    }
}
