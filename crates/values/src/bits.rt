// A bit as a kind of values: it stands for itself alone.
ghost use Rattle.std.proofs.Common.{rules};
ghost use Rattle.values.specs.Bits.{bits, bit_laws};

use crate::kind::Kind;

impl Kind for bool {
    ghost algebra = { bits };

    ghost laws = { bit_laws };

    ghost from_only = { Prim.search rules };

    ghost eq_decides = { Prim.search rules };

    fn inverse(self) -> bool {
        !self
    }

    fn and(self, other: bool) -> bool {
        self & other
    }

    fn xor(self, other: bool) -> bool {
        self ^ other
    }
}
