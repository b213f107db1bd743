// What every kind of values can do.
ghost use Rattle.std.specs.Prelude.{◌≡◌, Bool, Decides};
ghost use Rattle.values.specs.Laws.{Algebra, Laws};

// A value of a kind stands for a set of bits that is never empty: the bits that a net may have. What is made from a bit stands
// for that bit alone.
pub trait Kind: Copy + PartialEq + From<bool> {
    // the bits that a value stands for, and what the calls answer
    ghost algebra: { Algebra Self };

    // Each answer stands for exactly the bits that bits of the operands give.
    ghost laws: { Laws algebra };

    fn inverse(self) -> Self
        ensures { result ≡ algebra.opposite self };

    fn and(self, other: Self) -> Self
        ensures { result ≡ algebra.both self other };

    fn xor(self, other: Self) -> Self
        ensures { result ≡ algebra.unlike self other };

    // `from` gives what stands for its bit alone.
    ghost from_only: { (bit : Bool) (v : Self) → Self.from_gives bit v → v ≡ algebra.only bit };

    // `==` tells whether two values are the same one.
    ghost eq_decides: { (v w : Self) → Decides (Self.eq v w) (v ≡ w) };
}
