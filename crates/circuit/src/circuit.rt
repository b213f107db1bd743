// A circuit of at most 256 nets: gates come after their operands, and every latch's next is a net.
ghost use Rattle.std.specs.Prelude.{◌≡◌, ◌≤◌, length};
ghost use Rattle.circuit.specs.Runs.{WellFormed};

use crate::listing::Listing;
use crate::nets::NetKind;
use crate::parts::MOST_NETS;
use store::Store;

// The nets of a circuit, by their numbers.
pub(crate) type Nets = Store<NetKind, MOST_NETS>;

// The nets, and where each has its name in the text that they were read from: two lists, since `nets()` lends the kinds alone
// as one slice.
#[derive(Drop)]
pub struct Circuit {
    pub(crate) nets: Nets,
    pub(crate) listing: Listing,
    ghost few: { length nets ≤ 256 },
    ghost formed: { WellFormed nets },
    ghost named: { length listing.entries ≡ length nets },
}
