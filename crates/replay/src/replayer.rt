// A replayer, with room for any circuit and any trace.
use store::Store;
use trace::recording::{MOST_CELLS, Recording};
use values::Three;

// Room for a value of each net in each frame.
pub(crate) type Cells<K> = Store<K, MOST_CELLS>;

// `threes` and `bits` are room to work out frames in.
#[derive(Drop)]
pub struct Replayer {
    pub(crate) recording: Recording,
    pub(crate) threes: Cells<Three>,
    pub(crate) bits: Cells<bool>,
}
