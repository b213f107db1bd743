// A list whose room is taken when it is made.
ghost use Rattle.std.specs.Prelude.{◌≡◌, ◌<◌, ◌≤◌, [], ◌∷◌, ◌++◌, length, replicate, take, IfOk, List};
ghost use Rattle.std.specs.Borrow.{sem};
ghost use Rattle.std.specs.Iterator.{UpTo, Drains};
ghost use Rattle.std.specs.Iterator.Runs.{WholeRun};
ghost use Rattle.std.specs.List.{AllZip};

use std::alloc::{AllocError, Global};
use std::marker::Model;

// At most `N` items, in order. All memory is asked for when the list is made, so no call that puts items in can fail. Not the
// library's `arrayvec`: its items lie in the value itself, and a list of frames is moved about in the objects that hold it.
#[derive(Drop)]
pub struct Store<T, const N: usize> {
    items: Vec<T>,
}

impl<T, const N: usize> Model for Store<T, N> {
    ghost use Rattle.std.specs.Prelude.{◌≤◌, length, vec_capacity, List};

    ghost Value = { List T };

    ghost view = { λ s. s.items.items };

    ghost invariant = { λ s. (N ≤ vec_capacity s.items) × (length s.items.items ≤ N) };
}

impl<T, const N: usize> Store<T, N> {
    ghost use Rattle.store.specs.Lending.{LendsItems};

    // No items, and room for `N`.
    pub fn new(heap: Global) -> Result<Store<T, N>, AllocError>
        ensures { IfOk result (λ s. s ≡ []) }
    {
        let items = Vec::with_capacity(heap, N)?;
        Ok(Store { items })
    }

    // How many items there are.
    pub fn len(&self) -> usize
        ensures is { result ≡ length self.now }
        ensures few { result ≤ N }
    {
        self.items.len()
    }

    // The items, to be read.
    pub fn as_slice(&self) -> &[T]
        ensures is { result.now ≡ self.now }
        ensures few { length result.now ≤ N }
    {
        self.items.as_slice()
    }

    // Takes all items out.
    pub fn clear(&mut self)
    where
        T: Drop,
        ensures { self.new ≡ [] }
    {
        self.items.clear();
    }

    // Puts an item at the end, of any type: it asks for room, where `push_if_room` would let the item go.
    pub fn push(&mut self, item: T)
        requires { length self.old < N }
        ensures { self.new ≡ self.old ++ item ∷ [] }
    {
        Vec::push_reserved(&mut self.items, item);
    }

    // Puts an item at the end where there is room for one more. A full list stays as it is.
    pub fn push_if_room(&mut self, item: T)
    where
        T: Drop,
        ensures room { length self.old < N → self.new ≡ self.old ++ item ∷ [] }
        ensures full { N ≤ length self.old → self.new ≡ self.old }
    {
        if self.len() < N {
            self.items.push_reserved(item);
        }
    }

    // Puts `count` times the same item in place of all items, `N` times where there is room for no more: apart from `refill`,
    // since `resize` promises to succeed within the capacity.
    pub fn refill_with(&mut self, count: usize, item: T)
    where
        T: Copy,
        ensures room { count ≤ N → self.new ≡ replicate count item }
        ensures full { N ≤ count → self.new ≡ replicate N item }
    {
        self.clear();
        // It cannot fail: there is room for `N`.
        let _ = self.items.resize(count.min(N), item);
    }

    // Puts the items that come in place of all items. It asks for room, and for what the iterator asks before it gives its next
    // item. Not by `extend`, which does not promise to succeed where there is room.
    pub fn refill<I: Iterator<Item = T> + Drop>(&mut self, items: I)
    where
        T: Drop,
        requires can { I.can_next items }
        requires few { UpTo (I.remaining items) N }
        ensures ran { (xs : List T) × Drains I.next_gives items xs × (self.new ≡ xs) }
        ensures runs { WholeRun I.next_gives items (λ p. self.new ≡ p.items) }
    {
        self.clear();
        for item in items {
            self.push(item);
        }
    }

    // Puts what is made from the items of a slice in place of all items, from as many as there is room for. From a slice, whose
    // items are there, so that it asks for nothing.
    pub fn refill_from_slice<U: Copy>(&mut self, items: &[U])
    where
        T: From<U> + Drop,
        ensures { AllZip T.from_gives (take N items.now) self.new }
    {
        let some = items.get(..N).unwrap_or(items);
        self.clear();
        for item in some {
            self.push_if_room(T::from(*item));
        }
    }

    // The items, to be written over.
    pub fn as_mut_slice(&mut self) -> &mut [T]
        ensures* writes_back { sem 𝓛 (LendsItems T.row N.row self.entry result) }
        ensures is { result.now ≡ self.old }
        ensures few { length result.now ≤ N }
    {
        self.items.as_mut_slice()
    }
}
