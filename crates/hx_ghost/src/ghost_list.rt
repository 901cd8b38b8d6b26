ghost use Rattle.std.specs.Prelude.{◌≡◌, List, [], ◌++◌};
ghost use Rattle.std.specs.Borrow.{ftrue};

use std::marker::{Model, PhantomData};

/// A value that says which items a ghost list is to be extended by.
///
/// It is only looked at in proofs, so it may borrow all that it speaks of: a slice lists its elements, and a disk's call
/// could be an enum that borrows the bytes of a write, and lists one item.
pub trait Lists<T> {
    /// The items, in order.
    ghost listed: { Self → List T };
}

impl<T> Lists<T> for &[T] {
    ghost listed = { λ slice. slice.now };
}

/// A list that no memory holds: it has no size, and only clauses read it.
///
/// Its items are of the type that contracts see a `T` as. So `T` may be a type that is never made, whose `Model` names some
/// data of `specs/`.
#[derive(Drop)]
pub struct GhostList<T> {
    of: PhantomData<T>,
    pub ghost items: { List T },
}

const _: () = prove!(size_of::<GhostList<u8>>() == 0);

impl<T> Model for GhostList<T> {
    ghost also_owns = { λ _. ftrue };
}

// No memory and no thread is behind it.
unsafe impl<T: Send> Send for GhostList<T> {}

impl<T> GhostList<T> {
    /// An empty list.
    pub fn new() -> GhostList<T>
        ensures { result.items ≡ [] }
    {
        GhostList { of: PhantomData }
    }

    /// Adds these items at its end. Nothing is done when the program runs.
    pub fn extend<A: Lists<T>>(&mut self, _by: &A)
        ensures { self.new.items ≡ self.old.items ++ A.listed _by.now }
    {}
}
