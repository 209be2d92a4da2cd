//! Lists that only clauses read. They take no memory, and what is noted in them costs nothing at
//! run time.

ghost use Rattle.std.specs.Prelude.{◌≡◌, List, [], ◌++◌};
ghost use Rattle.std.specs.Borrow.{ftrue};

use std::marker::{Model, PhantomData};

/// A list, of which nothing is there at run time. It is what its owner noted in it, and tells no
/// more than that.
#[derive(Drop)]
pub struct Trace<T> {
    of: PhantomData<T>,
    pub ghost items: { List T },
}

impl<T> Model for Trace<T> {
    ghost also_owns = { λ _. ftrue };
}

// It owns nothing.
unsafe impl<T> Send for Trace<T> {}

/// Which items a value stands for.
pub trait Noted<T> {
    ghost noted: { Self → List T };
}

#[derive(Clone, Copy)]
struct Items<'a, T> {
    items: &'a [T],
}

impl<T> Noted<T> for Items<'_, T> {
    ghost noted = { λ x. x.items.now };
}

impl<T> Trace<T> {
    pub fn new() -> Trace<T>
        ensures { result.items ≡ [] }
    {
        Trace { of: PhantomData }
    }

    /// Adds the items at the end.
    #[inline(always)]
    pub fn note(&mut self, items: &[T])
        ensures { self.new.items ≡ self.old.items ++ items.now }
    {
        self.note_as(&Items { items });
    }

    /// Adds the items that the value stands for.
    #[inline(always)]
    pub fn note_as<N: Noted<T>>(&mut self, _value: &N)
        ensures { self.new.items ≡ self.old.items ++ N.noted _value.now }
    {}
}
