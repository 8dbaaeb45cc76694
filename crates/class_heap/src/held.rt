// A value in memory of its own, owned by a raw pointer. Its four functions and the law of sharing are proved by hand.
ghost use Rattle.std.specs.Prelude.{◌≡◌};
ghost use Rattle.std.specs.Borrow.{sem};
ghost use denote.Struct.Lending.{lent_at};
ghost use Rattle.std.specs.Box.Ownership.{box_owns};

use std::alloc::Allocator;
use std::marker::Model;

/// Owns a value by a raw pointer, and the allocator that its block goes back to.
pub(crate) struct Held<T, A: Allocator> {
    pub(crate) at: *mut T,
    pub(crate) alloc: A,
    pub(crate) ghost value: { T },
}

impl<T, A: Allocator> Model for Held<T, A> {
    ghost also_owns = { λ h. box_owns (A.dealloc_token h.alloc) T.row h.at h.value };

    ghost also_shares = { λ h _ κ. lent_at T.row h.at h.value κ };
}

impl<T: Drop, A: Allocator> Held<T, A> {
    /// Takes a box apart, and owns its value.
    pub(crate) fn of(value: Box<T, A>) -> Held<T, A>
        ensures { result.value ≡ value.value }
    {
        let (at, alloc) = Box::into_raw_with_allocator(value);
        Held { at, alloc }
    }

    /// The box again.
    pub(crate) fn into_box(self) -> Box<T, A>
        ensures { result.value ≡ self.value }
    {
        let Held { at, alloc } = self;
        unsafe { Box::from_raw(alloc, at) }
    }
}

impl<T, A: Allocator> Held<T, A> {
    ghost use Rattle.class_heap.specs.Follows.{held_follows};

    /// The value.
    pub(crate) fn get(&self) -> &T
        ensures { result.now ≡ self.now.value }
    {
        unsafe { &*self.at }
    }

    /// The value, to be changed.
    pub(crate) fn get_mut(&mut self) -> &mut T
        ensures* writes_back { sem 𝓛 (held_follows T.row A.row A.Allocator self.entry result) }
        ensures value { result.now ≡ self.old.value }
    {
        unsafe { &mut *self.at }
    }
}
