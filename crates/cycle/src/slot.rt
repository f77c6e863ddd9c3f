//! A place on the heap for a value that is taken out and put back.
ghost use Rattle.std.specs.Prelude.{◌≡◌, IsSome, IfOk};

use ops_base::memory::OutOfMemory;
use std::alloc::Global;
use std::marker::Model;

/// A value on the heap. It can be taken out, and another value can be put into the same place without an allocation.
#[derive(Drop)]
pub(crate) struct Slot<T: Drop> {
    place: Box<Option<T>>,
    ghost full: { IsSome place.value },
}

impl<T: Drop> Model for Slot<T> {
    ghost use Rattle.cycle.specs.Slots.{value_of};

    ghost Value = { T };

    ghost view = { λ s. value_of s.place.value s.full };
}

/// The place of a value that was taken out.
#[derive(Drop)]
pub(crate) struct Vacated<T: Drop> {
    place: Box<Option<T>>,
}

impl<T: Drop> Slot<T> {
    /// Allocates the place.
    pub(crate) fn new(alloc: Global, value: T) -> Result<Slot<T>, OutOfMemory>
        ensures { IfOk result (λ s. s ≡ value) }
    {
        let place = Box::new(alloc, Some(value))?;
        Ok(Slot { place })
    }

    pub(crate) fn get(&self) -> &T
        ensures { result.now ≡ self.now }
    {
        match self.place.as_ref() {
            Some(value) => value,
            None => unreachable!(),
        }
    }

    /// The value, and its place, which is kept for the next value.
    pub(crate) fn take(self) -> (T, Vacated<T>)
        ensures { result.0 ≡ self }
    {
        let Slot { place } = self;
        let mut place = place;
        match place.as_mut().take() {
            Some(value) => (value, Vacated { place }),
            None => unreachable!(),
        }
    }
}

impl<T: Drop> Vacated<T> {
    /// Puts a value into this place. Allocates nothing.
    pub(crate) fn fill(self, value: T) -> Slot<T>
        ensures { result ≡ value }
    {
        let mut place = self.place;
        *place.as_mut() = Some(value);
        Slot { place }
    }
}
