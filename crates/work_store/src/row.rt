//! A row of places, each of which holds something or nothing.
ghost use Rattle.std.specs.Prelude.{◌≡◌, ◌<◌, ◌≤◌, ℕ, [], length, slice_index_or, None, OnOk};
ghost use Rattle.std.specs.Option.{option_copied};
ghost use Rattle.work_store.specs.Rows.{IsGrown};

use ops_base::memory::OutOfMemory;
use std::alloc::Global;

/// Places, as many as were ever used, and how many slots are held under them.
#[derive(Drop)]
pub(crate) struct Row<T> {
    pub(crate) places: Vec<Option<T>>,
    pub(crate) held: usize,
}

impl<T: Drop> Row<T> {
    /// No places. Takes no memory.
    pub(crate) fn new(alloc: Global) -> Row<T>
        ensures places { result.places.items ≡ [] }
        ensures held { result.held ≡ 0 }
    {
        Row {
            places: Vec::new(alloc),
            held: 0,
        }
    }

    /// What stands at that place.
    pub(crate) fn get(&self, at: usize) -> Option<&T>
        ensures { option_copied result ≡ slice_index_or self.now.places.items at None }
    {
        self.places.get(at)?.as_ref()
    }

    /// Adds empty places until there is one of that number.
    pub(crate) fn reach(&mut self, at: usize) -> Result<(), OutOfMemory>
        ensures grown { IsGrown self.old.places.items self.new.places.items }
        ensures held { self.new.held ≡ self.old.held }
        ensures ok { OnOk result (at < length self.new.places.items) }
        ensures within { (n : ℕ) → length self.old.places.items ≤ n → at < n → length self.new.places.items ≤ n }
    {
        self.places.reserve(at.saturating_sub(self.places.len()))?;
        while self.places.len() <= at {
            self.places.push(None)?;
        }
        Ok(())
    }
}
