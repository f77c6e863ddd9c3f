//! Rows of numbers, each at an index.
ghost use Rattle.std.specs.Prelude.{◌≡◌, ◌<◌, ℕ, [], OnOk, length};
ghost use Rattle.net_base.specs.Rows.{AddsTo, row_at};

use ops_base::memory::OutOfMemory;
use std::alloc::Global;

/// A row for each index, empty if nothing was added to it. There is room for a row for each index up to the greatest
/// that something was added to.
#[derive(Drop)]
pub(crate) struct Rows {
    rows: Vec<Vec<usize>>,
}

impl Rows {
    /// No rows. Takes no memory.
    pub(crate) fn new(alloc: Global) -> Rows
        ensures { (number : ℕ) → row_at result number ≡ [] }
    {
        Rows {
            rows: Vec::new(alloc),
        }
    }

    /// The row with this index. It is read directly, without a lookup.
    pub(crate) fn at(&self, number: usize) -> &[usize]
        ensures { result.now ≡ row_at self.now number }
    {
        match self.rows.get(number) {
            Some(row) => row.as_slice(),
            None => &[],
        }
    }

    /// Makes room for the row with this index.
    fn widen(&mut self, alloc: Global, number: usize) -> Result<(), OutOfMemory>
        ensures room { OnOk result (number < length self.new.rows.items) }
        ensures rows { OnOk result ((other : ℕ) → row_at self.new other ≡ row_at self.old other) }
    {
        while self.rows.len() <= number {
            self.rows.push(Vec::new(alloc))?;
        }
        Ok(())
    }

    /// Appends a number to the row with this index.
    pub(crate) fn add(
        &mut self,
        alloc: Global,
        number: usize,
        item: usize,
    ) -> Result<(), OutOfMemory>
        ensures { OnOk result (AddsTo self.old self.new number item) }
    {
        self.widen(alloc, number)?;
        self.rows[number].push(item)?;
        Ok(())
    }
}
