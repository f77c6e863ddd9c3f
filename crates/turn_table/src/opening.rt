//! How cells are made.
ghost use Rattle.std.specs.Prelude.{◌≡◌, ℕ, ◌*◌, ◌^◌, ◌<◌, map, length, slice_index, vec_len, Some, None, IfOk};
ghost use Rattle.std.specs.List.{All};
ghost use Rattle.turn_table.specs.Log.{IsAt};
ghost use Rattle.turn_table.specs.Views.{opened};
ghost use Rattle.turn_table.specs.Turns.{IsFirstOf, first_values, knows, splits, split_off};

use crate::cells::Cells;
use crate::kept::Kept;
use crate::passes::{Counts, Pass};
use atomic_table::Table;
use ops_base::memory::OutOfMemory;
use std::alloc::Global;
use std::snapshot::Snapshot;

// The first word of each cell.
fn words_of<T: Kept>(alloc: Global, values: &Vec<T>) -> Result<Vec<u64>, OutOfMemory>
    requires { All (λ value. length (T.entries value) < 2 ^ 63) values.now.items }
    ensures len { IfOk result (λ words. vec_len words ≡ vec_len values.now) }
    ensures each { IfOk result (λ words. (cell : ℕ) (value : T) → IsAt values.now.items cell value → slice_index words.items cell ≡ 2 * length (T.entries value)) }
{
    let mut words = Vec::new(alloc);
    for value in values {
        words.push(2 * value.count() as u64)?;
    }
    Ok(words)
}

// The first slot of each cell.
fn slots_of<T: Kept>(alloc: Global, values: Vec<T>) -> Result<Vec<Option<T>>, OutOfMemory>
    ensures { IfOk result (λ slots. slots.items ≡ map Some values.items) }
{
    let slots = values.into_iter().map(|value| Some(value)).collect(alloc)?;
    Ok(slots)
}

impl<T: Kept> Cells<T> {
    /// Cells with these values, and the first pass. If memory runs out, the values are dropped.
    pub fn new(alloc: Global, values: Vec<T>) -> Result<(Cells<T>, Pass<T>), OutOfMemory>
        requires some { 0 < vec_len values }
        requires unsigned { All (λ value. All (λ entry. T.signature entry ≡ None) (T.entries value)) values.items }
        requires room { All (λ value. length (T.entries value) < 2 ^ 63) values.items }
        ensures cells { IfOk result (λ made. first_values made.0 ≡ values.items) }
        ensures first { IfOk result (λ made. IsFirstOf made.0 made.1) }
        ensures knows { IfOk result (λ made. knows made.1 ≡ opened values.items) }
        ensures none_split { IfOk result (λ made. (splits made.1 ≡ 0) × (split_off made.1 ≡ 0)) }
    {
        let first = Snapshot::of(&values);
        let words = words_of(alloc, &values)?;
        let slots = slots_of(alloc, values)?;
        let Ok((table, seat)) = Table::new(alloc, words.as_slice(), slots, &first) else {
            return Err(OutOfMemory);
        };
        let counts = Counts {
            number: 0,
            splits: 0,
            apart: 0,
        };
        Ok((Cells { table, alloc }, Pass { seat, counts }))
    }
}
