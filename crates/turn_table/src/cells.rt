//! The cells, and the rule that they keep.
ghost use Rattle.std.specs.Prelude.{◌≡◌, ◌<◌, length};

use crate::kept::Kept;
use crate::views::View;
use atomic_table::{Table, TableRule};
use std::alloc::Global;
use std::marker::PhantomData;
use std::snapshot::Snapshot;

/// The rule of the cells, in the form in which the underlying table knows it.
pub struct LogRule<T> {
    marker: PhantomData<T>,
}

impl<T: Kept> TableRule<Option<T>, View<T, T::Entry>, Snapshot<Vec<T>>> for LogRule<T> {
    ghost use Rattle.turn_table.specs.Rule.{Keeps};
    ghost use Rattle.turn_table.specs.Views.{opened};

    ghost holds = { λ first. Keeps T.entries T.name T.signature first.value.items };

    ghost first = { λ first. opened first.value.items };
}

/// Values that threads change one at a time, in turns. Any number of threads may share them by reference, each with a
/// pass of its own.
#[derive(Drop)]
pub struct Cells<T: Kept> {
    // A cell has a word and a slot. The word is twice the number of entries, plus one while a pass holds the cell.
    pub(crate) table: Table<Option<T>, View<T, T::Entry>, Snapshot<Vec<T>>, LogRule<T>, Global>,
    pub(crate) alloc: Global,
    ghost words: { table.shared.table_id.words ≡ length table.shared.key.value.items },
    ghost slots: { table.shared.table_id.slots ≡ length table.shared.key.value.items },
    ghost some: { 0 < length table.shared.key.value.items },
}
