//! What a join puts out for a task, over the tokens of its line.
ghost use Rattle.std.specs.Prelude.{◌≡◌, ◌++◌, OnOk, ◌≤◌, vec_capacity};
ghost use Rattle.std.specs.Option.{option_copied};
ghost use Rattle.work_store.specs.Stored.{held_of};
ghost use Rattle.token_line.specs.inner.Codes.{pairs_of};
ghost use Rattle.activation.specs.inner.Children.{Grows, children_of, targets_of};
ghost use Rattle.activation.specs.inner.Putting.{changes, put_for, put_for_left, put_for_right};

use crate::children::{Below, push_if};
use net_base::nodes::JoinTest;
use net_base::tasks::{Side, Task};
use ops_base::memory::OutOfMemory;
use std::alloc::Global;
use token_line::{Tokens, joins, joins_element, tag_at};
use work_store::Store;

/// Whether one more insert or delete changes the effective count of a token with this sum. A delete that comes before
/// its insert does not, and neither does that insert.
pub(crate) fn changes(sum: i64, plus: bool) -> bool
    ensures { result ≡ changes sum plus }
{
    if plus { sum >= 0 } else { sum > 0 }
}

/// The tasks that a join creates for one more or one less left token: it examines each right token.
fn give_for_left(
    alloc: Global,
    store: &Store,
    tests: &[JoinTest],
    token: &[u64],
    right: &Tokens,
    below: Below,
    out: &mut Vec<Task>,
) -> Result<(), OutOfMemory>
    ensures ok { OnOk result (out.new.items ≡ out.old.items ++ children_of (targets_of below.entry.children.now below.entry.rights.now) below.entry.plus (put_for_left tests.now (held_of store.now) token.now right.now)) }
    ensures grown { Grows out.old.items out.new.items }
    ensures capacity { vec_capacity out.old ≤ vec_capacity out.new }
{
    for place in 0..right.len() {
        let (other, cell) = right.pair(place);
        let tag = tag_at(other, 0);
        let holds = joins(store, tests, token, tag);
        push_if(alloc, holds, below, token, Some(tag), cell, out)?;
    }
    Ok(())
}

/// The tasks that a join creates for one more or one less right token: it looks up its element and examines each left
/// token.
fn give_for_right(
    alloc: Global,
    store: &Store,
    tests: &[JoinTest],
    tag: u64,
    left: &Tokens,
    below: Below,
    out: &mut Vec<Task>,
) -> Result<(), OutOfMemory>
    ensures ok { OnOk result (out.new.items ≡ out.old.items ++ children_of (targets_of below.entry.children.now below.entry.rights.now) below.entry.plus (put_for_right tests.now (held_of store.now) tag left.now)) }
    ensures grown { Grows out.old.items out.new.items }
    ensures capacity { vec_capacity out.old ≤ vec_capacity out.new }
{
    let element = store.kept(tag);
    for place in 0..left.len() {
        let (token, cell) = left.pair(place);
        let holds = joins_element(store, tests, token, element);
        push_if(alloc, holds, below, token, Some(tag), cell, out)?;
    }
    Ok(())
}

/// The tasks that a join creates for a task that changes the effective count of its token, given the tokens of the
/// other side. If memory runs out, some may have been added.
pub(crate) fn give_by_join(
    alloc: Global,
    store: &Store,
    tests: &[JoinTest],
    partners: Option<&Tokens>,
    task: &Task,
    below: Below,
    out: &mut Vec<Task>,
) -> Result<(), OutOfMemory>
    ensures ok { OnOk result (out.new.items ≡ out.old.items ++ children_of (targets_of below.entry.children.now below.entry.rights.now) below.entry.plus (put_for tests.now (held_of store.now) (pairs_of (option_copied partners.entry)) task.now.side task.now.token)) }
    ensures grown { Grows out.old.items out.new.items }
    ensures capacity { vec_capacity out.old ≤ vec_capacity out.new }
{
    let Some(partners) = partners else {
        return Ok(());
    };
    match task.side {
        Side::Left => give_for_left(
            alloc,
            store,
            tests,
            task.token.as_slice(),
            partners,
            below,
            out,
        ),
        Side::Right => {
            let tag = tag_at(task.token.as_slice(), 0);
            give_for_right(alloc, store, tests, tag, partners, below, out)
        }
    }
}
