//! Which actions contain `accept`.
ghost use Rattle.std.specs.Prelude.{◌≡◌, false};
ghost use Rattle.std.specs.List.{list_any};
ghost use Rattle.ops_meaning.specs.Acting.{actions_of};
ghost use Rattle.act_phase.specs.Asking.{term_asks, put_asks, item_asks, action_asks, action_changes, asks_after};

use crate::right_side::actions_of;
use ops_base::actions::{Action, Item, Put, Term};
use ops_base::programs::Program;

fn term_asks(term: &Term) -> bool
    ensures { result ≡ term_asks term.now }
{
    matches!(term, Term::Accept)
}

fn put_asks(put: &Put) -> bool
    ensures { result ≡ put_asks put.now }
{
    put.terms.as_slice().iter().any(|term| term_asks(term))
}

fn item_asks(item: &Item) -> bool
    ensures { result ≡ item_asks item.now }
{
    match item {
        Item::Print(term) => term_asks(term),
        Item::Crlf | Item::TabTo(_) | Item::RightIn(_) => false,
    }
}

fn any_put_asks(puts: &[Put]) -> bool
    ensures { result ≡ list_any put_asks puts.now }
{
    puts.iter().any(|put| put_asks(put))
}

fn any_item_asks(items: &[Item]) -> bool
    ensures { result ≡ list_any item_asks items.now }
{
    items.iter().any(|item| item_asks(item))
}

/// Whether an action contains `accept`.
pub fn asks(action: &Action) -> bool
    ensures { result ≡ action_asks action.now }
{
    match action {
        Action::Make { puts, .. } | Action::Modify { puts, .. } => any_put_asks(puts.as_slice()),
        Action::Write { items } => any_item_asks(items.as_slice()),
        Action::Bind { term, .. } => term_asks(term),
        Action::Remove { .. } | Action::Cbind { .. } | Action::Halt | Action::Build { .. } => false,
    }
}

/// Whether an action may change working memory.
fn may_change(action: &Action) -> bool
    ensures { result ≡ action_changes action.now }
{
    matches!(
        action,
        Action::Make { .. } | Action::Modify { .. } | Action::Remove { .. }
    )
}

/// Whether, in the right side of a production, an action that contains `accept` comes after one that may change working
/// memory. Examines each term at most once.
pub fn asks_after_change(program: &Program, rule: usize) -> bool
    ensures { result ≡ asks_after false (actions_of program.now.rules rule) }
{
    let mut changed = false;
    for action in actions_of(program, rule) {
        if changed && asks(action) {
            return true;
        }
        changed = changed || may_change(action);
    }
    false
}
