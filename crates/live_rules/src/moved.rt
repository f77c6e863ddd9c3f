//! The new numbers of productions.
ghost use Rattle.std.specs.Prelude.{◌≡◌, ◌↔◌, IfOk, IsTrue, MatchOption, length, option_and_then};
ghost use Rattle.ops_base.specs.Live.{moved};
ghost use Rattle.ops_meaning.specs.Running.{place_beside};
ghost use Rattle.live_rules.specs.Moves.{place_of, places_moved, places_moved_any, unmoved};

use crate::live::rule_named;
use ops_base::memory::OutOfMemory;
use ops_base::programs::Program;
use ops_base::rules::Rule;
use std::alloc::Global;
use std::marker::Model;

/// The current numbers of productions that had other numbers when a matcher was made for them.
#[derive(Drop)]
pub struct Moved {
    places: Vec<Option<usize>>,
}

impl Model for Moved {
    ghost use Rattle.live_rules.specs.Moves.{Places};

    ghost Value = { Places };

    ghost view = { λ m. m.places.items };
}

/// The current number of the production that had this one, after the production with the number `gone` is removed.
fn place_moved(gone: usize, place: Option<usize>) -> Option<usize>
    ensures { result ≡ option_and_then (moved gone) place }
{
    let number = place?;
    if number < gone {
        Some(number)
    } else if number == gone {
        None
    } else {
        Some(number - 1)
    }
}

/// The number of a production after this one is added to these, if it had a number, or `None` if it is removed because it
/// has the same name.
pub fn place_beside(rules: &[Rule], rule: &Rule, place: Option<usize>) -> Option<usize>
    ensures { result ≡ place_beside rules.now rule.now place }
{
    match rule_named(rules, rule.name) {
        Some(gone) => place_moved(gone, place),
        None => place,
    }
}

fn move_places(gone: usize, places: &mut [Option<usize>])
    ensures { places.new ≡ places_moved gone places.old }
{
    for place in places.iter_mut() {
        *place = place_moved(gone, *place);
    }
}

fn is_at(place: Option<usize>, number: usize) -> bool
    ensures { IsTrue result ↔ (place ≡ Some number) }
{
    match place {
        Some(there) => there == number,
        None => false,
    }
}

/// Whether each production has its old number. Looks at the places up to the first that differs.
fn are_unmoved(places: &[Option<usize>]) -> bool
    ensures { IsTrue result ↔ (places.now ≡ unmoved (length places.now)) }
{
    for number in 0..places.len() {
        if !is_at(places[number], number) {
            return false;
        }
    }
    true
}

impl Moved {
    /// Each production of the program has its old number.
    pub fn nothing(alloc: Global, program: &Program) -> Result<Moved, OutOfMemory>
        ensures { IfOk result (λ m. m ≡ unmoved (length program.now.rules)) }
    {
        let mut places = Vec::with_capacity(alloc, program.rules.len())?;
        for number in 0..program.rules.len() {
            places.push(Some(number))?;
        }
        Ok(Moved { places })
    }

    /// The current number of the production that had this one, or `None` if it is gone. Allocates nothing.
    pub fn place(&self, number: usize) -> Option<usize>
        ensures { result ≡ place_of self.now number }
    {
        self.places.get(number).copied().flatten()
    }

    /// The number of productions that there were, if none of them was removed, so that each has its old number. Scans
    /// them up to the first that has another one.
    pub(crate) fn unmoved(&self) -> Option<usize>
        ensures { MatchOption result (¬ (self.now ≡ unmoved (length self.now))) (λ n. self.now ≡ unmoved n) }
    {
        if are_unmoved(self.places.as_slice()) {
            Some(self.places.len())
        } else {
            None
        }
    }

    /// Records that the production that now has this number, if there is one, is removed. Scans all productions.
    pub(crate) fn take_out_any(&mut self, number: Option<usize>)
        ensures { self.new ≡ places_moved_any number self.old }
    {
        if let Some(number) = number {
            move_places(number, self.places.as_mut_slice());
        }
    }
}
