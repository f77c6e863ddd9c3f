//! Tallies that are changed in turns, first with one pass and then with two threads.
ghost use Rattle.std.specs.Prelude.{◌≡◌, ◌<◌, IfOk, length, vec_len, None};
ghost use Rattle.turn_table.specs.Turns.{IsPassOf, IsFirstOf, first_values, number, splits, split_off};

use crate::{Cells, Kept, Pass};
use ops_base::memory::OutOfMemory;
use std::alloc::Global;
use std::sync::Wait;
use std::test::Fail;
use std::thread::{Threads, join};

/// A list of numbers, all of which are entries.
#[derive(Drop)]
struct Tally {
    entries: Vec<u64>,
}

impl Kept for Tally {
    type Entry = u64;

    type Name = ();

    ghost entries = { λ tally. tally.entries.items };

    ghost name = { λ _. tt };

    ghost signature = { λ _. None };

    fn count(&self) -> usize {
        self.entries.len()
    }
}

fn empty_tally(alloc: Global) -> Tally
    ensures { vec_len result.entries ≡ 0 }
{
    Tally {
        entries: Vec::new(alloc),
    }
}

// gives the entry, or gives the cell back unchanged if there is not enough memory for the entry
fn add<R: Wait>(
    rt: &R,
    cells: &Cells<Tally>,
    pass: Pass<Tally>,
    cell: usize,
    entry: u64,
) -> Pass<Tally>
    requires pass { IsPassOf cells.now pass }
    requires cell { cell < length (first_values cells.now) }
    ensures pass { IsPassOf cells.now result }
    ensures counts { (number result ≡ number pass) × (splits result ≡ splits pass) × (split_off result ≡ split_off pass) }
{
    let mut turn = cells.claim(rt, pass, cell);
    match turn.value().entries.push(entry) {
        Ok(()) => cells.give(turn),
        Err(_) => cells.give_back(turn),
    }
}

// gives a hundred entries to the first cell, starting with this one
fn add_hundred<R: Wait>(rt: &R, cells: &Cells<Tally>, pass: Pass<Tally>, from: u64) -> Pass<Tally>
    requires pass { IsPassOf cells.now pass }
    ensures pass { IsPassOf cells.now result }
{
    let mut pass = pass;
    for i in 0..100 {
        pass = add(rt, cells, pass, 0, from.wrapping_add(i));
    }
    pass
}

// two threads give a hundred entries each
fn add_in_two_threads<R: Threads + Wait + Sync>(
    rt: &R,
    cells: &Cells<Tally>,
    one: Pass<Tally>,
    two: Pass<Tally>,
) -> (Pass<Tally>, Pass<Tally>)
    requires { IsPassOf cells.now one × IsPassOf cells.now two }
    ensures { IsPassOf cells.now result.0 × IsPassOf cells.now result.1 }
{
    join(
        rt,
        || -> Pass<Tally>
            requires { IsPassOf cells.now one }
            ensures { IsPassOf cells.entry.now result }
        { add_hundred(rt, cells, one, 0) },
        || -> Pass<Tally>
            requires { IsPassOf cells.now two }
            ensures { IsPassOf cells.entry.now result }
        { add_hundred(rt, cells, two, 1000) },
    )
}

// the tallies after that
fn added_by_two<R: Threads + Wait + Sync>(
    rt: &R,
    alloc: Global,
) -> Result<Vec<Tally>, OutOfMemory> {
    let mut values = Vec::new(alloc);
    values.push(empty_tally(alloc))?;
    let (cells, mut first) = Cells::new(alloc, values)?;
    let one = cells.split(&mut first);
    let two = cells.split(&mut first);
    let (one, two) = add_in_two_threads(rt, &cells, one, two);
    cells.join(&mut first, one);
    cells.join(&mut first, two);
    match cells.close(first) {
        Ok(closed) => Ok(closed.cells),
        Err(_) => Err(OutOfMemory),
    }
}

#[test]
fn one_pass_gives_to_two_cells(rt: HostRuntime) -> Result<(), Fail> {
    let mut values = Vec::new(rt.alloc());
    values.push(empty_tally(rt.alloc()))?;
    values.push(empty_tally(rt.alloc()))?;
    let (cells, pass) = Cells::new(rt.alloc(), values)?;
    let pass = add(&rt, &cells, pass, 0, 5);
    let pass = add(&rt, &cells, pass, 1, 6);
    let turn = cells.claim(&rt, pass, 0);
    let pass = cells.give_back(turn);
    assert_eq!(rt; (pass.number(), pass.split_off()), (0, 0));
    let Ok(closed) = cells.close(pass) else {
        return Err(Fail::from("no memory"));
    };
    assert_eq!(rt; closed.cells.len(), 2);
    assert_eq!(rt; closed.cells[0].entries.as_slice(), [5].as_slice());
    assert_eq!(rt; closed.cells[1].entries.as_slice(), [6].as_slice());
    Ok(())
}

#[test]
fn two_threads_give_a_hundred_entries_each(rt: HostRuntime) -> Result<(), Fail> {
    let cells = added_by_two(&rt, rt.alloc())?;
    assert_eq!(rt; cells.len(), 1);
    assert_eq!(rt; cells[0].entries.len(), 200);
    let (mut low, mut high) = (0, 1000);
    for entry in &cells[0].entries {
        if *entry < 1000 {
            assert_eq!(rt; *entry, low);
            low = low.wrapping_add(1);
        } else {
            assert_eq!(rt; *entry, high);
            high = high.wrapping_add(1);
        }
    }
    assert_eq!(rt; (low, high), (100, 1100));
    Ok(())
}

#[test]
fn passes_are_numbered_as_they_are_split(rt: HostRuntime) -> Result<(), Fail> {
    let mut values = Vec::new(rt.alloc());
    values.push(empty_tally(rt.alloc()))?;
    let (cells, mut first) = Cells::new(rt.alloc(), values)?;
    let one = cells.split(&mut first);
    let two = cells.split(&mut first);
    assert_eq!(rt; (one.number(), two.number(), first.split_off()), (1, 2, 2));
    cells.join(&mut first, one);
    assert_eq!(rt; (first.number(), first.split_off()), (0, 1));
    Ok(())
}
