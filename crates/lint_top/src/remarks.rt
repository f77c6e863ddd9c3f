//! The warnings of a program, in the order of their places.
ghost use Rattle.std.specs.Prelude.{◌≡◌, ◌≤◌, ◌++◌, map, take, drop, length, IfOk, OnOk};
ghost use Rattle.lint_top.specs.Remarks.{at_of, up_to, beyond, merged, of_program, remarks};

use lint_rules::{Warning, word_slips};
use ops_base::memory::OutOfMemory;
use ops_base::programs::Program;
use program_slips::{Ask, Named, Twin, lacking, lone, twins};
use std::alloc::Global;

/// How many warnings are reported at most.
pub const MOST_WARNINGS: usize = 100;

/// A warning: about a word; about something that a condition asks for in vain; about a production that has the same
/// conditions as an earlier one; or about an unused variable.
#[derive(Clone, Copy, Debug, PartialEq, Eq)]
pub enum Remark {
    Word(Warning),
    Asked(Ask),
    Twin(Twin),
    Lone(Named),
}

/// The byte at which it is.
pub(crate) fn at_of(remark: Remark) -> usize
    ensures { result ≡ at_of remark }
{
    match remark {
        Remark::Word(word) => word.first,
        Remark::Asked(ask) => ask.at,
        Remark::Twin(twin) => twin.at,
        Remark::Lone(named) => named.first,
    }
}

/// Adds the warnings from an index of the list on that are at this byte or before it, and returns the index after
/// them.
fn add_up_to(
    remarks: &mut Vec<Remark>,
    list: &[Remark],
    from: usize,
    at: usize,
) -> Result<usize, OutOfMemory>
    requires { from ≤ length list.now }
    ensures added { OnOk result (remarks.new.items ≡ remarks.old.items ++ up_to at (drop from list.now)) }
    ensures rest { IfOk result (λ next. drop next list.now ≡ beyond at (drop from list.now)) }
    ensures within { IfOk result (λ next. next ≤ length list.now) }
{
    let mut next = from;
    'next: while next < list.len() {
        let remark = list[next];
        if at < at_of(remark) {
            return Ok(next);
        }
        remarks.push(remark)?;
        next += 1;
    }
    Ok(next)
}

/// Merges two sorted lists into one sorted list.
fn merge(alloc: Global, list: &[Remark], other: &[Remark]) -> Result<Vec<Remark>, OutOfMemory>
    ensures { IfOk result (λ v. v.items ≡ merged list.now other.now) }
{
    let mut remarks = Vec::new(alloc);
    let mut from = 0;
    for each in other {
        from = add_up_to(&mut remarks, list, from, at_of(*each))?;
        remarks.push(*each)?;
    }
    remarks.extend_from_slice(&list[from..])?;
    Ok(remarks)
}

fn of_words(alloc: Global, words: &[Warning]) -> Result<Vec<Remark>, OutOfMemory>
    ensures { IfOk result (λ v. v.items ≡ map Remark.Word words.now) }
{
    let mut remarks = Vec::new(alloc);
    for word in words {
        remarks.push(Remark::Word(*word))?;
    }
    Ok(remarks)
}

fn of_asks(alloc: Global, asks: &[Ask]) -> Result<Vec<Remark>, OutOfMemory>
    ensures { IfOk result (λ v. v.items ≡ map Remark.Asked asks.now) }
{
    let mut remarks = Vec::new(alloc);
    for ask in asks {
        remarks.push(Remark::Asked(*ask))?;
    }
    Ok(remarks)
}

fn of_twins(alloc: Global, twins: &[Twin]) -> Result<Vec<Remark>, OutOfMemory>
    ensures { IfOk result (λ v. v.items ≡ map Remark.Twin twins.now) }
{
    let mut remarks = Vec::new(alloc);
    for twin in twins {
        remarks.push(Remark::Twin(*twin))?;
    }
    Ok(remarks)
}

fn of_lone(alloc: Global, named: &[Named]) -> Result<Vec<Remark>, OutOfMemory>
    ensures { IfOk result (λ v. v.items ≡ map Remark.Lone named.now) }
{
    let mut remarks = Vec::new(alloc);
    for each in named {
        remarks.push(Remark::Lone(*each))?;
    }
    Ok(remarks)
}

/// The warnings of the productions of a program.
fn of_program(alloc: Global, program: &Program) -> Result<Vec<Remark>, OutOfMemory>
    ensures { IfOk result (λ v. v.items ≡ of_program program.now.text program.now.classes program.now.rules program.now.templates program.now.commands) }
{
    let twins = of_twins(alloc, &twins(alloc, program)?)?;
    let asks = of_asks(alloc, &lacking(alloc, program)?)?;
    let lone = of_lone(alloc, &lone(alloc, program)?)?;
    let conditions = merge(alloc, &twins, &asks)?;
    merge(alloc, &conditions, &lone)
}

/// The first warnings of a program, in text order.
pub(crate) fn remarks_of(alloc: Global, program: &Program) -> Result<Vec<Remark>, OutOfMemory>
    ensures { IfOk result (λ v. v.items ≡ remarks program.now.text program.now.classes program.now.rules program.now.templates program.now.commands) }
{
    let found = of_program(alloc, program)?;
    let words = word_slips(alloc, program.text.as_slice(), MOST_WARNINGS)?;
    let words = of_words(alloc, &words)?;
    let mut remarks = merge(alloc, &found, &words)?;
    remarks.truncate(MOST_WARNINGS);
    Ok(remarks)
}
