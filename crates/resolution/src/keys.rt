//! The key of an instantiation.
ghost use Rattle.std.specs.Prelude.{◌≡◌, ◌+◌, ◌<◌, ◌≤◌, ◌++◌, length, IfOk, OnOk, unwrap_or, slice_get, vec_len, vec_capacity};
ghost use Rattle.ops_base.specs.Dominance.{downwards, specificity_of};
ghost use Rattle.resolution.specs.Keys.{IsKey, back_half, front_half, key_from, top_of};

use ops_base::commands::Strategy;
use ops_base::memory::OutOfMemory;
use ops_base::programs::Program;
use ops_base::rules::Inst;
use std::alloc::Global;
use std::marker::Model;

/// What decides between instantiations, made beforehand so that comparing takes no memory and sorts nothing.
#[derive(Debug, Drop)]
pub struct Key {
    /// The tags from the greatest down, and after them the same tags in the order of the conditions: one list takes
    /// memory once.
    pub(crate) numbers: Vec<u64>,
    /// The number of the production, from 0 in the order of the text.
    pub(crate) rule: usize,
    pub(crate) specificity: u32,
}

impl Model for Key {
    ghost use Rattle.resolution.specs.Keys.{Key as Seen, key_from};

    ghost Value = { Seen };

    ghost view = { λ k. key_from k.numbers.items k.rule k.specificity };
}

/// Appends the tags where there is room for them.
fn append(numbers: &mut Vec<u64>, tags: &[u64])
    requires { vec_len numbers.old + length tags.now ≤ vec_capacity numbers.old }
    ensures items { numbers.new.items ≡ numbers.old.items ++ tags.now }
    ensures len { vec_len numbers.new ≡ vec_len numbers.old + length tags.now }
    ensures capacity { vec_capacity numbers.new ≡ vec_capacity numbers.old }
{
    for tag in tags {
        numbers.push_reserved(*tag);
    }
}

/// Takes the tags downwards, and after them the tags as they stand, in place of what was there. For the few tags of most
/// instantiations it is cheaper to push each than to copy them all.
fn fill(numbers: &mut Vec<u64>, tags: &[u64]) -> Result<(), OutOfMemory>
    ensures { OnOk result (numbers.new.items ≡ downwards tags.now ++ tags.now) }
{
    numbers.clear();
    numbers.reserve(tags.len() * 2)?;
    append(numbers, tags);
    numbers.sort_unstable_by(|a, b| b.cmp(a));
    append(numbers, tags);
    Ok(())
}

fn front_half(numbers: &[u64]) -> &[u64]
    ensures { result.now ≡ front_half numbers.now }
{
    &numbers[..numbers.len() / 2]
}

fn back_half(numbers: &[u64]) -> &[u64]
    ensures { result.now ≡ back_half numbers.now }
{
    &numbers[numbers.len() / 2..]
}

fn first_of(tags: &[u64]) -> u64
    ensures { result ≡ unwrap_or (slice_get tags.now 0) 0 }
{
    match tags.first() {
        Some(tag) => *tag,
        None => 0,
    }
}

pub(crate) fn specificity_in(program: &Program, rule: usize) -> u32
    requires { rule < length program.now.rules }
    ensures { result ≡ specificity_of program.now.rules rule }
{
    program.rules.as_slice()[rule].specificity
}

/// Copies the tags twice, sorts one copy, and takes memory once.
pub(crate) fn key_of(
    alloc: Global,
    rule: usize,
    specificity: u32,
    tags: &[u64],
) -> Result<Key, OutOfMemory>
    ensures { IfOk result (λ key. key ≡ key_from (downwards tags.now ++ tags.now) rule specificity) }
{
    let mut numbers = Vec::new(alloc);
    fill(&mut numbers, tags)?;
    Ok(Key {
        numbers,
        rule,
        specificity,
    })
}

impl Key {
    /// Becomes the key of another instantiation. It takes memory only where that has more tags than any before.
    pub fn become_of(&mut self, program: &Program, inst: &Inst) -> Result<(), OutOfMemory>
        requires { inst.now.rule < length program.now.rules }
        ensures { OnOk result (IsKey program.now.rules inst.now self.new) }
    {
        fill(&mut self.numbers, inst.tags.as_slice())?;
        self.rule = inst.rule;
        self.specificity = specificity_in(program, inst.rule);
        Ok(())
    }

    /// Takes memory once and time for each tag twice, and sorts nothing.
    pub fn copy(&self, alloc: Global) -> Result<Key, OutOfMemory>
        ensures { IfOk result (λ c. c ≡ self.now) }
    {
        Ok(Key {
            numbers: Vec::from_slice(alloc, self.numbers.as_slice())?,
            rule: self.rule,
            specificity: self.specificity,
        })
    }

    /// The tags from the greatest down.
    pub(crate) fn sorted(&self) -> &[u64]
        ensures { result.now ≡ self.now.sorted }
    {
        front_half(self.numbers.as_slice())
    }

    /// The tags in the order of the conditions.
    pub(crate) fn tags(&self) -> &[u64]
        ensures { result.now ≡ self.now.tags }
    {
        back_half(self.numbers.as_slice())
    }

    /// The tag of the first condition, and 0 where there is none.
    pub fn first(&self) -> u64
        ensures { result ≡ self.now.first }
    {
        first_of(back_half(self.numbers.as_slice()))
    }

    /// The tag that a strategy compares before all others, and 0 where there is none.
    pub fn top(&self, strategy: Strategy) -> u64
        ensures { result ≡ top_of strategy self.now }
    {
        match strategy {
            Strategy::Lex => first_of(self.sorted()),
            Strategy::Mea => self.first(),
        }
    }
}
