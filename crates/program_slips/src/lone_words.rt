//! Variables whose name occurs once in their production.
ghost use Rattle.std.specs.Prelude.{◌≡◌, ◌≤◌, ◌<◌, ◌+◌, ◌^◌, ◌++◌, [], map, length, flat_map, slice_range, All, IfOk, OnOk, if◌then◌else◌, true};
ghost use Rattle.ops_base.specs.Names.{spellings, is_held};
ghost use Rattle.program_slips.specs.Texts.{with_text};
ghost use Rattle.program_slips.specs.Lone.{name_in, again_by, lone_of, lone_among, lone_in, moved, lies_in, lone_of_rule, lone_of_command, lone};
ghost use Rattle.program_slips.specs.Walks.{LiesWithin};

use crate::texts::{is_met, meet};
use crate::words::{Named, variables_in};
use indexmap::IndexSet;
use ops_base::commands::Command;
use ops_base::memory::OutOfMemory;
use ops_base::programs::Program;
use ops_base::rules::Rule;
use ops_tokens::Scanner;
use std::alloc::Global;

/// The name of a variable.
fn name_of(text: &[u8], named: Named) -> &[u8]
    requires { LiesWithin text.now named }
    ensures { result.now ≡ name_in text.now named }
{
    &text[named.first..named.past]
}

/// Records an occurrence of a name, and whether it had occurred before.
fn count(
    met: &mut IndexSet<Vec<u8>>,
    again: &mut IndexSet<Vec<u8>>,
    name: &[u8],
) -> Result<(), OutOfMemory>
    ensures met { OnOk result (spellings met.new.keys ≡ with_text (spellings met.old.keys) name.now) }
    ensures again { OnOk result (spellings again.new.keys
        ≡ (if is_held (spellings met.old.keys) name.now then with_text (spellings again.old.keys) name.now else spellings again.old.keys)) }
{
    let is_again = is_met(met, name);
    meet(met, name)?;
    if is_again {
        meet(again, name)?;
    }
    Ok(())
}

/// The names that occur more than once.
fn again_in(alloc: Global, text: &[u8], named: &[Named]) -> Result<IndexSet<Vec<u8>>, OutOfMemory>
    requires { All (LiesWithin text.now) named.now }
    ensures { IfOk result (λ again. spellings again.keys ≡ again_by [] [] (map (name_in text.now) named.now)) }
{
    let mut met = IndexSet::new(alloc);
    let mut again = IndexSet::new(alloc);
    for each in named {
        count(&mut met, &mut again, name_of(text, *each))?;
    }
    Ok(again)
}

/// Adds a variable, if its name occurs once.
fn add_lone(
    lone: &mut Vec<Named>,
    text: &[u8],
    again: &IndexSet<Vec<u8>>,
    named: Named,
) -> Result<(), OutOfMemory>
    requires { LiesWithin text.now named }
    ensures lone { OnOk result (lone.new.items ≡ lone.old.items ++ lone_of text.now (spellings again.now.keys) named) }
    ensures within { OnOk result (All (LiesWithin text.now) lone.old.items → All (LiesWithin text.now) lone.new.items) }
{
    if named.left && !is_met(again, name_of(text, named)) {
        lone.push(named)?;
    }
    Ok(())
}

/// Those of these variables whose name occurs once, before the arrow.
fn lone_among(
    alloc: Global,
    text: &[u8],
    again: &IndexSet<Vec<u8>>,
    named: &[Named],
) -> Result<Vec<Named>, OutOfMemory>
    requires { All (LiesWithin text.now) named.now }
    ensures lone { IfOk result (λ v. v.items ≡ flat_map (lone_of text.now (spellings again.now.keys)) named.now) }
    ensures within { IfOk result (λ v. All (LiesWithin text.now) v.items) }
{
    let mut lone = Vec::new(alloc);
    for each in named {
        add_lone(&mut lone, text, again, *each)?;
    }
    Ok(lone)
}

/// The variables of the text of a production whose name occurs there once, before the arrow.
fn lone_in(alloc: Global, scanner: &Scanner, text: &[u8]) -> Result<Vec<Named>, OutOfMemory>
    ensures lone { IfOk result (λ v. v.items ≡ lone_in text.now) }
    ensures within { IfOk result (λ v. All (LiesWithin text.now) v.items) }
{
    let found = variables_in(alloc, scanner, text)?;
    let named = found.as_slice();
    let again = again_in(alloc, text, named)?;
    let lone = lone_among(alloc, text, &again, named)?;
    Ok(lone)
}

/// Adds variables of a part of a text that begins at this byte.
fn add_moved(
    found: &mut Vec<Named>,
    text: &[u8],
    by: usize,
    part: &[u8],
    named: &[Named],
) -> Result<(), OutOfMemory>
    requires fits { by + length part.now ≤ length text.now }
    requires within { All (LiesWithin part.now) named.now }
    ensures found { OnOk result (found.new.items ≡ found.old.items ++ map (moved by) named.now) }
    ensures within { OnOk result (All (LiesWithin text.now) found.old.items → All (LiesWithin text.now) found.new.items) }
{
    for each in named {
        found.push(Named {
            first: by + each.first,
            past: by + each.past,
            left: each.left,
        })?;
    }
    Ok(())
}

fn lies_in(text: &[u8], rule: &Rule) -> bool
    ensures value { result ≡ lies_in text.now rule.now }
    ensures within { result ≡ true → (rule.now.first ≤ rule.now.past) × (rule.now.past ≤ length text.now) }
{
    rule.first <= rule.past && rule.past <= text.len()
}

/// Adds the variables of a production whose name occurs there once.
fn add_rule(
    alloc: Global,
    scanner: &Scanner,
    found: &mut Vec<Named>,
    text: &[u8],
    rule: &Rule,
) -> Result<(), OutOfMemory>
    ensures found { OnOk result (found.new.items ≡ found.old.items ++ lone_of_rule text.now rule.now) }
    ensures within { OnOk result (All (LiesWithin text.now) found.old.items → All (LiesWithin text.now) found.new.items) }
{
    if lies_in(text, rule) {
        let part = &text[rule.first..rule.past];
        let named = lone_in(alloc, scanner, part)?;
        add_moved(found, text, rule.first, part, &named)?;
    }
    Ok(())
}

/// Adds those of the production that a command adds.
fn add_command(
    alloc: Global,
    scanner: &Scanner,
    found: &mut Vec<Named>,
    text: &[u8],
    command: &Command,
) -> Result<(), OutOfMemory>
    ensures found { OnOk result (found.new.items ≡ found.old.items ++ lone_of_command text.now command.now) }
    ensures within { OnOk result (All (LiesWithin text.now) found.old.items → All (LiesWithin text.now) found.new.items) }
{
    match command {
        Command::Add { rule } => add_rule(alloc, scanner, found, text, rule),
        _ => Ok(()),
    }
}

fn lone_of(
    alloc: Global,
    text: &[u8],
    rules: &[Rule],
    commands: &[Command],
) -> Result<Vec<Named>, OutOfMemory>
    ensures lone { IfOk result (λ v. v.items ≡ lone text.now rules.now commands.now) }
    ensures within { IfOk result (λ v. All (LiesWithin text.now) v.items) }
{
    let scanner = Scanner::new();
    let mut found = Vec::new(alloc);
    for rule in rules {
        add_rule(alloc, &scanner, &mut found, text, rule)?;
    }
    for command in commands {
        add_command(alloc, &scanner, &mut found, text, command)?;
    }
    Ok(found)
}

/// The variables of a program that are bound and never used, in text order: the name of each occurs once in its
/// production, among the conditions. Takes time in proportion to the productions, and memory in proportion to the
/// longest production and to what is found.
pub fn lone(alloc: Global, program: &Program) -> Result<Vec<Named>, OutOfMemory>
    ensures lone { IfOk result (λ v. v.items ≡ lone program.now.text program.now.rules program.now.commands) }
    ensures within { IfOk result (λ v. All (LiesWithin program.now.text) v.items) }
{
    let text = program.text.as_slice();
    lone_of(
        alloc,
        text,
        program.rules.as_slice(),
        program.commands.as_slice(),
    )
}
