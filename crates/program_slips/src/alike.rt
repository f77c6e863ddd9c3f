//! Productions that have the same conditions as an earlier one.
ghost use Rattle.std.specs.Prelude.{◌≡◌, ◌++◌, ◌∷◌, List, IfOk, OnOk, unwrap_or, slice_get};
ghost use Rattle.ops_base.specs.Names.{spellings};
ghost use Rattle.program_slips.specs.Alike.{left_text, twins_of, names_after, twins_by, twins};
ghost use Rattle.program_slips.specs.Texts.{met_at, with_text};
ghost use Rattle.ops_base.specs.declared.rules.Rule.{Rule};

use crate::lefts::left_text;
use crate::texts::meet;
use indexmap::IndexSet;
use ops_base::memory::OutOfMemory;
use ops_base::programs::Program;
use ops_base::rules::Rule;
use ops_base::values::Sym;
use std::alloc::Global;

/// A production that has the same conditions as an earlier one: its byte in the text, its name, and the name of the
/// earlier one.
#[derive(Clone, Copy, Debug, PartialEq, Eq)]
pub struct Twin {
    pub at: usize,
    pub name: Sym,
    pub earlier: Sym,
}

/// The name at this place, or `name` if there is none.
fn name_at(names: &[Sym], place: usize, name: Sym) -> Sym
    ensures { result ≡ unwrap_or (slice_get names.now place) name }
{
    match names.get(place) {
        Some(found) => *found,
        None => name,
    }
}

/// Adds a production whose conditions were met before at this place, or the name of a production with new conditions.
fn note(
    found: &mut Vec<Twin>,
    names: &mut Vec<Sym>,
    rule: &Rule,
    place: Option<usize>,
) -> Result<(), OutOfMemory>
    ensures found { OnOk result (found.new.items ≡ found.old.items ++ twins_of names.old.items rule.now place) }
    ensures names { OnOk result (names.new.items ≡ names_after names.old.items rule.now place) }
{
    let name = rule.name;
    match place {
        Some(place) => {
            let earlier = name_at(names, place, name);
            found.push(Twin {
                at: rule.first,
                name,
                earlier,
            })?;
        }
        None => names.push(name)?,
    }
    Ok(())
}

/// Adds a production if its conditions were met before.
fn add_rule(
    found: &mut Vec<Twin>,
    names: &mut Vec<Sym>,
    texts: &mut IndexSet<Vec<u8>>,
    rule: &Rule,
) -> Result<(), OutOfMemory>
    ensures { OnOk result ((rest : List Rule) → found.old.items ++ twins_by (spellings texts.old.keys) names.old.items (rule.now ∷ rest)
        ≡ found.new.items ++ twins_by (spellings texts.new.keys) names.new.items rest) }
{
    let text = left_text(*texts.allocator(), rule)?;
    let place = meet(texts, &text)?;
    note(found, names, rule, place)?;
    Ok(())
}

fn twins_in(alloc: Global, rules: &[Rule]) -> Result<Vec<Twin>, OutOfMemory>
    ensures { IfOk result (λ v. v.items ≡ twins rules.now) }
{
    let mut found = Vec::new(alloc);
    let mut names = Vec::new(alloc);
    let mut texts = IndexSet::new(alloc);
    for rule in rules {
        add_rule(&mut found, &mut names, &mut texts, rule)?;
    }
    Ok(found)
}

/// The productions that have the same conditions as an earlier one, in text order, without those that are added
/// later. Takes time and memory in proportion to the left sides.
pub fn twins(alloc: Global, program: &Program) -> Result<Vec<Twin>, OutOfMemory>
    ensures { IfOk result (λ v. v.items ≡ twins program.now.rules) }
{
    twins_in(alloc, program.rules.as_slice())
}
