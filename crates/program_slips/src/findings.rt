//! What conditions ask for and nothing provides.
ghost use Rattle.std.specs.Prelude.{◌≡◌, ◌++◌, ◌∷◌, List, [], ◌||◌, IfOk, OnOk, if◌then◌else◌};
ghost use Rattle.std.specs.HashSet.{contains};
ghost use Rattle.program_slips.specs.declared.given.Given.{Given as Fact};
ghost use Rattle.program_slips.specs.Given.{same_given, is_given};
ghost use Rattle.program_slips.specs.declared.asked.Ask.{Ask as Asked};
ghost use Rattle.program_slips.specs.Lacking.{lacks, lacking_by, lacking};

use crate::asked::{Ask, What, asks_of};
use crate::given::{Given, given_of};
use ops_base::memory::OutOfMemory;
use ops_base::programs::Program;
use ops_base::values::NOTHING;
use std::alloc::Global;
use std::collections::HashSet;

/// Adds a fact to the known ones.
fn learn(known: &mut HashSet<Given>, fact: Given) -> Result<(), OutOfMemory>
    ensures { OnOk result ((g : Fact) → contains same_given known.new g ≡ (same_given fact g || contains same_given known.old g)) }
{
    known.insert(fact)?;
    Ok(())
}

fn is_known(known: &HashSet<Given>, fact: Given) -> bool
    ensures { result ≡ contains same_given known.now fact }
{
    known.contains(&fact)
}

/// The facts as a set. Takes time and memory in proportion to them.
fn known_of(alloc: Global, facts: &[Given]) -> Result<HashSet<Given>, OutOfMemory>
    ensures { IfOk result (λ known. (g : Fact) → contains same_given known g ≡ is_given facts.now g) }
{
    let mut known = HashSet::new(alloc);
    for fact in facts {
        learn(&mut known, *fact)?;
    }
    Ok(known)
}

/// Whether what is asked for is missing. It makes at most three lookups.
fn lacks(known: &HashSet<Given>, class: usize, what: What) -> bool
    ensures { result ≡ lacks (contains same_given known.now) class what }
{
    match what {
        What::Element => {
            !is_known(known, Given::Class(class)) && !is_known(known, Given::Asked(class))
        }
        What::Constant { field, value } => {
            is_known(known, Given::Class(class))
                && !is_known(known, Given::Other { class, field })
                && !is_known(
                    known,
                    Given::Constant {
                        class,
                        field,
                        value,
                    },
                )
                && value != NOTHING
        }
        What::Unmet => true,
    }
}

/// Adds what is asked for, if it is missing.
fn note(found: &mut Vec<Ask>, known: &HashSet<Given>, ask: Ask) -> Result<(), OutOfMemory>
    ensures { OnOk result (found.new.items ≡ found.old.items
        ++ (if lacks (contains same_given known.now) ask.class ask.what then ask ∷ [] else [])) }
{
    if lacks(known, ask.class, ask.what) {
        found.push(ask)?;
    }
    Ok(())
}

/// Adds what is asked for, if it is missing, and records that its class was asked for.
fn step(found: &mut Vec<Ask>, known: &mut HashSet<Given>, ask: Ask) -> Result<(), OutOfMemory>
    ensures { OnOk result ((rest : List Asked) → found.old.items ++ lacking_by (contains same_given known.old) (ask ∷ rest)
        ≡ found.new.items ++ lacking_by (contains same_given known.new) rest) }
{
    note(found, known, ask)?;
    learn(known, Given::Asked(ask.class))?;
    Ok(())
}

/// The missing ones of the things asked for, given these facts.
fn lacking_by(
    alloc: Global,
    mut known: HashSet<Given>,
    asks: &[Ask],
) -> Result<Vec<Ask>, OutOfMemory>
    ensures { IfOk result (λ v. v.items ≡ lacking_by (contains same_given known) asks.now) }
{
    let mut found = Vec::new(alloc);
    for ask in asks {
        step(&mut found, &mut known, *ask)?;
    }
    Ok(found)
}

/// What the conditions of a program ask for and nothing in it provides, in text order. Takes time and memory in
/// proportion to the program, and time in proportion to the square of the tests of one condition.
pub fn lacking(alloc: Global, program: &Program) -> Result<Vec<Ask>, OutOfMemory>
    ensures { IfOk result (λ v. v.items ≡ lacking program.now.classes program.now.rules program.now.templates program.now.commands) }
{
    let rules = program.rules.as_slice();
    let templates = program.templates.as_slice();
    let commands = program.commands.as_slice();
    let given = given_of(alloc, rules, templates, commands)?;
    let classes = program.classes.as_slice();
    let asks = asks_of(alloc, classes, rules, templates, commands)?;
    let known = known_of(alloc, &given)?;
    let found = lacking_by(alloc, known, &asks)?;
    Ok(found)
}
