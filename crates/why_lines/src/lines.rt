//! The lines for each production.
ghost use Rattle.std.specs.Prelude.{◌≡◌, ◌<◌, ◌∷◌, [], ◌++◌, OnOk, IfOk, length, map, Contains};
ghost use Rattle.ops_base.specs.Instances.{IsInst};
ghost use Rattle.ops_base.specs.WorkingMemory.{HasRisingTags, shown};
ghost use Rattle.why.specs.Bindings.{Binds};
ghost use Rattle.why.specs.Explaining.{explanation};
ghost use Rattle.why.specs.declared.explaining.BoundInst.{BoundInst};
ghost use Rattle.why_lines.specs.WhyLines.{found_line, missing_line, rule_lines, why_lines, text_of};

use crate::pieces::{add_bindings, add_inst, add_number, add_symbol};
use crate::spots::{Spot, spots_of};
use ops_base::elements::Element;
use ops_base::memory::OutOfMemory;
use ops_base::programs::Program;
use ops_base::symbols::Names;
use ops_base::values::Sym;
use ops_print::rule_name;
use std::alloc::Global;
use why::{BoundInst, Why, check, explain, parts_of};

/// Adds the line for an instantiation and the values that it binds.
fn add_found(
    text: &mut Vec<u8>,
    names: &Names,
    program: &Program,
    spots: &[Spot],
    found: &BoundInst,
) -> Result<(), OutOfMemory>
    ensures { OnOk result (text.new.items ≡ text.old.items
        ++ (found_line names.now program.now.classes program.now.rules spots.now found.now ++ 10 ∷ [])) }
{
    text.extend_from_slice(b"why ")?;
    add_inst(text, names, program, &found.inst)?;
    text.push(b':')?;
    let classes = program.classes.as_slice();
    add_bindings(text, names, classes, spots, found.values.as_slice())?;
    text.push(b'\n')?;
    Ok(())
}

/// Adds the line for a production without an instantiation.
fn add_missing(
    text: &mut Vec<u8>,
    names: &Names,
    name: Sym,
    place: usize,
) -> Result<(), OutOfMemory>
    ensures { OnOk result (text.new.items ≡ text.old.items ++ (missing_line names.now name place ++ 10 ∷ [])) }
{
    text.extend_from_slice(b"why ")?;
    add_symbol(text, names, name)?;
    text.extend_from_slice(b": condition ")?;
    add_number(text, place)?;
    text.push(b'\n')?;
    Ok(())
}

/// Adds the lines for instantiations, each after `check` has confirmed that it is one and binds these values. `check`
/// always confirms it.
fn add_checked(
    text: &mut Vec<u8>,
    names: &Names,
    program: &Program,
    wm: &[&Element],
    spots: &[Spot],
    found: &[BoundInst],
) -> Result<(), OutOfMemory>
    requires rising { HasRisingTags (shown wm.now) }
    requires right { (b : BoundInst) → Contains found.now b
        → IsInst program.now.rules (shown wm.now) b.inst × Binds program.now.rules (shown wm.now) b.inst b.values }
    ensures { OnOk result (text.new.items ≡ text.old.items
        ++ text_of (map (found_line names.now program.now.classes program.now.rules spots.now) found.now)) }
{
    for item in found {
        if check(program, wm, &item.inst, item.values.as_slice()) {
            add_found(text, names, program, spots, item)?;
        }
    }
    Ok(())
}

/// Adds the lines for a production.
fn add_rule(
    alloc: Global,
    text: &mut Vec<u8>,
    names: &Names,
    program: &Program,
    wm: &[&Element],
    rule: usize,
) -> Result<(), OutOfMemory>
    requires there { rule < length program.now.rules }
    requires rising { HasRisingTags (shown wm.now) }
    ensures { OnOk result (text.new.items ≡ text.old.items ++ text_of
        (rule_lines names.now program.now.classes program.now.rules rule (explanation program.now.rules (shown wm.now) rule))) }
{
    match explain(alloc, program, wm, rule)? {
        Why::Found(found) => {
            let spots = spots_of(alloc, parts_of(program, rule))?;
            add_checked(text, names, program, wm, &spots, found.as_slice())
        }
        Why::Missing { place } => {
            let name = rule_name(program.rules.as_slice(), rule);
            add_missing(text, names, name, place)
        }
    }
}

/// The lines that explain the productions, each with its LF. It explains one production after another (by `explain`),
/// and holds the text of all in memory.
pub(crate) fn why_text(
    alloc: Global,
    names: &Names,
    program: &Program,
    wm: &[&Element],
) -> Result<Vec<u8>, OutOfMemory>
    requires { HasRisingTags (shown wm.now) }
    ensures { IfOk result (λ text. text.items ≡ text_of (why_lines names.now program.now.classes program.now.rules (shown wm.now))) }
{
    let mut text = Vec::new(alloc);
    for rule in 0..program.rules.len() {
        add_rule(alloc, &mut text, names, program, wm, rule)?;
    }
    Ok(text)
}
