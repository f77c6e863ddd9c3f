//! The messages about the warnings of a program.
ghost use Rattle.std.specs.Prelude.{◌≡◌, ◌≤◌, ◌++◌, length, codes, decimal, IfOk, OnOk, slice_index_or};
ghost use Rattle.ops_base.specs.Names.{spelling_of};
ghost use Rattle.ops_base.specs.Valid.{class_of};
ghost use Rattle.ops_jobs.specs.Words.{word_bytes};
ghost use Rattle.lint_top.specs.Remarks.{at_of};
ghost use Rattle.lint_top.specs.Report.{word_at, value_text, class_text, attribute_text, what_text, remark_text, remark_line};

use crate::lines::{Files, add_line_for, warning_text, word_at};
use crate::remarks::{Remark, at_of};
use itoa::Buffer;
use ops_base::elements::Class;
use ops_base::memory::OutOfMemory;
use ops_base::symbols::Names;
use ops_base::values::{NIL, Sym, Value};
use program_slips::{Ask, Named, Twin, What};
use std::alloc::Global;

/// The names that a program gives to its symbols and classes.
#[derive(Clone, Copy)]
pub(crate) struct Terms<'a> {
    pub(crate) names: &'a Names,
    pub(crate) classes: &'a [Class],
}

fn class_name(classes: &[Class], class: usize) -> Sym
    ensures { result ≡ (class_of classes.now class).name }
{
    match classes.get(class) {
        Some(class) => class.name,
        None => NIL,
    }
}

fn attribute_name(classes: &[Class], class: usize, field: usize) -> Sym
    ensures { result ≡ slice_index_or (class_of classes.now class).attrs field (record { 0 = 0 }) }
{
    let Some(class) = classes.get(class) else {
        return NIL;
    };
    match class.attrs.as_slice().get(field) {
        Some(name) => *name,
        None => NIL,
    }
}

fn add_value(text: &mut Vec<u8>, names: &Names, value: Value) -> Result<(), OutOfMemory>
    ensures { OnOk result (text.new.items ≡ text.old.items ++ value_text names.now value) }
{
    let mut buffer = Buffer::new();
    match value {
        Value::Symbol(symbol) => text.extend_from_slice(names.text(symbol))?,
        Value::Whole(number) => text.extend_from_slice(buffer.format(number).as_bytes())?,
    }
    Ok(())
}

fn add_element(text: &mut Vec<u8>, terms: Terms<'_>, class: usize) -> Result<(), OutOfMemory>
    ensures { OnOk result (text.new.items ≡ text.old.items ++ what_text terms.entry.names.now terms.entry.classes.now class What.Element) }
{
    text.extend_from_slice(b" looks for an element of ")?;
    text.extend_from_slice(terms.names.text(class_name(terms.classes, class)))?;
    text.extend_from_slice(b", and nothing makes one")?;
    Ok(())
}

/// Adds where a constant is looked for, and that nothing puts it there.
fn add_missing(
    text: &mut Vec<u8>,
    terms: Terms<'_>,
    class: usize,
    field: usize,
) -> Result<(), OutOfMemory>
    ensures { OnOk result (text.new.items ≡ text.old.items
        ++ codes " in ^" ++ attribute_text terms.entry.names.now terms.entry.classes.now class field
        ++ codes " of " ++ class_text terms.entry.names.now terms.entry.classes.now class ++ codes ", and nothing puts it there") }
{
    text.extend_from_slice(b" in ^")?;
    text.extend_from_slice(
        terms
            .names
            .text(attribute_name(terms.classes, class, field)),
    )?;
    text.extend_from_slice(b" of ")?;
    text.extend_from_slice(terms.names.text(class_name(terms.classes, class)))?;
    text.extend_from_slice(b", and nothing puts it there")?;
    Ok(())
}

fn add_constant(
    text: &mut Vec<u8>,
    terms: Terms<'_>,
    class: usize,
    field: usize,
    value: Value,
) -> Result<(), OutOfMemory>
    ensures { OnOk result (text.new.items ≡ text.old.items ++ what_text terms.entry.names.now terms.entry.classes.now class (What.Constant field value)) }
{
    text.extend_from_slice(b" looks for ")?;
    add_value(text, terms.names, value)?;
    add_missing(text, terms, class, field)
}

fn add_what(
    text: &mut Vec<u8>,
    terms: Terms<'_>,
    class: usize,
    what: What,
) -> Result<(), OutOfMemory>
    ensures { OnOk result (text.new.items ≡ text.old.items ++ what_text terms.entry.names.now terms.entry.classes.now class what) }
{
    match what {
        What::Element => add_element(text, terms, class),
        What::Constant { field, value } => add_constant(text, terms, class, field, value),
        What::Unmet => {
            text.extend_from_slice(
                b" is met by no element: no value passes its tests of one attribute",
            )?;
            Ok(())
        }
    }
}

fn ask_text(alloc: Global, terms: Terms<'_>, ask: Ask) -> Result<Vec<u8>, OutOfMemory>
    ensures { IfOk result (λ v. v.items ≡ codes "warning: condition " ++ decimal ask.condition ++ what_text terms.entry.names.now terms.entry.classes.now ask.class ask.what) }
{
    let mut buffer = Buffer::new();
    let mut text = Vec::from_slice(alloc, b"warning: condition ")?;
    text.extend_from_slice(buffer.format(ask.condition).as_bytes())?;
    add_what(&mut text, terms, ask.class, ask.what)?;
    Ok(text)
}

fn twin_text(alloc: Global, names: &Names, twin: Twin) -> Result<Vec<u8>, OutOfMemory>
    ensures { IfOk result (λ v. v.items ≡ codes "warning: " ++ spelling_of names.now twin.name ++ codes " has the conditions of " ++ spelling_of names.now twin.earlier) }
{
    let mut text = Vec::from_slice(alloc, b"warning: ")?;
    text.extend_from_slice(names.text(twin.name))?;
    text.extend_from_slice(b" has the conditions of ")?;
    text.extend_from_slice(names.text(twin.earlier))?;
    Ok(text)
}

fn lone_text(alloc: Global, text: &[u8], named: Named) -> Result<Vec<u8>, OutOfMemory>
    ensures { IfOk result (λ v. v.items ≡ codes "warning: " ++ word_at text.now named.first named.past ++ codes " is bound and used nowhere") }
{
    let mut said = Vec::from_slice(alloc, b"warning: ")?;
    said.extend_from_slice(word_at(text, named.first, named.past))?;
    said.extend_from_slice(b" is bound and used nowhere")?;
    Ok(said)
}

fn remark_text(
    alloc: Global,
    text: &[u8],
    terms: Terms<'_>,
    remark: Remark,
) -> Result<Vec<u8>, OutOfMemory>
    ensures { IfOk result (λ v. v.items ≡ remark_text text.now terms.entry.names.now terms.entry.classes.now remark) }
{
    match remark {
        Remark::Word(word) => warning_text(alloc, text, word),
        Remark::Asked(ask) => ask_text(alloc, terms, ask),
        Remark::Twin(twin) => twin_text(alloc, terms.names, twin),
        Remark::Lone(named) => lone_text(alloc, text, named),
    }
}

/// Adds the line of a warning. A warning beyond the end of the text is reported at the end.
pub(crate) fn add_remark(
    alloc: Global,
    lines: &mut Vec<u8>,
    files: Files<'_>,
    terms: Terms<'_>,
    remark: Remark,
) -> Result<(), OutOfMemory>
    ensures { OnOk result (lines.new.items ≡ lines.old.items ++ remark_line (word_bytes files.entry.names.now) files.entry.text.now files.entry.parts.now terms.entry.names.now terms.entry.classes.now remark) }
{
    let what = remark_text(alloc, files.text, terms, remark)?;
    let at = at_of(remark).min(files.text.len());
    add_line_for(lines, files, at, &what)
}
