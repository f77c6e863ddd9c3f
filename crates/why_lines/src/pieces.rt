//! Pieces of a line, each added to a text in memory.
ghost use Rattle.std.specs.Prelude.{◌≡◌, ◌++◌, OnOk, decimal, true};
ghost use Rattle.ops_base.specs.Valid.{class_of};
ghost use Rattle.ops_meaning.specs.Layout.{is_symbol, is_plain_symbol, symbol_text, shown_value, tags_text, inst_text};
ghost use Rattle.why_lines.specs.WhyLines.{attribute_of, field_text, binding_text, bindings_text};

use crate::spots::Spot;
use itoa::Buffer;
use ops_base::elements::Class;
use ops_base::memory::OutOfMemory;
use ops_base::programs::Program;
use ops_base::rules::Inst;
use ops_base::symbols::Names;
use ops_base::values::{NIL, Sym, Value};
use ops_print::rule_name;
use ops_tokens::{TokenKind, next_token};

fn is_symbol(kind: TokenKind) -> bool
    ensures { result ≡ is_symbol kind }
{
    match kind {
        TokenKind::Symbol => true,
        _ => false,
    }
}

/// Whether a program could name this symbol without bars.
fn is_plain_symbol(spelling: &[u8]) -> bool
    ensures { result ≡ is_plain_symbol spelling.now }
{
    match next_token(spelling, 0) {
        Ok(Some(token)) => is_symbol(token.kind)
            && token.first == 0
            && token.past == spelling.len(),
        _ => false,
    }
}

/// Adds a symbol as a program names it: between bars if it is not plain.
pub(crate) fn add_symbol(text: &mut Vec<u8>, names: &Names, item: Sym) -> Result<(), OutOfMemory>
    ensures { OnOk result (text.new.items ≡ text.old.items ++ symbol_text names.now item) }
{
    let spelling = names.text(item);
    if is_plain_symbol(spelling) {
        text.extend_from_slice(spelling)?;
        return Ok(());
    }
    text.push(b'|')?;
    text.extend_from_slice(spelling)?;
    text.push(b'|')?;
    Ok(())
}

pub(crate) fn add_number(text: &mut Vec<u8>, number: usize) -> Result<(), OutOfMemory>
    ensures { OnOk result (text.new.items ≡ text.old.items ++ decimal number) }
{
    text.extend_from_slice(Buffer::new().format(number).as_bytes())?;
    Ok(())
}

fn add_value(text: &mut Vec<u8>, names: &Names, item: Value) -> Result<(), OutOfMemory>
    ensures { OnOk result (text.new.items ≡ text.old.items ++ shown_value names.now item) }
{
    match item {
        Value::Symbol(sym) => add_symbol(text, names, sym)?,
        Value::Whole(number) => {
            text.extend_from_slice(Buffer::new().format(number).as_bytes())?;
        }
    }
    Ok(())
}

fn attribute_of(class: &Class, field: usize) -> Sym
    ensures { result ≡ attribute_of class.now field }
{
    match class.attrs.as_slice().get(field) {
        Some(attr) => *attr,
        None => NIL,
    }
}

/// Adds the name of a field: that of its attribute, and for the vector attribute also the field's place in it.
fn add_field(
    text: &mut Vec<u8>,
    names: &Names,
    class: &Class,
    field: usize,
) -> Result<(), OutOfMemory>
    ensures { OnOk result (text.new.items ≡ text.old.items ++ field_text names.now class.now field) }
{
    let scalars = class.scalar_count();
    if class.vector && scalars <= field {
        add_symbol(text, names, attribute_of(class, scalars))?;
        text.push(b'/')?;
        let place = (field - scalars) as u128 + 1;
        text.extend_from_slice(Buffer::new().format(place).as_bytes())?;
        return Ok(());
    }
    add_symbol(text, names, attribute_of(class, field))
}

fn add_field_of(
    text: &mut Vec<u8>,
    names: &Names,
    classes: &[Class],
    spot: Spot,
) -> Result<(), OutOfMemory>
    ensures { OnOk result (text.new.items ≡ text.old.items ++ field_text names.now (class_of classes.now spot.class) spot.field) }
{
    match classes.get(spot.class) {
        Some(class) => add_field(text, names, class, spot.field),
        None => add_symbol(text, names, NIL),
    }
}

/// Adds one binding: the place of its condition, the field and the value.
fn add_binding(
    text: &mut Vec<u8>,
    names: &Names,
    classes: &[Class],
    spot: Spot,
    value: Value,
) -> Result<(), OutOfMemory>
    ensures { OnOk result (text.new.items ≡ text.old.items ++ binding_text names.now classes.now spot value) }
{
    text.extend_from_slice(b" ")?;
    add_number(text, spot.place)?;
    text.extend_from_slice(b" ^")?;
    add_field_of(text, names, classes, spot)?;
    text.extend_from_slice(b" ")?;
    add_value(text, names, value)
}

/// Adds the bindings, separated by `;`.
pub(crate) fn add_bindings(
    text: &mut Vec<u8>,
    names: &Names,
    classes: &[Class],
    spots: &[Spot],
    values: &[Value],
) -> Result<(), OutOfMemory>
    ensures { OnOk result (text.new.items ≡ text.old.items ++ bindings_text names.now classes.now true spots.now values.now) }
{
    let mut is_first = true;
    let mut left = values;
    for spot in spots {
        let Some((value, rest)) = left.split_first() else {
            return Ok(());
        };
        if !is_first {
            text.push(b';')?;
        }
        add_binding(text, names, classes, *spot, *value)?;
        is_first = false;
        left = rest;
    }
    Ok(())
}

fn add_tags(text: &mut Vec<u8>, tags: &[u64]) -> Result<(), OutOfMemory>
    ensures { OnOk result (text.new.items ≡ text.old.items ++ tags_text tags.now) }
{
    for tag in tags {
        text.push(b' ')?;
        text.extend_from_slice(Buffer::new().format(*tag).as_bytes())?;
    }
    Ok(())
}

/// Adds the name of a production, and tags.
pub(crate) fn add_inst(
    text: &mut Vec<u8>,
    names: &Names,
    program: &Program,
    item: &Inst,
) -> Result<(), OutOfMemory>
    ensures { OnOk result (text.new.items ≡ text.old.items ++ inst_text names.now program.now.rules item.now) }
{
    add_symbol(text, names, rule_name(program.rules.as_slice(), item.rule))?;
    add_tags(text, item.tags.as_slice())
}
