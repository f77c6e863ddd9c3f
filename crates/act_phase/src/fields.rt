//! The fields of the elements that a right side makes.
ghost use Rattle.std.specs.Prelude.{◌≡◌, ◌^◌, ◌<◌, [], true, IfOk, OnOk, Some, IsTrue, false};
ghost use Rattle.std.specs.List.{list_any};
ghost use Rattle.ops_base.specs.Valid.{class_of, is_vector};
ghost use Rattle.ops_base.specs.WorkingMemory.{no_fields};
ghost use Rattle.ops_meaning.specs.Acting.{value_placed, values_placed, emptied, terms_placed, made_fields, modified_fields};
ghost use Rattle.ops_meaning.specs.Effects.{silent};
ghost use Rattle.act_phase.specs.Asking.{put_asks};
ghost use Rattle.act_phase.specs.Deeds.{Acts, Gives, scene, fields_found};
ghost use Rattle.act_phase.specs.Outcomes.{fails_by, is_read_mishap};
ghost use Rattle.act_phase.specs.State.{doing_of, held_in, filled_of};

use crate::outcome::ActionError;
use crate::state::ActState;
use crate::values::evaluate;
use ops_base::actions::Put;
use ops_base::elements::{Class, MOST_FIELDS};
use ops_base::endings::ActKind;
use ops_base::memory::OutOfMemory;
use ops_base::symbols::Names;
use ops_base::values::Value;
use ops_io::{Input, Out, Sink, Source};

/// Whether this is the first field of the vector attribute.
fn is_vector(classes: &[Class], class: usize, field: usize) -> bool
    ensures { result ≡ is_vector (class_of classes.now class) field }
{
    match classes.get(class) {
        Some(class) => class.is_vector(field),
        None => false,
    }
}

/// Removes the values of the vector attribute, if this is its first field.
fn empty_vector(doing: &ActState<'_>, class: usize, field: usize, fields: &mut Vec<Value>)
    ensures { fields.new.items ≡ emptied (class_of doing.now.setting.classes class) field fields.old.items }
{
    if is_vector(doing.classes(), class, field) {
        fields.truncate(field);
    }
}

/// The fields of an element to which no value was given.
fn no_fields(doing: &ActState<'_>, class: usize) -> Result<Vec<Value>, OutOfMemory>
    ensures { IfOk result (λ v. v.items ≡ no_fields (class_of doing.now.setting.classes class)) }
{
    match doing.classes().get(class) {
        Some(class) => class.no_fields(doing.alloc()),
        None => Ok(Vec::new(doing.alloc())),
    }
}

/// Places a value at a field, or after the last one.
fn place_value(fields: &mut Vec<Value>, at: usize, value: Value) -> Result<(), OutOfMemory>
    requires { at < MOST_FIELDS }
    ensures { OnOk result (value_placed at value fields.old.items ≡ Some fields.new.items) }
{
    if at < fields.len() {
        fields[at] = value;
    } else {
        fields.push(value)?;
    }
    Ok(())
}

/// Places values from this field onwards.
fn place_values(fields: &mut Vec<Value>, from: usize, values: &[Value]) -> Result<(), ActionError>
    ensures { Gives (λ _. fields.new.items) result (fields_found (values_placed from values.now fields.old.items)) }
{
    let mut at = from;
    for value in values {
        if at >= MOST_FIELDS {
            return Err(ActionError::Fault(ActKind::TooManyFields));
        }
        place_value(fields, at, *value)?;
        at += 1;
    }
    Ok(())
}

/// Gives one attribute the values of its terms. The values of each term are placed before the next term is evaluated.
fn place_put<I: Source, K: Sink>(
    doing: &ActState<'_>,
    names: &mut Names,
    put: &Put,
    fields: &mut Vec<Value>,
    input: &mut Input,
    source: &mut I,
    out: &mut Out,
    sink: &mut K,
) -> Result<(), ActionError>
    requires whole { IsTrue out.old.whole }
    requires writes { K.faults sink.old < 2 ^ 63 }
    requires reads { I.faults source.old < 2 ^ 63 }
    ensures does { Acts (λ _ c. filled_of fields.new.items (doing_of doing.now names.new c)) result
        (scene names.old input.old (I.left source.old) (I.faults source.old) (K.taken sink.old) (K.faults sink.old) out.old)
        (scene names.new input.new (I.left source.new) (I.faults source.new) (K.taken sink.new) (K.faults sink.new) out.new)
        (λ c. silent (terms_placed doing.now.setting.classes put.now.field put.now.terms (filled_of fields.old.items (doing_of doing.now names.old c)))) }
    ensures written { fails_by is_read_mishap result ≡ true → out.new.held ≡ [] }
    ensures untouched { put_asks put.now ≡ false → (input.new ≡ input.old) × (source.new ≡ source.old) }
{
    let mut at = put.field;
    for term in put.terms.as_slice() {
        let values = evaluate(doing, names, term, input, source, out, sink)?;
        place_values(fields, at, values.as_slice())?;
        at += values.as_slice().len();
    }
    Ok(())
}

/// The fields of a new element.
pub(crate) fn made_fields<I: Source, K: Sink>(
    doing: &ActState<'_>,
    names: &mut Names,
    class: usize,
    puts: &[Put],
    input: &mut Input,
    source: &mut I,
    out: &mut Out,
    sink: &mut K,
) -> Result<Vec<Value>, ActionError>
    requires whole { IsTrue out.old.whole }
    requires writes { K.faults sink.old < 2 ^ 63 }
    requires reads { I.faults source.old < 2 ^ 63 }
    ensures does { Acts (λ v c. filled_of v.items (doing_of doing.now names.new c)) result
        (scene names.old input.old (I.left source.old) (I.faults source.old) (K.taken sink.old) (K.faults sink.old) out.old)
        (scene names.new input.new (I.left source.new) (I.faults source.new) (K.taken sink.new) (K.faults sink.new) out.new)
        (λ c. silent (made_fields doing.now.setting.classes (class_of doing.now.setting.classes class) puts.now (doing_of doing.now names.old c))) }
    ensures written { fails_by is_read_mishap result ≡ true → out.new.held ≡ [] }
    ensures untouched { list_any put_asks puts.now ≡ false → (input.new ≡ input.old) × (source.new ≡ source.old) }
{
    let mut fields = no_fields(doing, class)?;
    for put in puts {
        empty_vector(doing, class, put.field, &mut fields);
        place_put(doing, names, put, &mut fields, input, source, out, sink)?;
    }
    Ok(fields)
}

/// A copy of the fields of a cell's element.
fn fields_of(doing: &ActState<'_>, cell: usize) -> Result<Vec<Value>, OutOfMemory>
    ensures { IfOk result (λ v. v.items ≡ (held_in doing.now cell).fields) }
{
    let mut fields = Vec::new(doing.alloc());
    if let Some(element) = doing.element(cell) {
        fields.extend_from_slice(element.fields.as_slice())?;
    }
    Ok(fields)
}

/// The fields of a cell's element, with the given values in place of the old ones.
pub(crate) fn modified_fields<I: Source, K: Sink>(
    doing: &ActState<'_>,
    names: &mut Names,
    cell: usize,
    puts: &[Put],
    input: &mut Input,
    source: &mut I,
    out: &mut Out,
    sink: &mut K,
) -> Result<Vec<Value>, ActionError>
    requires whole { IsTrue out.old.whole }
    requires writes { K.faults sink.old < 2 ^ 63 }
    requires reads { I.faults source.old < 2 ^ 63 }
    ensures does { Acts (λ v c. filled_of v.items (doing_of doing.now names.new c)) result
        (scene names.old input.old (I.left source.old) (I.faults source.old) (K.taken sink.old) (K.faults sink.old) out.old)
        (scene names.new input.new (I.left source.new) (I.faults source.new) (K.taken sink.new) (K.faults sink.new) out.new)
        (λ c. silent (modified_fields doing.now.setting.classes puts.now cell (doing_of doing.now names.old c))) }
    ensures written { fails_by is_read_mishap result ≡ true → out.new.held ≡ [] }
    ensures untouched { list_any put_asks puts.now ≡ false → (input.new ≡ input.old) × (source.new ≡ source.old) }
{
    let mut fields = fields_of(doing, cell)?;
    for put in puts {
        place_put(doing, names, put, &mut fields, input, source, out, sink)?;
    }
    Ok(fields)
}
