//! The element that a command makes.
ghost use Rattle.std.specs.Prelude.{◌≡◌, IfOk, OnOk, slice_set};
ghost use Rattle.ops_base.specs.Valid.{class_of, no_class};
ghost use Rattle.ops_meaning.specs.Acting.{first_of};
ghost use Rattle.ops_meaning.specs.Running.{fixed_fields, with_values};

use ops_base::commands::Fixed;
use ops_base::elements::{Class, Element};
use ops_base::list::Listed;
use ops_base::memory::OutOfMemory;
use ops_base::programs::Program;
use ops_base::values::{NIL, NOTHING, Value};
use std::alloc::Global;

/// A class without attributes. Allocates nothing.
fn no_class(alloc: Global) -> Class
    ensures { result ≡ no_class }
{
    Class {
        name: NIL,
        attrs: Listed::new(alloc),
        vector: false,
    }
}

/// The class with this number, or `none`.
fn class_of<'c>(classes: &'c [Class], class: usize, none: &'c Class) -> &'c Class
    requires { none.now ≡ no_class }
    ensures { result.now ≡ class_of classes.now class }
{
    match classes.get(class) {
        Some(found) => found,
        None => none,
    }
}

/// Sets a scalar attribute, if it exists.
fn set_field(fields: &mut Vec<Value>, field: usize, value: Value)
    ensures { fields.new.items ≡ slice_set fields.old.items field value }
{
    if field < fields.len() {
        fields[field] = value;
    }
}

fn first_of(values: &[Value]) -> Value
    ensures { result ≡ first_of values.now }
{
    match values.first() {
        Some(value) => *value,
        None => NOTHING,
    }
}

/// Sets one attribute: a scalar one to the first of the values, and the vector attribute to all of them, in place of
/// those that it had. Takes time in proportion to the number of these values only.
fn give_values(
    class: &Class,
    fields: &mut Vec<Value>,
    field: usize,
    values: &[Value],
) -> Result<(), OutOfMemory>
    ensures { OnOk result (fields.new.items ≡ with_values class.now fields.old.items field values.now) }
{
    if class.is_vector(field) {
        fields.truncate(field);
        fields.extend_from_slice(values)?;
        return Ok(());
    }
    set_field(fields, field, first_of(values));
    Ok(())
}

/// The fields of an element of this class that a command makes.
fn fixed_fields(alloc: Global, class: &Class, puts: &[Fixed]) -> Result<Vec<Value>, OutOfMemory>
    ensures { IfOk result (λ v. v.items ≡ fixed_fields class.now puts.now) }
{
    let mut fields = class.no_fields(alloc)?;
    for put in puts {
        give_values(class, &mut fields, put.field, put.values.as_slice())?;
    }
    Ok(fields)
}

/// The element that a command makes, with this tag.
pub(crate) fn fixed_element(
    alloc: Global,
    program: &Program,
    tag: u64,
    class: usize,
    puts: &[Fixed],
) -> Result<Element, OutOfMemory>
    ensures { IfOk result (λ e. e ≡ record {
      tag = tag;
      class = class;
      fields = fixed_fields (class_of program.now.classes class) puts.now;
    }) }
{
    let none = no_class(alloc);
    let shape = class_of(program.classes.as_slice(), class, &none);
    let fields = fixed_fields(alloc, shape, puts)?;
    Ok(Element {
        tag,
        class,
        fields: Listed::from_vec(fields),
    })
}
