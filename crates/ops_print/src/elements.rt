//! Elements of working memory, as everything except `write` shows them.
ghost use Rattle.std.specs.Prelude.{◌≡◌, ◌+◌, ◌^◌, ◌<◌, ◌∷◌, ◌++◌, IsTrue, OnErr, false, codes, drop, length};
ghost use Rattle.ops_base.specs.Values.{are_same, nil};
ghost use Rattle.ops_base.specs.WorkingMemory.{field_of};
ghost use Rattle.ops_io.specs.Ports.{port, PutsBytes};
ghost use Rattle.ops_meaning.specs.Layout.{symbol_text, shown_value, shown_values, attribute_text, value_shown, values_shown, attributes_text, element_text, tagged_text, line_at};

use crate::lines::fresh_line;
use crate::pieces::put_numbered;
use crate::symbols::{put_named, put_symbol};
use itoa::Buffer;
use ops_base::elements::{Class, Element};
use ops_base::programs::Program;
use ops_base::symbols::Names;
use ops_base::values::{NIL, NOTHING, Sym, Value};
use ops_io::{Out, Sink, WriteFailed};
use std::slice;

/// Puts a value as a program spells it.
fn put_shown<K: Sink>(
    out: &mut Out,
    sink: &mut K,
    names: &Names,
    item: &Value,
) -> Result<(), WriteFailed>
    requires whole { IsTrue out.old.whole }
    requires faults { K.faults sink.old < 2 ^ 63 }
    ensures puts { PutsBytes result (port (K.taken sink.old) (K.faults sink.old) out.old)
        (port (K.taken sink.new) (K.faults sink.new) out.new) (shown_value names.now item.now) }
    ensures broken { OnErr result (out.new.whole ≡ false) }
{
    match *item {
        Value::Symbol(sym) => put_symbol(out, sink, names, &sym),
        Value::Whole(number) => out.put(sink, Buffer::new().format(number).as_bytes()),
    }
}

/// Puts a space and a value.
fn put_spaced<K: Sink>(
    out: &mut Out,
    sink: &mut K,
    names: &Names,
    item: &Value,
) -> Result<(), WriteFailed>
    requires whole { IsTrue out.old.whole }
    requires faults { K.faults sink.old < 2 ^ 63 }
    ensures puts { PutsBytes result (port (K.taken sink.old) (K.faults sink.old) out.old)
        (port (K.taken sink.new) (K.faults sink.new) out.new) (32 ∷ shown_value names.now item.now) }
    ensures broken { OnErr result (out.new.whole ≡ false) }
{
    out.put(sink, b" ")?;
    put_shown(out, sink, names, item)
}

/// Puts values, each after a space.
fn put_shown_values<K: Sink>(
    out: &mut Out,
    sink: &mut K,
    names: &Names,
    values: &[Value],
) -> Result<(), WriteFailed>
    requires whole { IsTrue out.old.whole }
    requires faults { K.faults sink.old < 2 ^ 63 }
    ensures puts { PutsBytes result (port (K.taken sink.old) (K.faults sink.old) out.old)
        (port (K.taken sink.new) (K.faults sink.new) out.new) (shown_values names.now values.now) }
    ensures broken { OnErr result (out.new.whole ≡ false) }
{
    for value in values {
        put_spaced(out, sink, names, value)?;
    }
    Ok(())
}

/// Puts an attribute with its values, or nothing if it has none.
fn put_attribute<K: Sink>(
    out: &mut Out,
    sink: &mut K,
    names: &Names,
    name: &Sym,
    values: &[Value],
) -> Result<(), WriteFailed>
    requires whole { IsTrue out.old.whole }
    requires faults { K.faults sink.old < 2 ^ 63 }
    ensures puts { PutsBytes result (port (K.taken sink.old) (K.faults sink.old) out.old)
        (port (K.taken sink.new) (K.faults sink.new) out.new) (attribute_text names.now name.now values.now) }
    ensures broken { OnErr result (out.new.whole ≡ false) }
{
    if values.is_empty() {
        return Ok(());
    }
    put_named(out, sink, names, b" ^", name, b"")?;
    put_shown_values(out, sink, names, values)
}

fn is_nil(value: &Value) -> bool
    ensures { result ≡ are_same value.now nil }
{
    *value == NOTHING
}

/// The value of a scalar attribute, or nothing if it is `nil`.
fn value_shown(element: &Element, field: usize) -> &[Value]
    ensures { result.now ≡ value_shown (field_of element.now field) }
{
    match element.fields.as_slice().get(field) {
        Some(value) if !is_nil(value) => slice::from_ref(value),
        _ => &[],
    }
}

/// The values that are shown for the attribute with this number.
fn values_shown<'e>(class: &Class, element: &'e Element, field: usize) -> &'e [Value]
    requires { field < length class.now.attrs }
    ensures { result.now ≡ values_shown class.now element.now field }
{
    let count = class.attrs.len();
    if class.vector && field + 1 == count {
        element.fields_from(field)
    } else {
        value_shown(element, field)
    }
}

/// Puts all attributes that have values.
fn put_attributes<K: Sink>(
    out: &mut Out,
    sink: &mut K,
    names: &Names,
    class: &Class,
    item: &Element,
) -> Result<(), WriteFailed>
    requires whole { IsTrue out.old.whole }
    requires faults { K.faults sink.old < 2 ^ 63 }
    ensures puts { PutsBytes result (port (K.taken sink.old) (K.faults sink.old) out.old)
        (port (K.taken sink.new) (K.faults sink.new) out.new)
        (attributes_text names.now class.now item.now 0 class.now.attrs) }
    ensures broken { OnErr result (out.new.whole ≡ false) }
{
    let attrs = class.attrs.as_slice();
    for (field, name) in attrs.iter().enumerate() {
        put_attribute(out, sink, names, name, values_shown(class, item, field))?;
    }
    Ok(())
}

/// Puts an element of this class.
fn put_of_class<K: Sink>(
    out: &mut Out,
    sink: &mut K,
    names: &Names,
    class: &Class,
    item: &Element,
) -> Result<(), WriteFailed>
    requires whole { IsTrue out.old.whole }
    requires faults { K.faults sink.old < 2 ^ 63 }
    ensures puts { PutsBytes result (port (K.taken sink.old) (K.faults sink.old) out.old)
        (port (K.taken sink.new) (K.faults sink.new) out.new)
        (codes "(" ++ symbol_text names.now class.now.name
        ++ attributes_text names.now class.now item.now 0 class.now.attrs ++ codes ")") }
    ensures broken { OnErr result (out.new.whole ≡ false) }
{
    put_named(out, sink, names, b"(", &class.name, b"")?;
    put_attributes(out, sink, names, class, item)?;
    out.put(sink, b")")
}

/// Puts an element: its class, and each attribute that has at least one value. Allocates nothing.
pub fn put_element<K: Sink>(
    out: &mut Out,
    sink: &mut K,
    names: &Names,
    program: &Program,
    item: &Element,
) -> Result<(), WriteFailed>
    requires whole { IsTrue out.old.whole }
    requires faults { K.faults sink.old < 2 ^ 63 }
    ensures puts { PutsBytes result (port (K.taken sink.old) (K.faults sink.old) out.old)
        (port (K.taken sink.new) (K.faults sink.new) out.new) (element_text names.now program.now.classes item.now) }
    ensures broken { OnErr result (out.new.whole ≡ false) }
{
    match program.classes.as_slice().get(item.class) {
        Some(class) => put_of_class(out, sink, names, class, item),
        None => put_named(out, sink, names, b"(", &NIL, b")"),
    }
}

/// Puts a line of its own: these bytes, the tag of an element and the element. Allocates nothing.
pub fn put_element_line<K: Sink>(
    out: &mut Out,
    sink: &mut K,
    names: &Names,
    program: &Program,
    before: &[u8],
    item: &Element,
) -> Result<(), WriteFailed>
    requires whole { IsTrue out.old.whole }
    requires faults { K.faults sink.old < 2 ^ 63 }
    ensures puts { PutsBytes result (port (K.taken sink.old) (K.faults sink.old) out.old)
        (port (K.taken sink.new) (K.faults sink.new) out.new)
        (line_at out.old.column (before.now ++ tagged_text names.now program.now.classes item.now)) }
    ensures broken { OnErr result (out.new.whole ≡ false) }
{
    fresh_line(out, sink)?;
    put_numbered(out, sink, before, item.tag, b": ")?;
    put_element(out, sink, names, program, item)?;
    out.put(sink, b"\n")
}

/// Puts the line which reports that an element was made. Allocates nothing.
pub fn put_made_line<K: Sink>(
    out: &mut Out,
    sink: &mut K,
    names: &Names,
    program: &Program,
    item: &Element,
) -> Result<(), WriteFailed>
    requires whole { IsTrue out.old.whole }
    requires faults { K.faults sink.old < 2 ^ 63 }
    ensures puts { PutsBytes result (port (K.taken sink.old) (K.faults sink.old) out.old)
        (port (K.taken sink.new) (K.faults sink.new) out.new)
        (line_at out.old.column (codes "=>WM: " ++ tagged_text names.now program.now.classes item.now)) }
    ensures broken { OnErr result (out.new.whole ≡ false) }
{
    put_element_line(out, sink, names, program, b"=>WM: ", item)
}

/// Puts the line which reports that an element was removed. Allocates nothing.
pub fn put_removed_line<K: Sink>(
    out: &mut Out,
    sink: &mut K,
    names: &Names,
    program: &Program,
    item: &Element,
) -> Result<(), WriteFailed>
    requires whole { IsTrue out.old.whole }
    requires faults { K.faults sink.old < 2 ^ 63 }
    ensures puts { PutsBytes result (port (K.taken sink.old) (K.faults sink.old) out.old)
        (port (K.taken sink.new) (K.faults sink.new) out.new)
        (line_at out.old.column (codes "<=WM: " ++ tagged_text names.now program.now.classes item.now)) }
    ensures broken { OnErr result (out.new.whole ≡ false) }
{
    put_element_line(out, sink, names, program, b"<=WM: ", item)
}
