//! The values of the terms of a right side.
ghost use Rattle.std.specs.Prelude.{◌≡◌, ◌^◌, ◌<◌, [], true, IsTrue, drop, unwrap_or, false};
ghost use Rattle.std.specs.Option.{option_copied};
ghost use Rattle.ops_base.specs.Matching.{value_of};
ghost use Rattle.ops_base.specs.Valid.{class_of};
ghost use Rattle.ops_base.specs.Values.{nil};
ghost use Rattle.ops_base.specs.WorkingMemory.{field_of, scalar_count};
ghost use Rattle.ops_meaning.specs.Acting.{no_element, first_of, evaluated};
ghost use Rattle.ops_meaning.specs.Computing.{computed};
ghost use Rattle.ops_meaning.specs.Effects.{silent};
ghost use Rattle.act_phase.specs.Asking.{term_asks};
ghost use Rattle.act_phase.specs.Deeds.{Acts, Gives, scene, value_found};
ghost use Rattle.act_phase.specs.Outcomes.{fails_by, is_read_mishap};
ghost use Rattle.act_phase.specs.State.{doing_of, held_in, values_in, valued_of};

use crate::atoms::accept;
use crate::expressions::compute;
use crate::outcome::ActionError;
use crate::state::ActState;
use ops_base::actions::Term;
use ops_base::elements::{Class, Element};
use ops_base::expression::Expr;
use ops_base::matching::bound_value;
use ops_base::symbols::Names;
use ops_base::values::{NOTHING, Value};
use ops_io::{Input, Out, Sink, Source};
use std::slice;

/// The values of one term. No memory is allocated for them.
#[derive(Drop)]
pub(crate) enum Values<'d> {
    One(Value),
    Row(&'d [Value]),
}

impl Values<'_> {
    pub(crate) fn as_slice(&self) -> &[Value]
        ensures { result.now ≡ values_in self.now }
    {
        match self {
            Values::One(value) => slice::from_ref(value),
            Values::Row(values) => values,
        }
    }

    /// The first value, or `nil` if there is none.
    pub(crate) fn first(&self) -> Value
        ensures { result ≡ first_of (values_in self.now) }
    {
        match self.as_slice().first() {
            Some(value) => *value,
            None => NOTHING,
        }
    }
}

/// How many fields an element of this class has before those of its vector attribute.
fn scalar_count(classes: &[Class], class: usize) -> usize
    ensures { result ≡ scalar_count (class_of classes.now class) }
{
    match classes.get(class) {
        Some(class) => class.scalar_count(),
        None => 0,
    }
}

/// The values of the vector attribute, which come after `count` other fields.
fn rest(element: Option<&Element>, count: usize) -> &[Value]
    ensures { result.now ≡ drop count (unwrap_or (option_copied element.entry) no_element).fields }
{
    match element {
        Some(element) => element.fields_from(count),
        None => &[],
    }
}

fn field(element: Option<&Element>, field: usize) -> Value
    ensures { result ≡ field_of (unwrap_or (option_copied element.entry) no_element) field }
{
    match element {
        Some(element) => element.field(field),
        None => NOTHING,
    }
}

fn class(element: Option<&Element>) -> usize
    ensures { result ≡ (unwrap_or (option_copied element.entry) no_element).class }
{
    match element {
        Some(element) => element.class,
        None => 0,
    }
}

/// The value of a variable, found by a search of the bindings.
fn value_in(doing: &ActState<'_>, variable: usize) -> Value
    ensures { result ≡ unwrap_or (value_of doing.now.bindings variable) nil }
{
    bound_value(doing.bindings(), variable).unwrap_or(NOTHING)
}

/// The values of the vector attribute of a cell's element.
fn row<'d>(doing: &'d ActState<'_>, cell: usize) -> &'d [Value]
    ensures { let e = held_in doing.now cell in result.now ≡ drop (scalar_count (class_of doing.now.setting.classes e.class)) e.fields }
{
    let element = doing.element(cell);
    rest(element, scalar_count(doing.classes(), class(element)))
}

/// The value of an expression.
fn expression_value(doing: &ActState<'_>, expr: &Expr) -> Result<Value, ActionError>
    ensures { Gives (λ v. v) result (value_found (computed (λ v. unwrap_or (value_of doing.now.bindings v) nil) expr.now)) }
{
    match compute(doing.alloc(), doing.bindings(), expr)? {
        Ok(value) => Ok(value),
        Err(kind) => Err(ActionError::Fault(kind)),
    }
}

/// The values of a term. They are not copied.
pub(crate) fn evaluate<'d, I: Source, K: Sink>(
    doing: &'d ActState<'_>,
    names: &mut Names,
    term: &Term,
    input: &mut Input,
    source: &mut I,
    out: &mut Out,
    sink: &mut K,
) -> Result<Values<'d>, ActionError>
    requires whole { IsTrue out.old.whole }
    requires writes { K.faults sink.old < 2 ^ 63 }
    requires reads { I.faults source.old < 2 ^ 63 }
    ensures does { Acts (λ v c. valued_of v (doing_of doing.now names.new c)) result
        (scene names.old input.old (I.left source.old) (I.faults source.old) (K.taken sink.old) (K.faults sink.old) out.old)
        (scene names.new input.new (I.left source.new) (I.faults source.new) (K.taken sink.new) (K.faults sink.new) out.new)
        (λ c. silent (evaluated doing.now.setting.classes term.now (doing_of doing.now names.old c))) }
    ensures written { fails_by is_read_mishap result ≡ true → out.new.held ≡ [] }
    ensures untouched { term_asks term.now ≡ false → (input.new ≡ input.old) × (source.new ≡ source.old) }
{
    match term {
        Term::Constant(value) => Ok(Values::One(*value)),
        Term::Variable(variable) => Ok(Values::One(value_in(doing, *variable))),
        Term::One { cell, field: at } => Ok(Values::One(field(doing.element(*cell), *at))),
        Term::Rest { cell } => Ok(Values::Row(row(doing, *cell))),
        Term::Compute(expr) => Ok(Values::One(expression_value(doing, expr)?)),
        Term::Fresh => Ok(Values::One(Value::Symbol(names.fresh()?))),
        Term::Accept => Ok(Values::One(accept(doing.alloc(), names, input, source, out, sink)?)),
    }
}
