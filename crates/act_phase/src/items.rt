//! What `write` prints.
ghost use Rattle.std.specs.Prelude.{◌≡◌, ◌^◌, ◌<◌, ℕ, [], true, IsTrue, OnErr, false, length};
ghost use Rattle.ops_io.specs.Ports.{port, PutsBytes};
ghost use Rattle.std.specs.List.{list_any};
ghost use Rattle.ops_base.specs.declared.actions.Item.TheVariants as item;
ghost use Rattle.ops_meaning.specs.Acting.{lead_after, item_done, items_done};
ghost use Rattle.ops_meaning.specs.Layout.{value_text, value_bytes, values_bytes, lead_bytes, Apart};
ghost use Rattle.ops_print.specs.Leads.{lead_of};
ghost use Rattle.act_phase.specs.Asking.{item_asks, term_asks};
ghost use Rattle.act_phase.specs.Deeds.{Acts, scene};
ghost use Rattle.act_phase.specs.Outcomes.{fails_by, is_read_mishap};
ghost use Rattle.act_phase.specs.State.{doing_of};

use crate::outcome::ActionError;
use crate::state::ActState;
use crate::values::evaluate;
use ops_base::actions::{Item, Term};
use ops_base::symbols::Names;
use ops_base::values::Value;
use ops_io::{Input, Out, Sink, Source, WriteFailed};
use ops_print::{Lead, put_lead, put_tab, put_value, value_length};

/// The length of a value, if its lead needs it.
fn length_for(names: &Names, lead: Lead, value: &Value) -> usize
    ensures { (column : ℕ) → lead_bytes (lead_of lead) column result
        ≡ lead_bytes (lead_of lead) column (length (value_text names.now value.now)) }
{
    match lead {
        Lead::RightIn(_) => value_length(names, value),
        Lead::Apart | Lead::Close => 0,
    }
}

/// Puts a value after its lead.
fn put_led<K: Sink>(
    out: &mut Out,
    sink: &mut K,
    names: &Names,
    lead: Lead,
    value: &Value,
) -> Result<(), WriteFailed>
    requires whole { IsTrue out.old.whole }
    requires faults { K.faults sink.old < 2 ^ 63 }
    ensures puts { PutsBytes result (port (K.taken sink.old) (K.faults sink.old) out.old)
        (port (K.taken sink.new) (K.faults sink.new) out.new) (value_bytes names.now (lead_of lead) out.old.column value.now) }
    ensures broken { OnErr result (out.new.whole ≡ false) }
{
    put_lead(out, sink, lead, length_for(names, lead, value))?;
    put_value(out, sink, names, value)
}

/// Puts values: the first after this lead, the others apart.
fn put_values<K: Sink>(
    out: &mut Out,
    sink: &mut K,
    names: &Names,
    lead: Lead,
    values: &[Value],
) -> Result<(), WriteFailed>
    requires whole { IsTrue out.old.whole }
    requires faults { K.faults sink.old < 2 ^ 63 }
    ensures puts { PutsBytes result (port (K.taken sink.old) (K.faults sink.old) out.old)
        (port (K.taken sink.new) (K.faults sink.new) out.new) (values_bytes names.now (lead_of lead) out.old.column values.now) }
    ensures broken { OnErr result (out.new.whole ≡ false) }
{
    let mut lead = lead;
    for value in values {
        put_led(out, sink, names, lead, value)?;
        lead = Lead::Apart;
    }
    Ok(())
}

/// The lead that an item leaves to the value after it.
fn lead_after(item: &Item) -> Lead
    ensures { lead_of result ≡ lead_after item.now }
{
    match item {
        Item::Print(_) | Item::Crlf => Lead::Apart,
        Item::TabTo(_) => Lead::Close,
        Item::RightIn(width) => Lead::RightIn(usize::from(*width)),
    }
}

/// Puts the values of a term. All of them are evaluated before the first one is put.
fn print<I: Source, K: Sink>(
    doing: &ActState<'_>,
    names: &mut Names,
    lead: Lead,
    term: &Term,
    input: &mut Input,
    source: &mut I,
    out: &mut Out,
    sink: &mut K,
) -> Result<(), ActionError>
    requires whole { IsTrue out.old.whole }
    requires writes { K.faults sink.old < 2 ^ 63 }
    requires reads { I.faults source.old < 2 ^ 63 }
    ensures does { Acts (λ _ c. doing_of doing.now names.new c) result
        (scene names.old input.old (I.left source.old) (I.faults source.old) (K.taken sink.old) (K.faults sink.old) out.old)
        (scene names.new input.new (I.left source.new) (I.faults source.new) (K.taken sink.new) (K.faults sink.new) out.new)
        (λ c. item_done doing.now.setting.classes (lead_of lead) out.old.column (item.Print term.now) (doing_of doing.now names.old c)) }
    ensures written { fails_by is_read_mishap result ≡ true → out.new.held ≡ [] }
    ensures untouched { term_asks term.now ≡ false → (input.new ≡ input.old) × (source.new ≡ source.old) }
{
    let values = evaluate(doing, names, term, input, source, out, sink)?;
    Ok(put_values(out, sink, names, lead, values.as_slice())?)
}

/// Puts one item.
fn put_item<I: Source, K: Sink>(
    doing: &ActState<'_>,
    names: &mut Names,
    lead: Lead,
    item: &Item,
    input: &mut Input,
    source: &mut I,
    out: &mut Out,
    sink: &mut K,
) -> Result<(), ActionError>
    requires whole { IsTrue out.old.whole }
    requires writes { K.faults sink.old < 2 ^ 63 }
    requires reads { I.faults source.old < 2 ^ 63 }
    ensures does { Acts (λ _ c. doing_of doing.now names.new c) result
        (scene names.old input.old (I.left source.old) (I.faults source.old) (K.taken sink.old) (K.faults sink.old) out.old)
        (scene names.new input.new (I.left source.new) (I.faults source.new) (K.taken sink.new) (K.faults sink.new) out.new)
        (λ c. item_done doing.now.setting.classes (lead_of lead) out.old.column item.now (doing_of doing.now names.old c)) }
    ensures written { fails_by is_read_mishap result ≡ true → out.new.held ≡ [] }
    ensures untouched { item_asks item.now ≡ false → (input.new ≡ input.old) × (source.new ≡ source.old) }
{
    match item {
        Item::Print(term) => print(doing, names, lead, term, input, source, out, sink),
        Item::Crlf => Ok(out.put(sink, b"\n")?),
        Item::TabTo(column) => Ok(put_tab(out, sink, usize::from(*column))?),
        Item::RightIn(_) => Ok(()),
    }
}

/// Puts the items of a `write`.
pub(crate) fn put_items<I: Source, K: Sink>(
    doing: &ActState<'_>,
    names: &mut Names,
    items: &[Item],
    input: &mut Input,
    source: &mut I,
    out: &mut Out,
    sink: &mut K,
) -> Result<(), ActionError>
    requires whole { IsTrue out.old.whole }
    requires writes { K.faults sink.old < 2 ^ 63 }
    requires reads { I.faults source.old < 2 ^ 63 }
    ensures does { Acts (λ _ c. doing_of doing.now names.new c) result
        (scene names.old input.old (I.left source.old) (I.faults source.old) (K.taken sink.old) (K.faults sink.old) out.old)
        (scene names.new input.new (I.left source.new) (I.faults source.new) (K.taken sink.new) (K.faults sink.new) out.new)
        (λ c. items_done doing.now.setting.classes Apart out.old.column items.now (doing_of doing.now names.old c)) }
    ensures written { fails_by is_read_mishap result ≡ true → out.new.held ≡ [] }
    ensures untouched { list_any item_asks items.now ≡ false → (input.new ≡ input.old) × (source.new ≡ source.old) }
{
    let mut lead = Lead::Apart;
    for item in items {
        put_item(doing, names, lead, item, input, source, out, sink)?;
        lead = lead_after(item);
    }
    Ok(())
}
