//! `act`, which executes a right side: its actions in order, and for each kind of action what it prints and reads.
ghost use Rattle.std.specs.Prelude.{◌≡◌, ◌^◌, ◌<◌, ◌-◌, ◌≤◌, [], true, IsTrue, IfOk, OnOk, fold, false};
ghost use Rattle.std.specs.List.{list_any};
ghost use Rattle.ops_base.specs.Names.{Spellings};
ghost use Rattle.ops_base.specs.Valid.{class_of};
ghost use Rattle.ops_base.specs.WorkingMemory.{Lawful};
ghost use Rattle.ops_io.specs.Coming.{Coming, inlet};
ghost use Rattle.ops_io.specs.Ports.{port};
ghost use Rattle.ops_meaning.specs.Acting.{cell_of, removed, added, modified, bound, first_of, evaluated, made_fields, modified_fields, action_done, actions_done, in_action, acted, actions_of};
ghost use Rattle.ops_meaning.specs.Effects.{PerformsOn, CountsReads, told_as, silent, followed_by};
ghost use Rattle.ops_meaning.specs.Kept.{AreFilledFrom, KeepsNames};
ghost use Rattle.act_phase.specs.Asking.{action_asks, put_asks, right_side_asks, term_asks};
ghost use Rattle.act_phase.specs.Changed.{GoesOnTo};
ghost use Rattle.act_phase.specs.Deeds.{Acts, Does, scene};
ghost use Rattle.act_phase.specs.Held.{HoldsProgram, HoldsElements, HoldsMade, HoldsRules};
ghost use Rattle.act_phase.specs.Outcomes.{setting_of, acted_of, failure_of, fails_by, is_read, is_read_mishap, is_unread};
ghost use Rattle.act_phase.specs.State.{doing_of};

use crate::fields::{made_fields, modified_fields};
use crate::items::put_items;
use crate::outcome::{ActFault, Acted, ActionError};
use crate::state::ActState;
use crate::traces::tell_changes;
use crate::values::evaluate;
use ops_base::actions::{Action, Put, Term};
use ops_base::memory::OutOfMemory;
use ops_base::programs::Program;
use ops_base::rules::Inst;
use ops_base::symbols::Names;
use ops_io::{Input, Out, Sink, Source};
use std::alloc::Global;
use work_store::Store;

/// Makes an element, after all its values are placed.
fn make<I: Source, K: Sink>(
    doing: &mut ActState<'_>,
    names: &mut Names,
    class: usize,
    puts: &[Put],
    input: &mut Input,
    source: &mut I,
    out: &mut Out,
    sink: &mut K,
) -> Result<(), ActionError>
    requires whole { IsTrue out.old.whole }
    requires writes { K.faults sink.old < 2 ^ 63 }
    requires reads { I.faults source.old < 2 ^ 63 }
    ensures does { Acts (λ _ c. doing_of doing.new names.new c) result
        (scene names.old input.old (I.left source.old) (I.faults source.old) (K.taken sink.old) (K.faults sink.old) out.old)
        (scene names.new input.new (I.left source.new) (I.faults source.new) (K.taken sink.new) (K.faults sink.new) out.new)
        (λ c. silent (followed_by (made_fields doing.old.setting.classes (class_of doing.old.setting.classes class) puts.now (doing_of doing.old names.old c))
        (λ f. Ok (added f.doing class f.fields)))) }
    ensures written { fails_by is_read_mishap result ≡ true → out.new.held ≡ [] }
    ensures untouched { list_any put_asks puts.now ≡ false → (input.new ≡ input.old) × (source.new ≡ source.old) }
    ensures goes_on { OnOk result (GoesOnTo doing.old.working doing.new.working) }
    ensures setting { doing.new.setting ≡ doing.old.setting }
{
    let fields = made_fields(doing, names, class, puts, input, source, out, sink)?;
    Ok(doing.make(class, fields)?)
}

/// Replaces a cell's element with a copy that has other fields, after all its values are placed.
fn modify<I: Source, K: Sink>(
    doing: &mut ActState<'_>,
    names: &mut Names,
    cell: usize,
    puts: &[Put],
    input: &mut Input,
    source: &mut I,
    out: &mut Out,
    sink: &mut K,
) -> Result<(), ActionError>
    requires whole { IsTrue out.old.whole }
    requires writes { K.faults sink.old < 2 ^ 63 }
    requires reads { I.faults source.old < 2 ^ 63 }
    ensures does { Acts (λ _ c. doing_of doing.new names.new c) result
        (scene names.old input.old (I.left source.old) (I.faults source.old) (K.taken sink.old) (K.faults sink.old) out.old)
        (scene names.new input.new (I.left source.new) (I.faults source.new) (K.taken sink.new) (K.faults sink.new) out.new)
        (λ c. silent (followed_by (modified_fields doing.old.setting.classes puts.now cell (doing_of doing.old names.old c))
        (λ f. Ok (modified f.doing cell f.fields)))) }
    ensures written { fails_by is_read_mishap result ≡ true → out.new.held ≡ [] }
    ensures untouched { list_any put_asks puts.now ≡ false → (input.new ≡ input.old) × (source.new ≡ source.old) }
    ensures goes_on { OnOk result (GoesOnTo doing.old.working doing.new.working) }
    ensures setting { doing.new.setting ≡ doing.old.setting }
{
    let fields = modified_fields(doing, names, cell, puts, input, source, out, sink)?;
    Ok(doing.modify(cell, fields)?)
}

/// Binds a variable to the first value of a term, or to `nil` if the term has no value.
fn bind<I: Source, K: Sink>(
    doing: &mut ActState<'_>,
    names: &mut Names,
    variable: usize,
    term: &Term,
    input: &mut Input,
    source: &mut I,
    out: &mut Out,
    sink: &mut K,
) -> Result<(), ActionError>
    requires whole { IsTrue out.old.whole }
    requires writes { K.faults sink.old < 2 ^ 63 }
    requires reads { I.faults source.old < 2 ^ 63 }
    ensures does { Acts (λ _ c. doing_of doing.new names.new c) result
        (scene names.old input.old (I.left source.old) (I.faults source.old) (K.taken sink.old) (K.faults sink.old) out.old)
        (scene names.new input.new (I.left source.new) (I.faults source.new) (K.taken sink.new) (K.faults sink.new) out.new)
        (λ c. silent (followed_by (evaluated doing.old.setting.classes term.now (doing_of doing.old names.old c))
        (λ v. Ok (bound v.doing variable (first_of v.values))))) }
    ensures written { fails_by is_read_mishap result ≡ true → out.new.held ≡ [] }
    ensures untouched { term_asks term.now ≡ false → (input.new ≡ input.old) × (source.new ≡ source.old) }
    ensures setting { doing.new.setting ≡ doing.old.setting }
{
    let values = evaluate(doing, names, term, input, source, out, sink)?;
    let value = values.first();
    Ok(doing.bind(variable, value)?)
}

/// Removes the elements of these cells.
fn remove(doing: &mut ActState<'_>, cells: &[usize]) -> Result<(), OutOfMemory>
    ensures does { OnOk result ((names : Spellings) (coming : Coming)
        → doing_of doing.new names coming ≡ fold (λ d c. removed d (cell_of d c).tag) (doing_of doing.old names coming) cells.now) }
    ensures goes_on { OnOk result (GoesOnTo doing.old.working doing.new.working) }
    ensures setting { doing.new.setting ≡ doing.old.setting }
{
    for cell in cells {
        doing.remove(*cell)?;
    }
    Ok(())
}

/// Makes an element, and prints it if elements are traced.
fn make_and_tell<I: Source, K: Sink>(
    doing: &mut ActState<'_>,
    names: &mut Names,
    class: usize,
    puts: &[Put],
    input: &mut Input,
    source: &mut I,
    out: &mut Out,
    sink: &mut K,
) -> Result<(), ActionError>
    requires whole { IsTrue out.old.whole }
    requires writes { K.faults sink.old < 2 ^ 63 }
    requires reads { I.faults source.old < 2 ^ 63 }
    ensures does { Acts (λ _ c. doing_of doing.new names.new c) result
        (scene names.old input.old (I.left source.old) (I.faults source.old) (K.taken sink.old) (K.faults sink.old) out.old)
        (scene names.new input.new (I.left source.new) (I.faults source.new) (K.taken sink.new) (K.faults sink.new) out.new)
        (λ c. action_done doing.old.setting out.old.column (Action.Make class puts.now) (doing_of doing.old names.old c)) }
    ensures written { fails_by is_read_mishap result ≡ true → out.new.held ≡ [] }
    ensures untouched { list_any put_asks puts.now ≡ false → (input.new ≡ input.old) × (source.new ≡ source.old) }
    ensures setting { doing.new.setting ≡ doing.old.setting }
{
    let since = doing.changes().len();
    make(doing, names, class, puts, input, source, out, sink)?;
    Ok(tell_changes(doing, names, since, out, sink)?)
}

/// Replaces a cell's element with a copy that has other fields, and prints both if elements are traced.
fn modify_and_tell<I: Source, K: Sink>(
    doing: &mut ActState<'_>,
    names: &mut Names,
    cell: usize,
    puts: &[Put],
    input: &mut Input,
    source: &mut I,
    out: &mut Out,
    sink: &mut K,
) -> Result<(), ActionError>
    requires whole { IsTrue out.old.whole }
    requires writes { K.faults sink.old < 2 ^ 63 }
    requires reads { I.faults source.old < 2 ^ 63 }
    ensures does { Acts (λ _ c. doing_of doing.new names.new c) result
        (scene names.old input.old (I.left source.old) (I.faults source.old) (K.taken sink.old) (K.faults sink.old) out.old)
        (scene names.new input.new (I.left source.new) (I.faults source.new) (K.taken sink.new) (K.faults sink.new) out.new)
        (λ c. action_done doing.old.setting out.old.column (Action.Modify cell puts.now) (doing_of doing.old names.old c)) }
    ensures written { fails_by is_read_mishap result ≡ true → out.new.held ≡ [] }
    ensures untouched { list_any put_asks puts.now ≡ false → (input.new ≡ input.old) × (source.new ≡ source.old) }
    ensures setting { doing.new.setting ≡ doing.old.setting }
{
    let since = doing.changes().len();
    modify(doing, names, cell, puts, input, source, out, sink)?;
    Ok(tell_changes(doing, names, since, out, sink)?)
}

/// Does an action.
fn act_one<I: Source, K: Sink>(
    doing: &mut ActState<'_>,
    names: &mut Names,
    action: &Action,
    input: &mut Input,
    source: &mut I,
    out: &mut Out,
    sink: &mut K,
) -> Result<(), ActionError>
    requires whole { IsTrue out.old.whole }
    requires writes { K.faults sink.old < 2 ^ 63 }
    requires reads { I.faults source.old < 2 ^ 63 }
    ensures does { Acts (λ _ c. doing_of doing.new names.new c) result
        (scene names.old input.old (I.left source.old) (I.faults source.old) (K.taken sink.old) (K.faults sink.old) out.old)
        (scene names.new input.new (I.left source.new) (I.faults source.new) (K.taken sink.new) (K.faults sink.new) out.new)
        (λ c. action_done doing.old.setting out.old.column action.now (doing_of doing.old names.old c)) }
    ensures written { fails_by is_read_mishap result ≡ true → out.new.held ≡ [] }
    ensures untouched { action_asks action.now ≡ false → (input.new ≡ input.old) × (source.new ≡ source.old) }
    ensures setting { doing.new.setting ≡ doing.old.setting }
{
    match action {
        Action::Make { class, puts } => {
            let puts = puts.as_slice();
            make_and_tell(doing, names, *class, puts, input, source, out, sink)
        }
        Action::Modify { cell, puts } => {
            let puts = puts.as_slice();
            modify_and_tell(doing, names, *cell, puts, input, source, out, sink)
        }
        Action::Remove { cells } => {
            let since = doing.changes().len();
            remove(doing, cells.as_slice())?;
            Ok(tell_changes(doing, names, since, out, sink)?)
        }
        Action::Write { items } => {
            let items = items.as_slice();
            put_items(doing, names, items, input, source, out, sink)
        }
        Action::Bind { variable, term } => {
            bind(doing, names, *variable, term, input, source, out, sink)
        }
        Action::Cbind { .. } => Ok(doing.bind_cell()?),
        Action::Halt => {
            doing.halt();
            Ok(())
        }
        Action::Build { template, holes } => Ok(doing.build(*template, holes.as_slice())?),
    }
}

/// Does the action with this number.
pub(crate) fn act_at<I: Source, K: Sink>(
    doing: &mut ActState<'_>,
    names: &mut Names,
    number: usize,
    action: &Action,
    input: &mut Input,
    source: &mut I,
    out: &mut Out,
    sink: &mut K,
) -> Result<(), ActFault>
    requires whole { IsTrue out.old.whole }
    requires writes { K.faults sink.old < 2 ^ 63 }
    requires reads { I.faults source.old < 2 ^ 63 }
    ensures does { Does (λ _ c. doing_of doing.new names.new c) failure_of is_read result
        (scene names.old input.old (I.left source.old) (I.faults source.old) (K.taken sink.old) (K.faults sink.old) out.old)
        (scene names.new input.new (I.left source.new) (I.faults source.new) (K.taken sink.new) (K.faults sink.new) out.new)
        (λ c. told_as (λ d. d) (in_action number) (action_done doing.old.setting out.old.column action.now (doing_of doing.old names.old c))) }
    ensures written { is_unread result ≡ true → out.new.held ≡ [] }
    ensures untouched { action_asks action.now ≡ false → (input.new ≡ input.old) × (source.new ≡ source.old) }
    ensures setting { doing.new.setting ≡ doing.old.setting }
{
    match act_one(doing, names, action, input, source, out, sink) {
        Ok(()) => Ok(()),
        Err(mishap) => Err(mishap.in_action(number)),
    }
}

pub(crate) fn actions_of(program: &Program, rule: usize) -> &[Action]
    ensures { result.now ≡ actions_of program.now.rules rule }
{
    match program.rules.as_slice().get(rule) {
        Some(rule) => rule.actions.as_slice(),
        None => &[],
    }
}

/// Does actions in order.
fn act_all<I: Source, K: Sink>(
    doing: &mut ActState<'_>,
    names: &mut Names,
    actions: &[Action],
    input: &mut Input,
    source: &mut I,
    out: &mut Out,
    sink: &mut K,
) -> Result<(), ActFault>
    requires whole { IsTrue out.old.whole }
    requires writes { K.faults sink.old < 2 ^ 63 }
    requires reads { I.faults source.old < 2 ^ 63 }
    ensures does { Does (λ _ c. doing_of doing.new names.new c) failure_of is_read result
        (scene names.old input.old (I.left source.old) (I.faults source.old) (K.taken sink.old) (K.faults sink.old) out.old)
        (scene names.new input.new (I.left source.new) (I.faults source.new) (K.taken sink.new) (K.faults sink.new) out.new)
        (λ c. actions_done doing.old.setting out.old.column 1 actions.now (doing_of doing.old names.old c)) }
    ensures written { is_unread result ≡ true → out.new.held ≡ [] }
    ensures untouched { list_any action_asks actions.now ≡ false → (input.new ≡ input.old) × (source.new ≡ source.old) }
{
    for (before, action) in actions.iter().enumerate() {
        let number = before + 1;
        act_at(doing, names, number, action, input, source, out, sink)?;
    }
    Ok(())
}

/// Does the right side of an instantiation, whose first new element gets the tag `next_tag`. The store is only read: an
/// element of the left side is looked up there, and its fields are copied only if it is modified. Before an `accept`,
/// everything that was put is written. If `watch` is 2, the elements that an action removed and made are printed after
/// the action. For that, an element of the left side is looked up in the store; for one that the right side made
/// itself, the changes are searched backwards to the one that made it. No session lasts long enough to use up the tags;
/// a tag beyond 64 bits is reported as out of memory.
pub fn act<I: Source, K: Sink>(
    alloc: Global,
    program: &Program,
    names: &mut Names,
    store: &Store,
    inst: &Inst,
    next_tag: u64,
    watch: u8,
    input: &mut Input,
    source: &mut I,
    out: &mut Out,
    sink: &mut K,
) -> Result<Acted, ActFault>
    requires whole { IsTrue out.old.whole }
    requires faults { K.faults sink.old < 2 ^ 63 }
    requires reads { I.faults source.old < 2 ^ 63 }
    requires tags { store.now.last < next_tag }
    requires room { next_tag ≤ 2 ^ 63 }
    ensures acts { PerformsOn (λ a c. acted_of a names.new c) failure_of result
        (inlet input.old (I.left source.old) (I.faults source.old)) (inlet input.new (I.left source.new) (I.faults source.new))
        (port (K.taken sink.old) (K.faults sink.old) out.old) (port (K.taken sink.new) (K.faults sink.new) out.new)
        (λ c. acted (setting_of program.now watch) out.old.column inst.now
        (record { wm = store.now.elements; last = next_tag - 1; names = names.old; coming = c })) }
    ensures lawful { IfOk result (λ a. Lawful store.now.elements (next_tag - 1) a.changes) }
    ensures tag { IfOk result (λ a. next_tag ≤ a.next_tag) }
    ensures reads { CountsReads (is_unread result) (I.faults source.old) (I.faults source.new) }

    // If a read fails, everything that was put before is written.
    ensures written { is_unread result ≡ true → out.new.held ≡ [] }

    // If the right side has no `accept`, the input is unchanged.
    ensures untouched { right_side_asks program.now.rules inst.now.rule ≡ false → (input.new ≡ input.old) × (source.new ≡ source.old) }

    // Each symbol keeps its spelling, even after a fault.
    ensures names { KeepsNames names.old names.new }

    // Each production that it built is one of the program's templates, with other constants in the place of some.
    ensures built { IfOk result (λ a. AreFilledFrom program.now.templates a.built) }

    // If the names hold each symbol of the program and of the store before the call, they still do after it, and they
    // hold each symbol of the elements that the changes make, and of the productions that were built.
    ensures held { HoldsProgram names.old program.now → HoldsElements names.old store.now.elements
        → HoldsProgram names.new program.now × HoldsElements names.new store.now.elements × IfOk result (λ a. HoldsMade names.new a.changes × HoldsRules names.new a.built) }
{
    // only the proof needs this: it reads the store to get at the store's invariant
    let last = store.last();
    prove!(last < next_tag);
    let mut doing = ActState::new(alloc, program, watch, store, inst, next_tag)?;
    let actions = actions_of(program, inst.rule);
    act_all(&mut doing, names, actions, input, source, out, sink)?;
    Ok(doing.finish())
}
