//! `Acting`, a right side that is executed one action at a time.
ghost use Rattle.std.specs.Prelude.{◌≡◌, ◌+◌, ◌-◌, ◌^◌, ◌<◌, [], true, false, length, drop, slice_get, IsTrue, IfOk, OnOk, Some};
ghost use Rattle.ops_base.specs.Names.{Spellings};
ghost use Rattle.ops_base.specs.declared.actions.Action.{Action};
ghost use Rattle.ops_io.specs.Coming.{Coming};
ghost use Rattle.ops_meaning.specs.Acting.{actions_of, begun, in_action, action_done, left_by};
ghost use Rattle.ops_meaning.specs.Effects.{told_as};
ghost use Rattle.act_phase.specs.Asking.{action_asks};
ghost use Rattle.act_phase.specs.Deeds.{Does, scene};
ghost use Rattle.act_phase.specs.Outcomes.{acted_of, failure_of, is_read, is_unread, setting_of};
ghost use Rattle.act_phase.specs.State.{doing_of};

use crate::outcome::{ActFault, Acted};
use crate::right_side::{act_at, actions_of};
use crate::state::ActState;
use ops_base::actions::Action;
use ops_base::elements::Change;
use ops_base::memory::OutOfMemory;
use ops_base::programs::Program;
use ops_base::rules::Inst;
use ops_base::symbols::Names;
use ops_io::{Input, Out, Sink, Source};
use std::alloc::Global;
use std::marker::Model;
use work_store::Store;

/// A right side between two of its actions. It borrows the program and the store in which it looks elements up. The
/// store may be an excerpt of working memory.
#[derive(Drop)]
pub struct Acting<'s> {
    doing: ActState<'s>,
    actions: &'s [Action],
    done: usize,
}

impl<'s> Model for Acting<'s> {
    ghost use Rattle.std.specs.Coded.{codes};
    ghost use Rattle.ops_base.specs.ExpressionCode.{formula_code};
    ghost use Rattle.act_phase.specs.State.{Between};

    ghost Value = { Between };

    ghost coded = { Prim.hlevel (codes, formula_code) };

    ghost view = { λ a. record { state = a.doing; actions = a.actions.now; done = a.done } };
}

impl<'s> Acting<'s> {
    /// No action is done yet. Copies no element.
    pub fn begin(
        alloc: Global,
        program: &'s Program,
        watch: u8,
        store: &'s Store,
        inst: &Inst,
        next_tag: u64,
    ) -> Result<Acting<'s>, OutOfMemory>
        requires { store.now.last < next_tag }
        ensures setting { IfOk result (λ a. a.state.setting ≡ setting_of program.now watch) }
        ensures actions { IfOk result (λ a. a.actions ≡ actions_of program.now.rules inst.now.rule) }
        ensures none { IfOk result (λ a. a.done ≡ 0) }
        ensures begins { IfOk result (λ a. (names : Spellings) (coming : Coming) → doing_of a.state names coming
            ≡ begun (setting_of program.now watch) inst.now (record { wm = store.now.elements; last = next_tag - 1; names = names; coming = coming })) }
    {
        let doing = ActState::new(alloc, program, watch, store, inst, next_tag)?;
        let actions = actions_of(program, inst.rule);
        let done = 0;
        Ok(Acting {
            doing,
            actions,
            done,
        })
    }

    /// The actions that are still to be done.
    pub fn left(&self) -> &'s [Action]
        ensures { result.now ≡ drop self.now.done self.now.actions }
    {
        match self.actions.get(self.done..) {
            Some(left) => left,
            None => &[],
        }
    }

    /// The changes to working memory so far, in order.
    pub fn changes(&self) -> &[Change]
        ensures { result.now ≡ self.now.state.working.changes }
    {
        self.doing.changes()
    }

    /// Does the next action. After a refusal it must not be used again.
    pub fn next<I: Source, K: Sink>(
        &mut self,
        names: &mut Names,
        input: &mut Input,
        source: &mut I,
        out: &mut Out,
        sink: &mut K,
    ) -> Result<(), ActFault>
        requires some { self.old.done < length self.old.actions }
        requires whole { IsTrue out.old.whole }
        requires writes { K.faults sink.old < 2 ^ 63 }
        requires reads { I.faults source.old < 2 ^ 63 }
        ensures does { (a : Action) → slice_get self.old.actions self.old.done ≡ Some a
            → Does (λ _ c. doing_of self.new.state names.new c) failure_of is_read result
            (scene names.old input.old (I.left source.old) (I.faults source.old) (K.taken sink.old) (K.faults sink.old) out.old)
            (scene names.new input.new (I.left source.new) (I.faults source.new) (K.taken sink.new) (K.faults sink.new) out.new)
            (λ c. told_as (λ d. d) (in_action (self.old.done + 1)) (action_done self.old.state.setting out.old.column a (doing_of self.old.state names.old c))) }
        ensures written { is_unread result ≡ true → out.new.held ≡ [] }
        ensures untouched { (a : Action) → slice_get self.old.actions self.old.done ≡ Some a
            → action_asks a ≡ false → (input.new ≡ input.old) × (source.new ≡ source.old) }
        ensures done { OnOk result (self.new.done ≡ self.old.done + 1) }
        ensures actions { self.new.actions ≡ self.old.actions }
        ensures setting { self.new.state.setting ≡ self.old.state.setting }
    {
        let number = self.done + 1;
        let Some(action) = self.actions.get(self.done) else {
            unreachable!()
        };
        let doing = &mut self.doing;
        act_at(doing, names, number, action, input, source, out, sink)?;
        self.done = number;
        Ok(())
    }

    /// The result of the actions done so far. Allocates nothing.
    pub fn finish(self) -> Acted
        ensures left { (names : Spellings) (coming : Coming) → acted_of result names coming ≡ left_by (doing_of self.entry.state names coming) }
        ensures positive { 0 < result.next_tag }
    {
        self.doing.finish()
    }
}
