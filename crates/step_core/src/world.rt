//! The world of a match, and its steps: a change is fed, a task is activated, an entry is finished, the lines are
//! cleared.
ghost use Rattle.std.specs.Prelude.{◌≡◌, ◌≤◌, ◌<◌, ◌+◌, ◌-◌, length, remove, slice_get, Some};
ghost use Rattle.net_base.specs.declared.tasks.Task.{Task};
ghost use Rattle.step_core.specs.inner.Worked.{AreWorked};

use crate::done::{Done, deliver, lift, move_to_done};
use crate::feeding::add_fed;
use crate::start::first_lines;
use crate::worked::{act_on, clear_worked, worked_lines};
use net_base::net::Net;
use net_base::tasks::Task;
use ops_base::elements::Change;
use ops_base::memory::OutOfMemory;
use std::alloc::Global;
use token_line::laws::joined_tokens_have_one_line;
use token_line::{Line, line_of};
use work_store::Store;

/// One step: a change, the place of a task in flight, or the place of an entry that is done.
#[derive(Debug, Drop)]
pub enum Step {
    Feed(Change),
    Activate(usize),
    Finish(usize),
}

/// The lines, the tasks in flight, the entries of the tasks that were activated and are not finished, and the total
/// number of these tasks and entries. The last task in flight is the next one to be performed. The world keeps a list
/// of the lines that have entries.
#[derive(Drop)]
pub struct World {
    lines: Vec<Line>,
    flight: Vec<Task>,
    done: Vec<Done>,
    counter: u64,
    worked: Vec<usize>,
    ghost some: { 1 ≤ length lines.items },
    ghost counted: { counter ≡ length flight.items + length done.items },
    ghost told: { AreWorked lines.items worked.items },
}

/// The lines of a world and its tasks in flight, which are all of it if no entry is waiting to be finished.
#[derive(Drop)]
pub struct Parts {
    pub lines: Vec<Line>,
    pub flight: Vec<Task>,
}

impl World {
    ghost use Rattle.std.specs.Prelude.{IfOk, List, OnErr, OnOk, map, ℕ};
    ghost use Rattle.work_store.specs.Stored.{Stored};
    ghost use Rattle.net_base.specs.declared.nodes.Alpha.{Alpha};
    ghost use Rattle.net_base.specs.declared.nodes.Node.{Node};
    ghost use Rattle.net_base.specs.Tokens.{Elements};
    ghost use Rattle.step_core.specs.Machine.{Activate, Clear, Feed, Finishes, Placing, Steps, start};
    ghost use Rattle.token_line.specs.Held.{Agrees};
    ghost use Rattle.step_core.specs.Laws.{IsPlaced};
    ghost use Rattle.step_core.specs.Machine.{place_of};
    ghost use Rattle.step_core.specs.Working.{IsLast, IsWorked, but_last};
    ghost use Rattle.step_core.specs.Worlds.{AreNumbered, ArePartsReady, IsReady, IsWithin, Takes, joined, line_of_task, numbers_of, placed, seen, step_of, world_of};

    /// This many lines, with nothing pending. It makes each line and looks at each node.
    pub fn start(alloc: Global, net: &Net, lines: usize) -> Result<World, OutOfMemory>
        requires { 1 ≤ lines }
        ensures start { IfOk result (λ w. (elements : Elements) → world_of w ≡ start net.now.nodes (placed elements net.now.nodes lines) lines) }
        ensures ready { IfOk result (λ w. (s : Stored) → IsReady net.now.nodes s w) }
        ensures numbered { IfOk result (λ w. AreNumbered w.lines.items) }
        ensures count { IfOk result (λ w. length w.lines.items ≡ lines) }
        ensures placed { (elements : Elements) → IsPlaced elements net.now.alphas net.now.nodes (placed elements net.now.nodes lines) lines }
    {
        joined_tokens_have_one_line();
        let lines = first_lines(alloc, net, lines)?;
        Ok(World {
            lines,
            flight: Vec::new(alloc),
            done: Vec::new(alloc),
            counter: 0,
            worked: Vec::new(alloc),
        })
    }

    /// Returns the lines and the tasks in flight, for a caller that performs the tasks by other means. Takes no
    /// memory.
    pub fn into_parts(self) -> Parts
        requires { length self.done.items ≡ 0 }
        ensures lines { result.lines ≡ self.lines }
        ensures flight { result.flight ≡ self.flight }
        ensures some { 1 ≤ length result.lines.items }
        ensures world { world_of self ≡ joined (map seen result.lines.items) result.flight.items }
        ensures ready { (nodes : List Node) (s : Stored) → IsReady nodes s self → ArePartsReady nodes s result }
    {
        Parts {
            lines: self.lines,
            flight: self.flight,
        }
    }

    /// The world with these lines and tasks in flight. It looks at each line, and takes memory for the places of
    /// those that have entries.
    pub fn from_parts(alloc: Global, parts: Parts) -> Result<World, OutOfMemory>
        requires { 1 ≤ length parts.lines.items }
        ensures lines { IfOk result (λ w. w.lines ≡ parts.lines) }
        ensures flight { IfOk result (λ w. w.flight ≡ parts.flight) }
        ensures world { IfOk result (λ w. world_of w ≡ joined (map seen parts.lines.items) parts.flight.items) }
        ensures ready { IfOk result (λ w. (nodes : List Node) (s : Stored) → ArePartsReady nodes s parts → IsReady nodes s w) }
    {
        let worked = worked_lines(alloc, parts.lines.as_slice())?;
        let counter = parts.flight.len() as u64;
        Ok(World {
            lines: parts.lines,
            flight: parts.flight,
            done: Vec::new(alloc),
            counter,
            worked,
        })
    }

    /// The lines, in the order of their numbers. Takes no memory.
    pub fn lines(&self) -> &[Line]
        ensures lines { result.now ≡ self.now.lines.items }
        ensures some { 1 ≤ length self.now.lines.items }
    {
        self.lines.as_slice()
    }

    /// The places of the lines that have entries, each once. Takes no memory.
    pub fn worked(&self) -> &[usize]
        ensures { AreWorked self.now.lines.items result.now }
    {
        self.worked.as_slice()
    }

    /// The tasks in flight; the last one is performed next. Takes no memory.
    pub fn flight(&self) -> &[Task]
        ensures { result.now ≡ self.now.flight.items }
    {
        self.flight.as_slice()
    }

    /// How many tasks are in flight. Takes no memory.
    pub fn in_flight(&self) -> usize
        ensures { result ≡ length self.now.flight.items }
    {
        self.flight.len()
    }

    /// How many entries are done but not finished. Takes no memory.
    pub fn done(&self) -> usize
        ensures { result ≡ length self.now.done.items }
    {
        self.done.len()
    }

    /// How many tasks and entries are pending. Takes no memory.
    pub fn counter(&self) -> u64
        ensures counter { result ≡ self.now.counter }
        ensures sum { self.now.counter ≡ length self.now.flight.items + length self.now.done.items }
    {
        self.counter
    }

    /// The number of the line on which the task at that place is performed, at the cost of `token_line::line_of`.
    pub fn line_at(&self, net: &Net, store: &Store, index: usize) -> usize
        requires ready { IsReady net.now.nodes store.now self.now }
        requires within { index < length self.now.flight.items }
        ensures placed { (elements : Elements) (x : Task) → Agrees store.now elements → slice_get self.now.flight.items index ≡ Some x → result ≡ place_of (placed elements net.now.nodes (length self.now.lines.items)) x }
        ensures below { result < length self.now.lines.items }
    {
        line_of(net, store, &self.flight[index], self.lines.len())
    }

    /// Puts into flight one task for each node that takes the change's element. It looks up the alphas that the
    /// element can pass, tests these, and sorts the nodes that take it. The tasks are built in place. If memory runs
    /// out, nothing has changed.
    pub fn feed(
        &mut self,
        alloc: Global,
        net: &Net,
        store: &Store,
        change: &Change,
    ) -> Result<(), OutOfMemory>
        requires ready { IsReady net.now.nodes store.now self.old }
        requires within { IsWithin store.now self.old (Step.Feed change.now) }
        ensures steps { OnOk result (Takes net.now.alphas net.now.nodes store.now self.old (Feed change.now) self.new) }
        ensures ready { IsReady net.now.nodes store.now self.new }
        ensures err { OnErr result (world_of self.new ≡ world_of self.old) }
        ensures lines { numbers_of self.new ≡ numbers_of self.old }
        ensures count { length self.new.lines.items ≡ length self.old.lines.items }
    {
        let before = self.flight.len();
        add_fed(alloc, net, store, change, &mut self.flight)?;
        self.counter += (self.flight.len() - before) as u64;
        Ok(())
    }

    /// Performs the task at that place on its line, at the cost of `activation::activate`. It also moves the tasks in
    /// flight after that place, so for the last one there is no extra cost. If memory runs out, nothing has changed.
    pub fn activate(
        &mut self,
        alloc: Global,
        net: &Net,
        store: &Store,
        index: usize,
    ) -> Result<(), OutOfMemory>
        requires ready { IsReady net.now.nodes store.now self.old }
        requires within { IsWithin store.now self.old (Step.Activate index) }
        ensures steps { OnOk result (Takes net.now.alphas net.now.nodes store.now self.old (Activate index) self.new) }
        ensures ready { IsReady net.now.nodes store.now self.new }
        ensures err { OnErr result (world_of self.new ≡ world_of self.old) }
        ensures lines { numbers_of self.new ≡ numbers_of self.old }
        ensures count { length self.new.lines.items ≡ length self.old.lines.items }
    {
        self.done.reserve(1)?;
        let mut children = Vec::new(alloc);
        let task = &self.flight[index];
        act_on(
            &mut self.lines,
            &mut self.worked,
            alloc,
            net,
            store,
            &|_line: usize| (),
            task,
            &mut children,
        )?;
        move_to_done(&mut self.flight, index, children, &mut self.done);
        Ok(())
    }

    /// Puts the children of the entry at that place into flight, and drops the entry. It moves these and the entries
    /// after that place. If memory runs out, nothing has changed.
    pub fn finish(&mut self, index: usize) -> Result<(), OutOfMemory>
        requires { index < length self.old.done.items }
        ensures steps { OnOk result (Finishes (world_of self.old) index (world_of self.new)) }
        ensures ready { (nodes : List Node) (s : Stored) → IsReady nodes s self.old → IsReady nodes s self.new }
        ensures err { OnErr result (world_of self.new ≡ world_of self.old) }
        ensures lines { numbers_of self.new ≡ numbers_of self.old }
        ensures count { length self.new.lines.items ≡ length self.old.lines.items }
    {
        let added = self.done[index].children.len();
        self.flight.reserve(added)?;
        let finished = self.done.remove(index);
        deliver(&mut self.flight, finished.children);
        self.counter = self.counter - 1 + added as u64;
        Ok(())
    }

    /// Performs the task at that place and finishes it, at the cost of `activation::activate`: its children are built
    /// in place, at the end of the flight. `enter` gets the number of the task's line just before. It also moves the
    /// tasks in flight after that place; the task is not copied. If memory runs out, nothing has changed.
    pub fn work_at<F: Fn(usize)>(
        &mut self,
        alloc: Global,
        net: &Net,
        store: &Store,
        enter: &F,
        index: usize,
    ) -> Result<(), OutOfMemory>
        requires enter { (x : Task) → slice_get self.old.flight.items index ≡ Some x → F.pre enter.now (line_of_task store.now net.now.nodes (length self.old.lines.items) x) }
        requires ready { IsReady net.now.nodes store.now self.old }
        requires within { index < length self.old.flight.items }
        ensures worked { OnOk result (IsWorked net.now.alphas net.now.nodes store.now self.old index (remove self.old.flight.items index) self.new) }
        ensures ready { IsReady net.now.nodes store.now self.new }
        ensures err { OnErr result (world_of self.new ≡ world_of self.old) }
        ensures lines { numbers_of self.new ≡ numbers_of self.old }
        ensures count { length self.new.lines.items ≡ length self.old.lines.items }
    {
        let task = lift(&mut self.flight, alloc, index);
        let acted = act_on(
            &mut self.lines,
            &mut self.worked,
            alloc,
            net,
            store,
            enter,
            &task,
            &mut self.flight,
        );
        if acted.is_err() {
            self.flight[index] = task;
            return acted;
        }
        let _blank = self.flight.remove(index);
        self.counter = (self.flight.len() + self.done.len()) as u64;
        Ok(())
    }

    /// Performs the last task in flight and finishes it: its children take its place at the end of the flight.
    /// `enter` gets the number of the task's line just before. It costs what `activation::activate` costs. If memory
    /// runs out, nothing has changed.
    pub fn work<F: Fn(usize)>(
        &mut self,
        alloc: Global,
        net: &Net,
        store: &Store,
        enter: &F,
    ) -> Result<(), OutOfMemory>
        requires enter { (x : Task) → IsLast self.old x → F.pre enter.now (line_of_task store.now net.now.nodes (length self.old.lines.items) x) }
        requires ready { IsReady net.now.nodes store.now self.old }
        requires some { 1 ≤ length self.old.flight.items }
        ensures worked { OnOk result (IsWorked net.now.alphas net.now.nodes store.now self.old (length self.old.flight.items - 1) (but_last self.old.flight.items) self.new) }
        ensures ready { IsReady net.now.nodes store.now self.new }
        ensures err { OnErr result (world_of self.new ≡ world_of self.old) }
        ensures lines { numbers_of self.new ≡ numbers_of self.old }
        ensures count { length self.new.lines.items ≡ length self.old.lines.items }
    {
        let Some(task) = self.flight.pop() else {
            unreachable!();
        };
        let acted = act_on(
            &mut self.lines,
            &mut self.worked,
            alloc,
            net,
            store,
            enter,
            &task,
            &mut self.flight,
        );
        if acted.is_err() {
            self.flight.push_reserved(task);
            return acted;
        }
        let under_way = self.flight.len() + self.done.len();
        self.counter = under_way as u64;
        Ok(())
    }

    /// Takes one step, at the cost of that kind of step.
    pub fn step(
        &mut self,
        alloc: Global,
        net: &Net,
        store: &Store,
        step: &Step,
    ) -> Result<(), OutOfMemory>
        requires ready { IsReady net.now.nodes store.now self.old }
        requires within { IsWithin store.now self.old step.now }
        ensures steps { OnOk result (Takes net.now.alphas net.now.nodes store.now self.old (step_of step.now) self.new) }
        ensures ready { IsReady net.now.nodes store.now self.new }
        ensures err { OnErr result (world_of self.new ≡ world_of self.old) }
        ensures lines { numbers_of self.new ≡ numbers_of self.old }
        ensures count { length self.new.lines.items ≡ length self.old.lines.items }
    {
        match step {
            Step::Feed(change) => self.feed(alloc, net, store, change),
            Step::Activate(index) => self.activate(alloc, net, store, *index),
            Step::Finish(index) => self.finish(*index),
        }
    }

    /// Begins a phase on each line, and drops the entries. It looks only at the lines that have entries, and takes no
    /// memory.
    pub fn clear_phase(&mut self)
        requires counter { self.old.counter ≡ 0 }
        ensures steps { (elements : Elements) (alphas : List Alpha) (nodes : List Node) (line : Placing) → Steps elements alphas nodes line (world_of self.old) Clear (world_of self.new) }
        ensures ready { (nodes : List Node) (s : Stored) → IsReady nodes s self.old → IsReady nodes s self.new }
        ensures lines { numbers_of self.new ≡ numbers_of self.old }
        ensures count { length self.new.lines.items ≡ length self.old.lines.items }
    {
        clear_worked(&mut self.lines, &mut self.worked);
    }
}
