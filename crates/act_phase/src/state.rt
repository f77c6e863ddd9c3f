//! `ActState`, the whole state between two actions: working memory, bindings, cells, whether a `halt` was done, and the
//! productions that were built.
ghost use Rattle.std.specs.Prelude.{◌≡◌, ◌+◌, ◌-◌, ◌<◌, IfOk, OnOk, [], ◌∷◌, map, true, false, unwrap_or, length, slice_set, List};
ghost use Rattle.std.specs.List.{list_all};
ghost use Rattle.std.specs.Option.{option_copied};
ghost use Rattle.ops_base.specs.Names.{Spellings};
ghost use Rattle.ops_io.specs.Coming.{Coming};
ghost use Rattle.ops_meaning.specs.Acting.{element_of, elements_of, conditions_of, begun, no_element, made_last, added, removed, modified, cell_bound, bound, filled_from, fillings, rule_built, left_by};
ghost use Rattle.act_phase.specs.Changed.{GoesOnTo};
ghost use Rattle.act_phase.specs.Outcomes.{acted_of, setting_of};
ghost use Rattle.act_phase.specs.State.{held_by, is_there, made_at, held_in, doing_of};

use crate::bindings::bindings_of;
use crate::changed_memory::ChangedMemory;
use crate::outcome::Acted;
use ops_base::actions::Hole;
use ops_base::conditions::Part;
use ops_base::elements::{Change, Class, Element};
use ops_base::filling::Filling;
use ops_base::list::Listed;
use ops_base::matching::{Binding, bound_value};
use ops_base::memory::OutOfMemory;
use ops_base::programs::Program;
use ops_base::rules::{Inst, Rule};
use ops_base::values::{NOTHING, Value};
use std::alloc::Global;
use std::marker::Model;
use work_store::Store;

/// What a cell holds: an element of the store, the element that the change at a place adds, or none.
#[derive(Drop)]
pub(crate) enum Cell<'s> {
    Matched(&'s Element),
    Made(usize),
    Nothing,
}

/// The state of a right side between two of its actions, with its program and trace level. A cell copies no element. A
/// cell may refer to a change by its place: changes are only appended, so that the place stays valid.
#[derive(Drop)]
pub(crate) struct ActState<'s> {
    alloc: Global,
    program: &'s Program,
    watch: u8,
    working: ChangedMemory<'s>,
    bindings: Vec<Binding>,
    cells: Vec<Cell<'s>>,
    halted: bool,
    built: Vec<Rule>,
}

impl<'s> Model for ActState<'s> {
    ghost use Rattle.std.specs.Prelude.{◌≡◌, map, length, true};
    ghost use Rattle.std.specs.Coded.{codes};
    ghost use Rattle.std.specs.List.{list_all};
    ghost use Rattle.ops_base.specs.ExpressionCode.{formula_code};
    ghost use Rattle.act_phase.specs.Outcomes.{setting_of};
    ghost use Rattle.act_phase.specs.State.{State, held_by, is_there};

    ghost Value = { State };

    ghost coded = { Prim.hlevel (codes, formula_code) };

    ghost view = { λ d. record {
      setting = setting_of d.program.now d.watch;
      working = d.working;
      bindings = d.bindings.items;
      cells = map (held_by d.working.changes) d.cells.items;
      halted = d.halted;
      built = d.built.items;
    } };

    ghost invariant = { λ d. list_all (is_there (length d.working.changes)) d.cells.items ≡ true };
}

/// The cell of the element with this tag. The element is looked up here and never again.
fn cell_of(store: &Store, tag: u64) -> Cell<'_>
    ensures held { (changes : List Change) → held_by changes result ≡ unwrap_or (element_of store.now.elements tag) no_element }
    ensures there { is_there 0 result ≡ true }
{
    match store.get(tag) {
        Some(element) => Cell::Matched(element),
        None => Cell::Nothing,
    }
}

fn cells_of<'s>(alloc: Global, store: &'s Store, tags: &[u64]) -> Result<Vec<Cell<'s>>, OutOfMemory>
    ensures held { IfOk result (λ cells. map (held_by []) cells.items ≡ elements_of store.now.elements tags.now) }
    ensures there { IfOk result (λ cells. list_all (is_there 0) cells.items ≡ true) }
{
    let mut cells = Vec::with_capacity(alloc, tags.len())?;
    for tag in tags {
        cells.push(cell_of(store, *tag))?;
    }
    Ok(cells)
}

fn conditions_of(program: &Program, rule: usize) -> &[Part]
    ensures { result.now ≡ conditions_of program.now.rules rule }
{
    match program.rules.as_slice().get(rule) {
        Some(rule) => rule.conditions.as_slice(),
        None => &[],
    }
}

/// A number above that of every variable in a production.
fn variables_of(program: &Program, rule: usize) -> usize {
    match program.rules.as_slice().get(rule) {
        Some(rule) => rule.variables,
        None => 0,
    }
}

/// A cell that holds the element that was added last. Scans the changes since then.
fn last_made<'s>(changes: &[Change]) -> Cell<'s>
    ensures held { held_by changes.now result ≡ made_last changes.now }
    ensures there { is_there (length changes.now) result ≡ true }
{
    let mut place = changes.len();
    while place > 0 {
        place -= 1;
        if let Change::Add(_) = &changes[place] {
            return Cell::Made(place);
        }
    }
    Cell::Nothing
}

/// What the holes of a template are filled with: the values that these bindings give their variables.
fn fillings(
    alloc: Global,
    bindings: &[Binding],
    holes: &[Hole],
) -> Result<Vec<Filling>, OutOfMemory>
    ensures { IfOk result (λ v. v.items ≡ fillings bindings.now holes.now) }
{
    let mut fillings = Vec::with_capacity(alloc, holes.len())?;
    for hole in holes {
        fillings.push(Filling {
            number: hole.number,
            value: bound_value(bindings, hole.variable).unwrap_or(NOTHING),
        })?;
    }
    Ok(fillings)
}

impl<'s> ActState<'s> {
    /// No action is done yet.
    pub(crate) fn new(
        alloc: Global,
        program: &'s Program,
        watch: u8,
        store: &'s Store,
        inst: &Inst,
        next_tag: u64,
    ) -> Result<ActState<'s>, OutOfMemory>
        requires { store.now.last < next_tag }
        ensures setting { IfOk result (λ d. d.setting ≡ setting_of program.now watch) }
        ensures begins { IfOk result (λ d. (names : Spellings) (coming : Coming) → doing_of d names coming
            ≡ begun (setting_of program.now watch) inst.now (record { wm = store.now.elements; last = next_tag - 1; names = names; coming = coming })) }
    {
        let conditions = conditions_of(program, inst.rule);
        let tags = inst.tags.as_slice();
        let room = variables_of(program, inst.rule);
        let bindings = bindings_of(alloc, store, conditions, tags, room)?;
        let cells = cells_of(alloc, store, tags)?;
        Ok(ActState {
            alloc,
            program,
            watch,
            working: ChangedMemory::new(alloc, store, next_tag),
            bindings,
            cells,
            halted: false,
            built: Vec::new(alloc),
        })
    }

    /// The element of a cell, even if it was removed. Needs no lookup.
    pub(crate) fn element(&self, cell: usize) -> Option<&Element>
        ensures { unwrap_or (option_copied result) no_element ≡ held_in self.now cell }
    {
        match self.cells.get(cell)? {
            Cell::Matched(element) => Some(*element),
            Cell::Made(place) => self.working.made_at(*place),
            Cell::Nothing => None,
        }
    }

    pub(crate) fn alloc(&self) -> Global {
        self.alloc
    }

    pub(crate) fn program(&self) -> &'s Program
        ensures { setting_of result.now self.now.setting.watch ≡ self.now.setting }
    {
        self.program
    }

    pub(crate) fn classes(&self) -> &'s [Class]
        ensures { result.now ≡ self.now.setting.classes }
    {
        self.program.classes.as_slice()
    }

    /// The trace level.
    pub(crate) fn watch(&self) -> u8
        ensures { result ≡ self.now.setting.watch }
    {
        self.watch
    }

    pub(crate) fn working(&self) -> &ChangedMemory<'s>
        ensures { result.now ≡ self.now.working }
    {
        &self.working
    }

    pub(crate) fn changes(&self) -> &[Change]
        ensures { result.now ≡ self.now.working.changes }
    {
        self.working.changes()
    }

    /// What the variables are bound to.
    pub(crate) fn bindings(&self) -> &[Binding]
        ensures { result.now ≡ self.now.bindings }
    {
        self.bindings.as_slice()
    }

    /// The tag and the class of a cell's element.
    fn tag_and_class(&self, cell: usize) -> (u64, usize)
        ensures tag { result.0 ≡ (held_in self.now cell).tag }
        ensures class { result.1 ≡ (held_in self.now cell).class }
    {
        match self.element(cell) {
            Some(element) => (element.tag, element.class),
            None => (0, 0),
        }
    }

    /// Adds an element.
    pub(crate) fn make(&mut self, class: usize, fields: Vec<Value>) -> Result<(), OutOfMemory>
        ensures does { OnOk result ((names : Spellings) (coming : Coming) → doing_of self.new names coming ≡ added (doing_of self.old names coming) class fields.items) }
        ensures goes_on { OnOk result (GoesOnTo self.old.working self.new.working) }
        ensures grows { OnOk result (length self.old.working.changes < length self.new.working.changes) }
        ensures setting { self.new.setting ≡ self.old.setting }
    {
        self.working.add(class, Listed::from_vec(fields))?;
        Ok(())
    }

    /// Removes the element with this tag, if it is present.
    fn remove_tag(&mut self, tag: u64) -> Result<(), OutOfMemory>
        ensures does { OnOk result ((names : Spellings) (coming : Coming) → doing_of self.new names coming ≡ removed (doing_of self.old names coming) tag) }
        ensures goes_on { OnOk result (GoesOnTo self.old.working self.new.working) }
        ensures setting { self.new.setting ≡ self.old.setting }
    {
        self.working.remove(tag)?;
        Ok(())
    }

    /// Removes the element of a cell, if it is present.
    pub(crate) fn remove(&mut self, cell: usize) -> Result<(), OutOfMemory>
        ensures does { OnOk result ((names : Spellings) (coming : Coming) → doing_of self.new names coming ≡ removed (doing_of self.old names coming) (held_in self.old cell).tag) }
        ensures goes_on { OnOk result (GoesOnTo self.old.working self.new.working) }
        ensures setting { self.new.setting ≡ self.old.setting }
    {
        let (tag, _) = self.tag_and_class(cell);
        self.remove_tag(tag)
    }

    /// Replaces the element of a cell with one that has these fields, in working memory and in the cell. Nothing is
    /// copied. An element of the left side is looked up once, to see whether it is present.
    pub(crate) fn modify(&mut self, cell: usize, fields: Vec<Value>) -> Result<(), OutOfMemory>
        ensures does { OnOk result ((names : Spellings) (coming : Coming) → doing_of self.new names coming ≡ modified (doing_of self.old names coming) cell fields.items) }
        ensures goes_on { OnOk result (GoesOnTo self.old.working self.new.working) }
        ensures setting { self.new.setting ≡ self.old.setting }
    {
        let (tag, class) = self.tag_and_class(cell);
        self.remove_tag(tag)?;
        let place = self.working.changes().len();
        self.make(class, fields)?;
        self.hold(cell, place);
        Ok(())
    }

    /// Makes the cell hold the element that the change at this place added.
    fn hold(&mut self, cell: usize, place: usize)
        requires { place < length self.old.working.changes }
        ensures { self.new ≡ record self.old { cells = slice_set self.old.cells cell (made_at self.old.working.changes place) } }
    {
        if cell < self.cells.len() {
            self.cells[cell] = Cell::Made(place);
        }
    }

    /// Adds a cell that holds the element that was made last. Scans the changes since then.
    pub(crate) fn bind_cell(&mut self) -> Result<(), OutOfMemory>
        ensures does { OnOk result ((names : Spellings) (coming : Coming) → doing_of self.new names coming ≡ cell_bound (doing_of self.old names coming)) }
        ensures setting { self.new.setting ≡ self.old.setting }
    {
        let made = last_made(self.working.changes());
        self.cells.push(made)?;
        Ok(())
    }

    /// Records that a `halt` was done.
    pub(crate) fn halt(&mut self)
        ensures { self.new ≡ record self.old { halted = true } }
    {
        self.halted = true;
    }

    /// Binds a variable. It may have been bound before.
    pub(crate) fn bind(&mut self, variable: usize, value: Value) -> Result<(), OutOfMemory>
        ensures does { OnOk result ((names : Spellings) (coming : Coming) → doing_of self.new names coming ≡ bound (doing_of self.old names coming) variable value) }
        ensures setting { self.new.setting ≡ self.old.setting }
    {
        self.bindings.push(Binding { variable, value })?;
        Ok(())
    }

    /// Builds a production from the program's template with this number. Each hole becomes the value that its variable is
    /// bound to now. If there is no such template, nothing is built.
    pub(crate) fn build(&mut self, template: usize, holes: &[Hole]) -> Result<(), OutOfMemory>
        ensures does { OnOk result ((names : Spellings) (coming : Coming)
            → doing_of self.new names coming ≡ rule_built self.old.setting.templates template holes.now (doing_of self.old names coming)) }
        ensures setting { self.new.setting ≡ self.old.setting }
    {
        let templates = self.program.templates.as_slice();
        let Some(template) = templates.get(template) else {
            return Ok(());
        };
        let fillings = fillings(self.alloc, self.bindings.as_slice(), holes)?;
        let rule = template.fill(self.alloc, fillings.as_slice())?;
        self.built.push(rule)?;
        Ok(())
    }

    pub(crate) fn finish(self) -> Acted
        ensures left { (names : Spellings) (coming : Coming) → acted_of result names coming ≡ left_by (doing_of self.entry names coming) }
        ensures positive { 0 < result.next_tag }
    {
        let (changes, next_tag) = self.working.finish();
        Acted {
            changes: Listed::from_vec(changes),
            halted: self.halted,
            next_tag,
            built: Listed::from_vec(self.built),
        }
    }
}
