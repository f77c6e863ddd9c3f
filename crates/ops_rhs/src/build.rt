//! Reads the action `build`.
ghost use Rattle.std.specs.Prelude.{◌≡◌, ◌∷◌, ◌++◌, drop, true, false};
ghost use Rattle.ops_grammar.specs.Grammar.{goes, build_begun, with_template, outer_of, BuiltName, FirstPattern, Patterns, Actions};
ghost use Rattle.ops_forms.specs.WordWalks.{Becomes};
ghost use Rattle.ops_forms.specs.PlaceWalks.{GoesAmong, IsFrom, CutGoesAmong, goes_onward};
ghost use Rattle.ops_lhs.specs.LeftSides.{left_behind};
ghost use Rattle.ops_rhs.specs.Taking.{seen, view, built_rule, forgotten, IsAround, MayBuild};

use crate::right::{Around, Right};
use ops_base::actions::Action;
use ops_base::conditions::Part;
use ops_base::endings::Fault;
use ops_base::list::Listed;
use ops_base::rules::Rule;
use ops_base::values::{NIL, Sym};
use ops_forms::kinds::is_name;
use ops_forms::refusals::refused;
use ops_forms::walking::first_of;
use ops_forms::{Classes, Refusal};
use ops_grammar::Word;
use ops_lhs::{
    Around as LeftAround, LeftSide, cells_of_conditions, classes_of_cells, left_from, specificity,
};
use std::mem;

impl Right {
    // NAME first condition* --> action* )
    #[tactic(auto, unfolding(ops_grammar::specs::Grammar::goes, ops_grammar::specs::Grammar::step, ops_grammar::specs::Grammar::ends, ops_forms::specs::PlaceWalks::goes_onward))]
    pub fn build(&mut self, around: &Around, words: &[Word], at: usize) -> Result<usize, Refusal>
        requires { around.now.built ≡ false }
        ensures reads { GoesAmong (IsAround around.now) (λ more ws s. goes (drop at words.now ++ more) (BuiltName ∷ FirstPattern ∷ Patterns ∷ Actions true ∷ ws) (build_begun (seen s self.old))) words.now (λ s. seen s self.new) result }
        ensures cut { CutGoesAmong (IsAround around.now) (λ cut on ws s. goes_onward on (drop at cut) (BuiltName ∷ FirstPattern ∷ Patterns ∷ Actions true ∷ ws) (build_begun (seen s self.old))) words.now (λ s. seen s self.new) result }
        ensures within { IsFrom at result }
    {
        let (word, rest) = first_of(words, at)?;
        if !is_name(word.kind) {
            return refused(Fault::BadForm, word);
        }
        self.built_sides(around, word.name, words, rest)
    }

    // first condition* --> action* ), of a production of this name
    fn built_sides(
        &mut self,
        around: &Around,
        name: Sym,
        words: &[Word],
        at: usize,
    ) -> Result<usize, Refusal>
        requires { around.now.built ≡ false }
        ensures reads { GoesAmong (IsAround around.now) (λ more ws s. goes (drop at words.now ++ more) (FirstPattern ∷ Patterns ∷ Actions true ∷ ws) (record (build_begun (seen s self.old)) { name = name })) words.now (λ s. seen s self.new) result }
        ensures cut { CutGoesAmong (IsAround around.now) (λ cut on ws s. goes_onward on (drop at cut) (FirstPattern ∷ Patterns ∷ Actions true ∷ ws) (record (build_begun (seen s self.old)) { name = name })) words.now (λ s. seen s self.new) result }
        ensures within { IsFrom at result }
    {
        let left_around = LeftAround {
            classes: around.classes,
            values: &self.values,
        };
        let (left, behind) = left_from(self.alloc, &left_around, words, at)?;
        self.built_behind(around.classes, name, left, words, behind)
    }

    // action* ), of a production of this name with this left side
    fn built_behind(
        &mut self,
        classes: &Classes,
        name: Sym,
        left: LeftSide,
        words: &[Word],
        at: usize,
    ) -> Result<usize, Refusal>
        ensures reads { GoesAmong (MayBuild classes.now) (λ more ws s. goes (drop at words.now ++ more) (Actions true ∷ ws) (left_behind left (record (build_begun (seen s self.old)) { name = name }))) words.now (λ s. seen s self.new) result }
        ensures cut { CutGoesAmong (MayBuild classes.now) (λ cut on ws s. goes_onward on (drop at cut) (Actions true ∷ ws) (left_behind left (record (build_begun (seen s self.old)) { name = name }))) words.now (λ s. seen s self.new) result }
        ensures within { IsFrom at result }
    {
        let cells = classes_of_cells(self.alloc, &left.conditions)?;
        let conditions = cells_of_conditions(self.alloc, &left.conditions)?;
        let templates = mem::replace(&mut self.templates, Vec::new(self.alloc));
        let mut right = Right::new(
            self.alloc,
            left.values,
            left.elements,
            left.variables,
            left.counted,
            left.holes,
            templates,
        );
        let around = Around {
            classes,
            values: &self.values,
            built: true,
            cells: cells.as_slice(),
            conditions: conditions.as_slice(),
        };
        let place = right.built_actions(&around, words, at)?;
        let count = cells.len() + right.further.len();
        self.end_build(name, left.conditions, right, count, words[place].past)?;
        Ok(place + 1)
    }

    // The production that is built is complete, with these conditions, this right side and this many cells. It ends
    // before the byte `past`.
    fn end_build(
        &mut self,
        name: Sym,
        conditions: Vec<Part>,
        right: Right,
        cells: usize,
        past: usize,
    ) -> Result<(), Refusal>
        ensures { Becomes (view self.new) (with_template (outer_of (view self.old)) (view right) (built_rule name conditions.items right cells self.old.begun past)) result }
    {
        // A text of 16,777,216 bytes has too few tests for the sum to exceed a u32.
        let Some(specificity) = specificity(&conditions) else {
            return Err(Refusal::OutOfMemory);
        };
        let template = right.templates.len();
        self.templates = right.templates;
        self.templates.push(Rule {
            name,
            conditions: Listed::from_vec(conditions),
            actions: Listed::from_vec(right.actions),
            specificity,
            variables: right.variables,
            cells,
            first: self.begun,
            past,
        })?;
        self.forget();
        let holes = Listed::from_vec(right.holes);
        self.actions.push(Action::Build { template, holes })?;
        Ok(())
    }

    // nothing of an action is kept
    fn forget(&mut self)
        ensures { view self.new ≡ forgotten (view self.old) }
    {
        self.class = 0;
        self.terms.clear();
        self.puts.clear();
        self.cells.clear();
        self.items.clear();
        self.begun = 0;
        self.modified = None;
        self.variable = NIL;
        self.source = 0;
        self.source_field = 0;
        self.counted = 0;
        self.holes.clear();
    }
}
