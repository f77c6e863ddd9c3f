//! Productions.
ghost use Rattle.std.specs.Prelude.{◌≡◌, ◌<◌, ◌-◌, ◌∷◌, ◌++◌, length, slice_get, false, Some, None, IfOk};
ghost use Rattle.ops_base.specs.Valid.{cells_of};
ghost use Rattle.ops_grammar.specs.Grammar.{goes, left_begun, RuleName, FirstPattern, Patterns, Actions};
ghost use Rattle.ops_forms.specs.WordWalks.{Goes, Reads, IsWithin};
ghost use Rattle.ops_forms.specs.Sights.{cells_from};
ghost use Rattle.ops_lhs.specs.LeftSides.{left_read};
ghost use Rattle.ops_check.specs.Walks.{view};

use crate::draft::Draft;
use ops_base::conditions::Part;
use ops_base::endings::Fault;
use ops_base::memory::OutOfMemory;
use ops_base::rules::Rule;
use ops_forms::Declared;
use ops_forms::kinds::is_name;
use ops_forms::refusals::{Refusal, first_of, refused};
use ops_grammar::Word;
use ops_lhs::{Around, LeftSide, cells_of_conditions, classes_of_cells, left_side};
use ops_rhs::{Sight, right_side};
use std::alloc::Global;
use std::mem;

impl Draft {
    // NAME first condition* --> action* )
    pub(crate) fn production<'a>(&mut self, words: &'a [Word]) -> Result<&'a [Word], Refusal>
        ensures reads { Goes (λ more ws. goes (words.now ++ more) (RuleName ∷ FirstPattern ∷ Patterns ∷ Actions false ∷ ws) (view self.old)) (view self.new) result }
        ensures within { IsWithin words.now result }
    {
        let rest = self.rule_name(words)?;
        self.sides(rest)
    }

    #[tactic(auto, unfolding(ops_grammar::specs::Grammar::goes, ops_grammar::specs::Grammar::step, ops_grammar::specs::Grammar::ends))]
    fn rule_name<'a>(&mut self, words: &'a [Word]) -> Result<&'a [Word], Refusal>
        ensures reads { Reads RuleName (view self.old) (view self.new) words.now result }
        ensures begun { IfOk result (λ rest. view self.new ≡ left_begun (view self.new)) }
        ensures within { IsWithin words.now result }
    {
        let (word, rest) = first_of(words)?;
        if !is_name(word.kind) {
            return refused(Fault::BadForm, word);
        }
        if self.is_rule(word.name) {
            return refused(Fault::DeclaredTwice, word);
        }
        self.name = word.name;
        self.class = 0;
        self.constants.clear();
        self.values.clear();
        self.elements.clear();
        self.variables = 0;
        Ok(rest)
    }

    // first condition* --> action* ), if nothing of another left side is left
    fn sides<'a>(&mut self, words: &'a [Word]) -> Result<&'a [Word], Refusal>
        requires begun { view self.old ≡ left_begun (view self.old) }
        ensures reads { Goes (λ more ws. goes (words.now ++ more) (FirstPattern ∷ Patterns ∷ Actions false ∷ ws) (view self.old)) (view self.new) result }
        ensures within { IsWithin words.now result }
    {
        let none = Declared::new(self.alloc);
        let around = Around {
            classes: &self.classes,
            values: &none,
        };
        let (left, rest) = left_side(self.alloc, &around, words)?;
        self.actions(left, rest)
    }

    // action* ), after this left side
    fn actions<'a>(&mut self, left: LeftSide, words: &'a [Word]) -> Result<&'a [Word], Refusal>
        requires begun { view self.old ≡ left_begun (view self.old) }
        ensures reads { Goes (λ more ws. goes (words.now ++ more) (Actions false ∷ ws) (left_read None (view self.old) left.conditions.items left.values left.elements left.variables left.counted left.holes.items)) (view self.new) result }
        ensures within { IsWithin words.now result }
    {
        let templates = mem::replace(&mut self.templates, Vec::new(self.alloc));
        let (conditions, sight) = seen_behind(self.alloc, left, templates)?;
        let (right, rest) = right_side(self.alloc, &self.classes, sight, words)?;
        let bracket = word_before(words, rest);
        self.end_rule(conditions, right, bracket.past)?;
        Ok(rest)
    }
}

// the conditions of a left side, and what is in sight after it, if actions built these productions before
fn seen_behind(
    alloc: Global,
    left: LeftSide,
    templates: Vec<Rule>,
) -> Result<(Vec<Part>, Sight), OutOfMemory>
    ensures conditions { IfOk result (λ r. r.0.items ≡ left.conditions.items) }
    ensures sight { IfOk result (λ r. r.1 ≡ record { values = left.values; elements = left.elements; cells = cells_of left.conditions.items; conditions = cells_from 0 left.conditions.items; variables = left.variables; counted = left.counted; holes = left.holes; templates = templates }) }
{
    let sight = Sight {
        values: left.values,
        elements: left.elements,
        cells: classes_of_cells(alloc, &left.conditions)?,
        conditions: cells_of_conditions(alloc, &left.conditions)?,
        variables: left.variables,
        counted: left.counted,
        holes: left.holes,
        templates,
    };
    Ok((left.conditions, sight))
}

// the word right before the rest of the words
fn word_before(words: &[Word], rest: &[Word]) -> Word
    requires { length rest.now < length words.now }
    ensures { slice_get words.now (length words.now - length rest.now - 1) ≡ Some result }
{
    words[words.len() - rest.len() - 1]
}
