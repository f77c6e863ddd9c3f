//! The functions that a value may be.
ghost use Rattle.std.specs.Prelude.{◌∷◌, [], ◌++◌, drop, Some};
ghost use Rattle.ops_grammar.specs.Grammar.{goes, function, function_depth, Function, ExpressionUnit, ExpressionRest, Closes, EndsWhole};
ghost use Rattle.ops_forms.specs.PlaceWalks.{GoesOn, IsFrom, CutGoesOn, goes_onward};
ghost use Rattle.ops_rhs.specs.Taking.{seen, target_of, with_term, Reads, Acts, CutActs, CutReads};

use crate::expressions::function_depth;
use crate::right::{Around, Right, Target};
use ops_base::actions::Term;
use ops_base::endings::Fault;
use ops_forms::Refusal;
use ops_forms::refusals::refused;
use ops_forms::walking::{closing, first_of};
use ops_grammar::{Keyword, Word};

impl Right {
    // compute expr ) | genatom ) | accept ) | substr VARIABLE ATTR ATTR ) | substr VARIABLE ATTR inf )
    #[tactic(auto, unfolding(ops_grammar::specs::Grammar::goes, ops_grammar::specs::Grammar::step, ops_grammar::specs::Grammar::ends, ops_forms::specs::PlaceWalks::goes_onward))]
    pub fn function(
        &mut self,
        around: &Around,
        target: Target,
        words: &[Word],
        at: usize,
    ) -> Result<usize, Refusal>
        ensures reads { Reads around.now (Function (target_of target)) self.old self.new words.now at result }
        ensures cut { CutReads around.now (Function (target_of target)) self.old self.new words.now at result }
        ensures within { IsFrom at result }
    {
        let (word, rest) = first_of(words, at)?;
        self.function_from(around, target, word, words, rest)
    }

    // the same, but the first word was already taken
    pub fn function_from(
        &mut self,
        around: &Around,
        target: Target,
        word: Word,
        words: &[Word],
        at: usize,
    ) -> Result<usize, Refusal>
        ensures acts { Acts around.now (λ ws s. function (target_of target) word.keyword ws s) word self.old self.new words.now at result }
        ensures cut { CutActs around.now (λ ws s. function (target_of target) word.keyword ws s) word self.old self.new words.now at result }
        ensures within { IsFrom at result }
    {
        match word.keyword {
            Keyword::Substr => self.substr(around, target, words, at),
            Keyword::Compute => self.compute(around.built, target, words, at),
            Keyword::Genatom => self.term(target, Term::Fresh, words, at),
            Keyword::Accept => self.term(target, Term::Accept, words, at),
            _ => refused(Fault::BadForm, word),
        }
    }

    // expr )
    fn compute(
        &mut self,
        built: bool,
        target: Target,
        words: &[Word],
        at: usize,
    ) -> Result<usize, Refusal>
        ensures reads { GoesOn (λ more ws s. goes (drop at words.now ++ more) (ExpressionUnit (function_depth built) ∷ ExpressionRest (function_depth built) [] (Some (target_of target)) ∷ ws) (seen s self.old)) words.now (λ s. seen s self.new) result }
        ensures cut { CutGoesOn (λ cut on ws s. goes_onward on (drop at cut) (ExpressionUnit (function_depth built) ∷ ExpressionRest (function_depth built) [] (Some (target_of target)) ∷ ws) (seen s self.old)) words.now (λ s. seen s self.new) result }
        ensures within { IsFrom at result }
    {
        let (formula, rest) = self.expression(function_depth(built), words, at)?;
        self.add(target, Term::Compute(formula))?;
        Ok(rest)
    }

    // ), after this term
    fn term(
        &mut self,
        target: Target,
        term: Term,
        words: &[Word],
        at: usize,
    ) -> Result<usize, Refusal>
        ensures reads { GoesOn (λ more ws s. goes (drop at words.now ++ more) (Closes EndsWhole ∷ ws) (with_term target (seen s self.old) term)) words.now (λ s. seen s self.new) result }
        ensures cut { CutGoesOn (λ cut on ws s. goes_onward on (drop at cut) (Closes EndsWhole ∷ ws) (with_term target (seen s self.old) term)) words.now (λ s. seen s self.new) result }
        ensures within { IsFrom at result }
    {
        let rest = closing(words, at)?;
        self.add(target, term)?;
        Ok(rest)
    }
}
