//! The expressions of `compute`.
ghost use Rattle.std.specs.Prelude.{◌≡◌, IfOk};
ghost use Rattle.ops_grammar.specs.Grammar.{completed, bracket_at, unit_at, unit_bound, number_of, function_depth, ExpressionUnit};
ghost use Rattle.ops_forms.specs.PlaceWalks.{IsFrom};
ghost use Rattle.ops_rhs.specs.Taking.{newest_first, ReadsOperand, ActsOperand, ReadsExpression, OpensExpression, IsOperand, IsFromOperand, CutActsOperand, PeekOpensExpression, CutReadsExpression, CutReadsOperand};

use crate::right::Right;
use ops_base::endings::{Fault, Limit};
use ops_base::expression::{Expr, Op};
use ops_base::memory::OutOfMemory;
use ops_forms::kinds::{is_compute, is_left, is_right, operation_of};
use ops_forms::refusals::refused;
use ops_forms::walking::first_of;
use ops_forms::{Refusal, number_of};
use ops_grammar::Word;
use ops_tokens::TokenKind;

// how many brackets may be open at once
const MOST_BRACKETS: usize = 32;

// how many are open inside a function: that of the production, that of the action and its own, and in a production that
// is built also that of the one around
pub fn function_depth(built: bool) -> usize
    ensures { result ≡ function_depth built }
{
    if built { 4 } else { 3 }
}

// an operand and the operation after it, waiting for the operand that follows
#[derive(Drop)]
pub struct Waiting {
    pub left: Expr,
    pub op: Op,
}

impl Right {
    // unit, or unit OP expr, and the closing bracket, if this many brackets are open
    #[cycle(expressions)]
    #[tactic(auto, unfolding(ops_grammar::specs::Grammar::goes, ops_grammar::specs::Grammar::step, ops_grammar::specs::Grammar::ends, ops_forms::specs::PlaceWalks::goes_onward))]
    pub fn expression(
        &self,
        depth: usize,
        words: &[Word],
        at: usize,
    ) -> Result<(Expr, usize), Refusal>
        ensures reads { ReadsExpression depth self.now words.now at result }
        ensures cut { CutReadsExpression depth self.now words.now at result }
        ensures within { IsFromOperand at result }
    {
        let mut waiting = Vec::new(self.alloc);
        let (mut operand, mut rest) = self.unit(depth, words, at)?;
        'operations: loop {
            let (word, after) = first_of(words, rest)?;
            if is_right(word.kind) {
                return Ok((completed(waiting, operand)?, after));
            }
            let Some(op) = operation_of(word.keyword) else {
                return refused(Fault::BadForm, word);
            };
            waiting.push(Waiting { left: operand, op })?;
            let (next, behind) = self.unit(depth, words, after)?;
            operand = next;
            rest = behind;
        }
    }

    // WHOLE | VARIABLE | ( expr ) | ( compute expr )
    #[cycle(expressions)]
    #[tactic(auto, unfolding(ops_grammar::specs::Grammar::goes, ops_grammar::specs::Grammar::step, ops_grammar::specs::Grammar::ends, ops_forms::specs::PlaceWalks::goes_onward))]
    fn unit(&self, depth: usize, words: &[Word], at: usize) -> Result<(Expr, usize), Refusal>
        ensures reads { ReadsOperand (ExpressionUnit depth) self.now words.now at result }
        ensures cut { CutReadsOperand (ExpressionUnit depth) self.now words.now at result }
        ensures within { IsFromOperand at result }
    {
        let (word, rest) = first_of(words, at)?;
        if is_left(word.kind) {
            return self.bracket(depth, word, words, rest);
        }
        Ok((self.operand(word)?, rest))
    }

    // expr ) | compute expr ), after a bracket
    #[cycle(expressions)]
    fn bracket(
        &self,
        depth: usize,
        word: Word,
        words: &[Word],
        at: usize,
    ) -> Result<(Expr, usize), Refusal>
        ensures acts { ActsOperand (λ ws s. bracket_at depth ws s) word self.now words.now at result }
        ensures cut { CutActsOperand (λ ws s. bracket_at depth ws s) word self.now words.now at result }
        ensures within { IsFromOperand at result }
    {
        if depth >= MOST_BRACKETS {
            return refused(
                Fault::LimitPassed {
                    limit: Limit::Nesting,
                },
                word,
            );
        }
        let rest = behind_compute(words, at)?;
        self.expression(depth + 1, words, rest)
    }
}

impl Right {
    // WHOLE | VARIABLE, which is the word
    fn operand(&self, word: Word) -> Result<Expr, Refusal>
        ensures { IsOperand (λ ws s. unit_at word.kind word.name ws s) word self.now result }
    {
        match word.kind {
            TokenKind::Whole(number) => Ok(Expr::number(self.alloc, number)?),
            TokenKind::Variable => self.bound_operand(word),
            _ => refused(Fault::BadForm, word),
        }
    }

    // a variable, which must be bound by a condition or a `bind` before it
    fn bound_operand(&self, word: Word) -> Result<Expr, Refusal>
        ensures { IsOperand (λ ws s. unit_bound (number_of word.name s.values) ws s) word self.now result }
    {
        let Some(number) = number_of(&self.values, word.name) else {
            return refused(Fault::UnboundVariable, word);
        };
        Ok(Expr::variable(self.alloc, number)?)
    }
}

// the place after `compute` if that is the word here, or else this place
#[tactic(auto, unfolding(ops_grammar::specs::Grammar::goes, ops_grammar::specs::Grammar::step, ops_grammar::specs::Grammar::ends, ops_forms::specs::PlaceWalks::goes_onward))]
fn behind_compute(words: &[Word], at: usize) -> Result<usize, Refusal>
    ensures reads { OpensExpression words.now at result }
    ensures cut { PeekOpensExpression words.now at result }
    ensures within { IsFrom at result }
{
    let (word, rest) = first_of(words, at)?;
    if is_compute(word.keyword) {
        Ok(rest)
    } else {
        Ok(at)
    }
}

// Gives each waiting operation its right operand, the last one first, so that each operand is copied only once.
fn completed(mut waiting: Vec<Waiting>, last: Expr) -> Result<Expr, OutOfMemory>
    ensures { IfOk result (λ e. e ≡ completed last (newest_first waiting.items)) }
{
    let mut value = last;
    'waiting: while let Some(Waiting { left, op }) = waiting.pop() {
        value = Expr::apply(op, left, value)?;
    }
    Ok(value)
}
