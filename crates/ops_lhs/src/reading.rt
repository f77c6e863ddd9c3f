//! Reads left sides from their words and from their tokens.
ghost use Rattle.std.specs.Prelude.{◌≡◌, ◌≤◌, length, All, IfOk, IfErr};
ghost use Rattle.ops_tokens.specs.Tokens.{LiesIn};
ghost use Rattle.ops_lhs.specs.LeftSides.{ReadsLeft, ReadsLeftFrom, CutReadsLeftFrom, IsLeftFrom, RefusesLeft, IsArrow, AreBehindArrow, IsLeftSide, IsRefused};
ghost use Rattle.ops_forms.specs.PlaceWalks.{IsBehind, fault_of};

use crate::around::Around;
use crate::left::Left;
use crate::sides::LeftSide;
use crate::sight::show;
use ops_base::conditions::Part;
use ops_forms::walking::fault_of;
use ops_forms::{Declared, ReadFault, Refusal, Scope, words_of};
use ops_grammar::Word;
use ops_tokens::Token;
use std::alloc::Global;

/// Reads the left side at the beginning of the words, given what is around it, and returns the words after its arrow.
/// Takes time in proportion to the number of words that it reads times the logarithm of the number of names.
pub fn left_side<'a>(
    alloc: Global,
    around: &Around,
    words: &'a [Word],
) -> Result<(LeftSide, &'a [Word]), Refusal>
    ensures ok { IfOk result (λ r. ReadsLeft around.now.classes.now around.now.values.now words.now r.1.now r.0.conditions.items r.0.values r.0.elements r.0.variables r.0.counted r.0.holes.items) }
    ensures behind { IfOk result (λ r. AreBehindArrow words.now r.1.now) }
    ensures err { IfErr result (λ e. RefusesLeft around.now.classes.now around.now.values.now words.now e) }
{
    let (side, next) = left_from(alloc, around, words, 0)?;
    Ok((side, &words[next..]))
}

/// The same, but the left side begins at a place in the words. Returns the place after its arrow.
pub fn left_from(
    alloc: Global,
    around: &Around,
    words: &[Word],
    at: usize,
) -> Result<(LeftSide, usize), Refusal>
    ensures reads { ReadsLeftFrom around.now words.now at result }
    ensures cut { CutReadsLeftFrom around.now words.now at result }
    ensures behind { IfOk result (λ r. IsBehind IsArrow words.now r.1) }
    ensures within { IsLeftFrom at result }
{
    let mut left = Left::new(alloc);
    let next = left.read_conditions(around, words, at)?;
    let side = LeftSide {
        conditions: left.conditions,
        values: left.values,
        elements: left.elements,
        variables: left.variables,
        counted: left.counted,
        holes: left.holes,
    };
    Ok((side, next))
}

/// Reads the left side of a production, which begins at the token `from`, after the production's name. Returns its
/// conditions and the place of its arrow, and leaves in the scope what they leave in sight. The names of all tokens
/// from `from` on are held. After a refusal, the scope holds its text and classes; nothing else in it can be relied on.
pub fn read_lhs(
    alloc: Global,
    scope: &mut Scope,
    tokens: &[Token],
    from: usize,
) -> Result<(Vec<Part>, usize), ReadFault>
    requires lie { All (λ t. LiesIn scope.old.text.items t) tokens.now }
    requires within { from ≤ length tokens.now }
    ensures ok { IfOk result (λ r. IsLeftSide scope.old scope.new tokens.now from r.0.items r.1) }
    ensures err { IfErr result (λ e. IsRefused scope.old tokens.now from e) }
    ensures text { scope.new.text ≡ scope.old.text }
    ensures classes { scope.new.classes ≡ scope.old.classes }
{
    let words = words_of(
        alloc,
        &mut scope.names,
        scope.text.as_slice(),
        &tokens[from..],
    )?;
    let none = Declared::new(alloc);
    let around = Around {
        classes: &scope.classes,
        values: &none,
    };
    match left_side(alloc, &around, words.as_slice()) {
        Ok((side, rest)) => {
            let place = tokens.len() - rest.len() - 1;
            let conditions = show(alloc, scope, side)?;
            Ok((conditions, place))
        }
        Err(refusal) => Err(fault_of(refusal, tokens)),
    }
}
