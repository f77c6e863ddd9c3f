//! Reads right sides from their words and from their tokens.
ghost use Rattle.std.specs.Prelude.{◌≡◌, ◌≤◌, ◌++◌, [], length, All, IfOk, IfErr};
ghost use Rattle.ops_tokens.specs.Tokens.{LiesIn};
ghost use Rattle.ops_forms.specs.PlaceWalks.{IsPlaced};
ghost use Rattle.ops_rhs.specs.RightSides.{sight_of, ReadsRight, RefusesRight, IsRightSide, IsRefused};

use crate::right::{Around, Right};
use crate::sides::{RightSide, Sight};
use ops_base::actions::Action;
use ops_base::list::Listed;
use ops_forms::walking::fault_of;
use ops_forms::{Classes, Declared, ReadFault, Refusal, Scope, words_of};
use ops_grammar::Word;
use ops_tokens::Token;
use std::alloc::{AllocError, Global};
use std::mem;

/// Reads the right side at the beginning of the words, which follow an arrow, given the declared classes and what is in
/// sight. Returns the words that come right after its closing bracket. Takes time in proportion to the number of words
/// that it reads times the logarithm of the number of names.
pub fn right_side<'a>(
    alloc: Global,
    classes: &Classes,
    sight: Sight,
    words: &'a [Word],
) -> Result<(RightSide, &'a [Word]), Refusal>
    ensures ok { IfOk result (λ r. ReadsRight classes.now sight words.now r.1.now r.0.actions.items r.0.sight) }
    ensures err { IfErr result (λ e. RefusesRight classes.now sight words.now e) }
    ensures placed { IfErr result IsPlaced }
{
    let Sight {
        values,
        elements,
        cells,
        conditions,
        variables,
        counted,
        holes,
        templates,
    } = sight;
    let mut right = Right::new(
        alloc, values, elements, variables, counted, holes, templates,
    );
    let none = Declared::new(alloc);
    let around = Around {
        classes,
        values: &none,
        built: false,
        cells: cells.as_slice(),
        conditions: conditions.as_slice(),
    };
    let place = right.read_actions(&around, words, 0)?;
    let sight = Sight {
        values: right.values,
        elements: right.elements,
        cells: with_further(cells, &right.further)?,
        conditions,
        variables: right.variables,
        counted: right.counted,
        holes: right.holes,
        templates: right.templates,
    };
    let side = RightSide {
        actions: right.actions,
        sight,
    };
    Ok((side, &words[place + 1..]))
}

// these cells, followed by those
fn with_further(cells: Listed<usize>, further: &[usize]) -> Result<Listed<usize>, AllocError>
    ensures { IfOk result (λ all. all ≡ cells ++ further.now) }
{
    let mut all = cells.into_vec();
    all.extend_from_slice(further)?;
    Ok(Listed::from_vec(all))
}

/// Reads the right side of a production. It begins at the token `from`, after the arrow, and the scope must be as the
/// left side left it. Returns its actions and the place of its closing bracket, and leaves in the scope what is in
/// sight there. The names of all tokens from `from` on are held. After a refusal, the scope holds its text and classes;
/// nothing else in it can be relied on.
pub fn read_rhs(
    alloc: Global,
    scope: &mut Scope,
    tokens: &[Token],
    from: usize,
) -> Result<(Vec<Action>, usize), ReadFault>
    requires lie { All (λ t. LiesIn scope.old.text.items t) tokens.now }
    requires within { from ≤ length tokens.now }
    ensures ok { IfOk result (λ r. IsRightSide scope.old scope.new tokens.now from r.0.items r.1) }
    ensures err { IfErr result (λ e. IsRefused scope.old tokens.now from e) }
    ensures text { scope.new.text ≡ scope.old.text }
    ensures classes { scope.new.classes ≡ scope.old.classes }
{
    let words = words_of(
        alloc,
        &mut scope.names,
        scope.text.as_slice(),
        &tokens[from..],
    )?;
    let sight = take_sight(alloc, scope);
    match right_side(alloc, &scope.classes, sight, words.as_slice()) {
        Ok((side, rest)) => {
            let place = tokens.len() - rest.len() - 1;
            put_sight(scope, side.sight);
            Ok((side.actions, place))
        }
        Err(refusal) => Err(fault_of(refusal, tokens)),
    }
}

// Moves what is in sight out of a scope.
fn take_sight(alloc: Global, scope: &mut Scope) -> Sight
    ensures sight { result ≡ sight_of scope.old }
    ensures scope { scope.new ≡ record scope.old { values = []; elements = []; cells = []; conditions = []; holes = scope.new.holes; templates = scope.new.templates } }
    ensures holes { scope.new.holes.items ≡ [] }
    ensures templates { scope.new.templates.items ≡ [] }
{
    Sight {
        values: mem::replace(&mut scope.values, Declared::new(alloc)),
        elements: mem::replace(&mut scope.elements, Declared::new(alloc)),
        cells: mem::replace(&mut scope.cells, Listed::new(alloc)),
        conditions: mem::replace(&mut scope.conditions, Listed::new(alloc)),
        variables: scope.variables,
        counted: scope.counted,
        holes: mem::replace(&mut scope.holes, Vec::new(alloc)),
        templates: mem::replace(&mut scope.templates, Vec::new(alloc)),
    }
}

// Puts what is in sight into a scope.
fn put_sight(scope: &mut Scope, sight: Sight)
    ensures { scope.new ≡ record scope.old { values = sight.values; elements = sight.elements; cells = sight.cells; conditions = sight.conditions; variables = sight.variables; counted = sight.counted; holes = sight.holes; templates = sight.templates } }
{
    scope.values = sight.values;
    scope.elements = sight.elements;
    scope.cells = sight.cells;
    scope.conditions = sight.conditions;
    scope.variables = sight.variables;
    scope.counted = sight.counted;
    scope.holes = sight.holes;
    scope.templates = sight.templates;
}
