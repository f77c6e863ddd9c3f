//! The walk over the tokens of a text.
ghost use Rattle.std.specs.Prelude.{◌≡◌, ◌<◌, ◌≤◌, ◌+◌, ◌^◌, ◌++◌, take, length, All, IfOk, OnOk};
ghost use Rattle.ops_tokens.specs.Tokens.{spelling, LiesIn};
ghost use Rattle.lint_rules.specs.Slips.{after_left, after_right, after_operator, begins_build, after_head, after_plain_symbol, marks_hole, after_symbol, after, slip_of_symbol, slip_of_variable, slip_by, slip_of, slips_of, plain, warnings_of};
ghost use Rattle.lint_rules.specs.Walks.{LiesWithin, StandsBefore};

use crate::bytes::{
    is, is_clips_test, is_clips_variable, is_joined, is_joined_variable, is_string,
};
use crate::slips::{Slip, Warning};
use ops_base::memory::OutOfMemory;
use ops_tokens::{Scanner, Token, TokenKind, spelling_of};
use std::alloc::Global;

/// What comes right before a word.
#[derive(Clone, Copy, Debug, PartialEq, Eq)]
pub(crate) enum Before {
    /// An opening bracket.
    Bracket,
    /// The `p` of a production, or the `build` of one.
    Production,
    /// `//`
    Literal,
    /// `\\` or `\`, among the conditions of a production that is built.
    Hole,
    Other,
}

/// The context of a word.
#[derive(Clone, Copy, Debug, PartialEq, Eq)]
pub(crate) struct Context {
    /// How many brackets are open.
    depth: usize,
    /// Whether it is among the conditions of a production.
    conditions: bool,
    /// Whether the last conditions are those of a production that is built.
    built: bool,
    /// How many brackets are open among the values of the `write` that is open, or 0.
    write: usize,
    /// Whether it is between `<<` and `>>`, among conditions.
    choice: bool,
    before: Before,
}

fn plain(context: Context) -> Context
    ensures { result ≡ plain context }
{
    Context {
        before: Before::Other,
        ..context
    }
}

fn after_left(context: Context) -> Context
    requires { context.depth < 2 ^ 63 }
    ensures { result ≡ after_left context }
{
    Context {
        depth: context.depth + 1,
        choice: false,
        before: Before::Bracket,
        ..context
    }
}

fn after_right(context: Context) -> Context
    ensures { result ≡ after_right context }
{
    let closes_write = context.write == context.depth;
    Context {
        depth: context.depth.saturating_sub(1),
        conditions: context.conditions && 1 < context.depth,
        built: context.built,
        write: if closes_write { 0 } else { context.write },
        choice: false,
        before: Before::Other,
    }
}

fn after_operator(context: Context, spelling: &[u8]) -> Context
    ensures { result ≡ after_operator context spelling.now }
{
    if is(spelling, b"//") {
        return Context {
            before: Before::Literal,
            ..context
        };
    }
    if is(spelling, b">>") {
        return Context {
            choice: false,
            before: Before::Other,
            ..context
        };
    }
    if matches!(context.before, Before::Literal) {
        return plain(context);
    }
    if is(spelling, b"<<") {
        return Context {
            choice: context.conditions,
            before: Before::Other,
            ..context
        };
    }
    if is(spelling, b"-->") {
        return Context {
            conditions: context.conditions && context.choice,
            before: Before::Other,
            ..context
        };
    }
    plain(context)
}

fn begins_build(context: Context, spelling: &[u8]) -> bool
    ensures { result ≡ begins_build context spelling.now }
{
    is(spelling, b"build") && !context.conditions && context.depth == 2
}

fn after_head(context: Context, spelling: &[u8]) -> Context
    ensures { result ≡ after_head context spelling.now }
{
    if is(spelling, b"p") && context.depth == 1 {
        return Context {
            conditions: true,
            built: false,
            before: Before::Production,
            ..context
        };
    }
    if begins_build(context, spelling) {
        return Context {
            conditions: true,
            built: true,
            before: Before::Production,
            ..context
        };
    }
    if is(spelling, b"write") && !context.conditions {
        return Context {
            write: context.depth,
            before: Before::Other,
            ..context
        };
    }
    plain(context)
}

fn after_plain_symbol(context: Context, spelling: &[u8]) -> Context
    ensures { result ≡ after_plain_symbol context.before context spelling.now }
{
    match context.before {
        Before::Bracket => after_head(context, spelling),
        _ => plain(context),
    }
}

fn marks_hole(context: Context, spelling: &[u8]) -> bool
    ensures { result ≡ marks_hole context spelling.now }
{
    context.conditions && context.built && (is(spelling, b"\\\\") || is(spelling, b"\\"))
}

fn after_symbol(context: Context, spelling: &[u8]) -> Context
    ensures { result ≡ after_symbol context spelling.now }
{
    if marks_hole(context, spelling) {
        Context {
            before: Before::Hole,
            ..context
        }
    } else {
        after_plain_symbol(context, spelling)
    }
}

fn after(kind: TokenKind, context: Context, spelling: &[u8]) -> Context
    requires { context.depth < 2 ^ 63 }
    ensures { result ≡ after kind context spelling.now }
{
    match kind {
        TokenKind::Left => after_left(context),
        TokenKind::Right => after_right(context),
        TokenKind::Operator => after_operator(context, spelling),
        TokenKind::Symbol => after_symbol(context, spelling),
        _ => plain(context),
    }
}

fn slip_of_symbol(context: Context, spelling: &[u8]) -> Option<Slip>
    ensures { result ≡ slip_of_symbol context spelling.now }
{
    if is_clips_variable(spelling) {
        Some(Slip::ClipsVariable)
    } else if context.conditions && is_clips_test(spelling) {
        Some(Slip::ClipsTest)
    } else if context.conditions && is_joined(spelling) {
        Some(Slip::JoinedPredicate)
    } else if is_string(spelling) {
        Some(Slip::QuotedString)
    } else if is(spelling, b"crlf") && 0 < context.write && context.write == context.depth {
        Some(Slip::PlainCrlf)
    } else {
        None
    }
}

fn slip_of_variable(context: Context, spelling: &[u8]) -> Option<Slip>
    ensures { result ≡ slip_of_variable context spelling.now }
{
    if matches!(context.before, Before::Hole) {
        None
    } else if context.choice {
        Some(Slip::ChosenVariable)
    } else if context.conditions && is_joined_variable(spelling) {
        Some(Slip::JoinedVariable)
    } else {
        None
    }
}

fn slip_by(kind: TokenKind, context: Context, spelling: &[u8]) -> Option<Slip>
    ensures { result ≡ slip_by kind context spelling.now }
{
    match kind {
        TokenKind::Symbol => slip_of_symbol(context, spelling),
        TokenKind::Variable => slip_of_variable(context, spelling),
        _ => None,
    }
}

fn slip_of(kind: TokenKind, context: Context, spelling: &[u8]) -> Option<Slip>
    ensures { result ≡ slip_of kind context spelling.now }
{
    match context.before {
        Before::Literal | Before::Production => None,
        _ => slip_by(kind, context, spelling),
    }
}

/// The next token, if there is one.
fn token_from(scanner: &Scanner, text: &[u8], from: usize) -> Option<Token>
    requires { from ≤ length text.now }
    ensures { StandsBefore text.now from result }
{
    match scanner.next_token(text, from) {
        Ok(found) => found,
        Err(_) => None,
    }
}

/// Adds the word of a token, if it is a slip.
fn note(found: &mut Vec<Warning>, token: Token, slip: Option<Slip>) -> Result<(), OutOfMemory>
    ensures { OnOk result (found.new.items ≡ found.old.items ++ warnings_of token slip) }
{
    if let Some(slip) = slip {
        found.push(Warning {
            slip,
            first: token.first,
            past: token.past,
        })?;
    }
    Ok(())
}

/// The first words of a text that are probably slips, at most this many, in text order. Only words before the first
/// lexical fault are examined. Takes time in proportion to the text, and memory in proportion to what it finds.
pub fn word_slips(alloc: Global, text: &[u8], most: usize) -> Result<Vec<Warning>, OutOfMemory>
    ensures slips { IfOk result (λ found. found.items ≡ take most (slips_of text.now)) }
    ensures places { IfOk result (λ found. All (LiesWithin text.now) found.items) }
{
    let scanner = Scanner::new();
    let mut found = Vec::new(alloc);
    let mut context = Context {
        depth: 0,
        conditions: false,
        built: false,
        write: 0,
        choice: false,
        before: Before::Other,
    };
    let mut from = 0;
    'words: while found.len() < most {
        let Some(token) = token_from(&scanner, text, from) else {
            return Ok(found);
        };
        let spelling = spelling_of(text, &token);
        let slip = slip_of(token.kind, context, spelling);
        note(&mut found, token, slip)?;
        context = after(token.kind, context, spelling);
        from = token.past;
    }
    Ok(found)
}
