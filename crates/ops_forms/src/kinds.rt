//! What a word may be, depending on what is expected.
ghost use Rattle.std.specs.Prelude.{◌≡◌, ◌||◌, is_some};
ghost use Rattle.ops_grammar.specs.Grammar.{is_left, is_right, is_left_brace, is_right_brace, is_caret, is_name, is_variable, is_arrow, is_literal, is_minus, begins_group, opens_choice, closes_choice, is_inf, is_compute, operation_of, pred_of, constant_of, atom_of, value_of, natural_of, small_of, count_of, strategy_of, is_all, level_of, undone_of, hole_of};

use ops_base::commands::Strategy;
use ops_base::expression::Op;
use ops_base::values::{Pred, Sym, Value};
use ops_grammar::Keyword;
use ops_tokens::TokenKind;

/// Whether a word is an opening bracket.
pub fn is_left(kind: TokenKind) -> bool
    ensures { result ≡ is_left kind }
{
    matches!(kind, TokenKind::Left)
}

/// Whether a word is a closing bracket.
pub fn is_right(kind: TokenKind) -> bool
    ensures { result ≡ is_right kind }
{
    matches!(kind, TokenKind::Right)
}

/// Whether a word is an opening brace.
pub fn is_left_brace(kind: TokenKind) -> bool
    ensures { result ≡ is_left_brace kind }
{
    matches!(kind, TokenKind::LeftBrace)
}

/// Whether a word is a closing brace.
pub fn is_right_brace(kind: TokenKind) -> bool
    ensures { result ≡ is_right_brace kind }
{
    matches!(kind, TokenKind::RightBrace)
}

/// Whether a word is the caret before an attribute.
pub fn is_caret(kind: TokenKind) -> bool
    ensures { result ≡ is_caret kind }
{
    matches!(kind, TokenKind::Caret)
}

/// Whether the values of an attribute end at a word: more attributes come, or the element ends.
pub fn ends_values(kind: TokenKind) -> bool
    ensures { result ≡ (is_right kind || is_caret kind) }
{
    is_right(kind) || is_caret(kind)
}

/// Whether a word is a name: a plain symbol or a quoted atom.
pub fn is_name(kind: TokenKind) -> bool
    ensures { result ≡ is_name kind }
{
    matches!(kind, TokenKind::Symbol | TokenKind::Quoted)
}

/// Whether a word is a variable.
pub fn is_variable(kind: TokenKind) -> bool
    ensures { result ≡ is_variable kind }
{
    matches!(kind, TokenKind::Variable)
}

/// Whether a word is `-->`, between the sides of a production.
pub fn is_arrow(keyword: Keyword) -> bool
    ensures { result ≡ is_arrow keyword }
{
    matches!(keyword, Keyword::Arrow)
}

/// Whether a word is `//`, before an atom.
pub fn is_literal(keyword: Keyword) -> bool
    ensures { result ≡ is_literal keyword }
{
    matches!(keyword, Keyword::Literal)
}

/// Whether a word is `-`, before a pattern.
pub fn is_minus(keyword: Keyword) -> bool
    ensures { result ≡ is_minus keyword }
{
    matches!(keyword, Keyword::Minus)
}

/// Whether a word is `-` before a group.
pub fn begins_group(keyword: Keyword) -> bool
    ensures { result ≡ begins_group keyword }
{
    matches!(keyword, Keyword::GroupMinus)
}

/// Whether a word is `<<`, before constants.
pub fn opens_choice(keyword: Keyword) -> bool
    ensures { result ≡ opens_choice keyword }
{
    matches!(keyword, Keyword::OpenChoice)
}

/// Whether a word is `>>`, after constants.
pub fn closes_choice(keyword: Keyword) -> bool
    ensures { result ≡ closes_choice keyword }
{
    matches!(keyword, Keyword::CloseChoice)
}

/// Whether a word is `inf`, after the vector attribute.
pub fn is_inf(keyword: Keyword) -> bool
    ensures { result ≡ is_inf keyword }
{
    matches!(keyword, Keyword::Inf)
}

/// Whether a word is `compute`, after a bracket.
pub fn is_compute(keyword: Keyword) -> bool
    ensures { result ≡ is_compute keyword }
{
    matches!(keyword, Keyword::Compute)
}

/// The operation that a word of an expression denotes.
pub fn operation_of(keyword: Keyword) -> Option<Op>
    ensures { result ≡ operation_of keyword }
{
    match keyword {
        Keyword::Plus => Some(Op::Add),
        Keyword::Minus | Keyword::GroupMinus => Some(Op::Sub),
        Keyword::Times => Some(Op::Mul),
        Keyword::Literal => Some(Op::Div),
        Keyword::Remainder => Some(Op::Rem),
        _ => None,
    }
}

/// The predicate that a word before the operand of a test denotes.
pub fn pred_of(keyword: Keyword) -> Option<Pred>
    ensures { result ≡ pred_of keyword }
{
    match keyword {
        Keyword::Equal => Some(Pred::Eq),
        Keyword::NotEqual => Some(Pred::Ne),
        Keyword::Less => Some(Pred::Lt),
        Keyword::AtMost => Some(Pred::Le),
        Keyword::Greater => Some(Pred::Gt),
        Keyword::AtLeast => Some(Pred::Ge),
        Keyword::SameKind => Some(Pred::SameKind),
        _ => None,
    }
}

/// The constant that a name or a whole number denotes.
pub fn constant_of(kind: TokenKind, name: Sym) -> Option<Value>
    ensures { result ≡ constant_of kind name }
{
    match kind {
        TokenKind::Whole(number) => Some(Value::Whole(number)),
        TokenKind::Symbol | TokenKind::Quoted => Some(Value::Symbol(name)),
        _ => None,
    }
}

/// The constant that an atom denotes, whatever its spelling.
pub fn atom_of(kind: TokenKind, name: Sym) -> Option<Value>
    ensures { result ≡ atom_of kind name }
{
    match kind {
        TokenKind::Whole(number) => Some(Value::Whole(number)),
        TokenKind::Symbol | TokenKind::Quoted | TokenKind::Operator | TokenKind::Variable => {
            Some(Value::Symbol(name))
        }
        _ => None,
    }
}

/// The constant that a value denotes: any atom except a variable and `//`.
pub fn value_of(kind: TokenKind, name: Sym) -> Option<Value>
    ensures { result ≡ value_of kind name }
{
    match kind {
        TokenKind::Whole(number) => Some(Value::Whole(number)),
        TokenKind::Symbol | TokenKind::Quoted | TokenKind::Operator => Some(Value::Symbol(name)),
        _ => None,
    }
}

/// A whole number, if it is at least 1.
pub fn natural_of(number: i128) -> Option<u128>
    ensures { result ≡ natural_of number }
{
    match u128::try_from(number) {
        Ok(0) | Err(_) => None,
        Ok(natural) => Some(natural),
    }
}

/// The number of a whole-number word, if it is from 1 to 1,024.
pub fn small_of(kind: TokenKind) -> Option<u16>
    ensures { result ≡ small_of kind }
{
    let TokenKind::Whole(number) = kind else {
        return None;
    };
    match u16::try_from(number) {
        Ok(small) if 1 <= small && small <= 1024 => Some(small),
        _ => None,
    }
}

/// The number of a whole-number word, if it is at least 1, as a count of firings or a tag.
pub fn count_of(kind: TokenKind) -> Option<u64>
    ensures { result ≡ count_of kind }
{
    let TokenKind::Whole(number) = kind else {
        return None;
    };
    match u64::try_from(number) {
        Ok(count) if 1 <= count && count < 1 << 63 => Some(count),
        _ => None,
    }
}

/// The strategy that a word names, if it names one.
pub fn strategy_of(keyword: Keyword) -> Option<Strategy>
    ensures { result ≡ strategy_of keyword }
{
    match keyword {
        Keyword::Lex => Some(Strategy::Lex),
        Keyword::Mea => Some(Strategy::Mea),
        _ => None,
    }
}

/// Whether a word is `*`, which means all elements.
pub fn is_all(keyword: Keyword) -> bool
    ensures { result ≡ is_all keyword }
{
    matches!(keyword, Keyword::Times)
}

/// The trace level of a whole-number word, if it is from 0 to 2.
pub fn level_of(kind: TokenKind) -> Option<u8>
    ensures { result ≡ level_of kind }
{
    let TokenKind::Whole(number) = kind else {
        return None;
    };
    match u8::try_from(number) {
        Ok(level) if level <= 2 => Some(level),
        _ => None,
    }
}

/// How many firings `back` undoes: the number of a whole-number word, if it is from 1 to 32.
pub fn undone_of(kind: TokenKind) -> Option<u8>
    ensures { result ≡ undone_of kind }
{
    let TokenKind::Whole(number) = kind else {
        return None;
    };
    match u8::try_from(number) {
        Ok(count) if 1 <= count && count <= 32 => Some(count),
        _ => None,
    }
}

/// The variable of a hole.
pub fn hole_of(keyword: Keyword) -> Option<Sym>
    ensures { result ≡ hole_of keyword }
{
    match keyword {
        Keyword::Hole { variable, at: _ } => Some(variable),
        _ => None,
    }
}

/// Whether a word is a hole.
pub fn is_hole(keyword: Keyword) -> bool
    ensures { result ≡ is_some (hole_of keyword) }
{
    hole_of(keyword).is_some()
}
