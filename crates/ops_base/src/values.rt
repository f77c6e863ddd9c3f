//! Values and the predicates that compare them.

/// A symbol, which stands for the spelling that `Names` holds for it. Two different symbols have different spellings.
#[derive(Clone, Copy, Debug, PartialEq, Eq, PartialOrd, Ord, Hash)]
pub struct Sym(pub u64);

/// The symbol `nil`, which an attribute without a value holds.
pub const NIL: Sym = Sym(0);

/// What a field holds: a symbol or a whole number.
#[derive(Clone, Copy, Debug, PartialEq, Eq, Hash)]
pub enum Value {
    Symbol(Sym),
    Whole(i128),
}

/// The value `nil`, which is what a field holds that was given none.
pub const NOTHING: Value = Value::Symbol(NIL);

/// What a test asks of a field's value and its operand's value.
#[derive(Clone, Copy, Debug, PartialEq, Eq)]
pub enum Pred {
    Eq,
    Ne,
    Lt,
    Le,
    Gt,
    Ge,
    SameKind,
}
