//! How each predicate is decided for each pair of kinds of values.
ghost use Rattle.std.specs.Prelude.{◌≡◌, ℤ};
ghost use Rattle.ops_base.specs.declared.values.Sym.{Sym};
ghost use Rattle.ops_base.specs.declared.values.Value.TheVariants.{Symbol, Whole};
ghost use Rattle.ops_base.specs.Values.{holds_of};
ghost use Rattle.test_table.specs.Decisions.{symbols_decide, numbers_decide};

use crate::decisions::{OfNumbers, OfSymbols};
use ops_base::values::Pred;

/// One predicate, with an entry for each pair of kinds of the field's value and the operand's value.
#[derive(Clone, Copy)]
struct Row {
    /// How two symbols are compared.
    symbols: OfSymbols,
    /// Whether the test passes for a symbol and a number, whichever of them the field holds. They are never equal and
    /// have no order.
    two_kinds: bool,
    /// How two numbers are compared.
    numbers: OfNumbers,
}

/// A row for each predicate.
#[derive(Clone, Copy)]
struct Table {
    eq: Row,
    ne: Row,
    lt: Row,
    le: Row,
    gt: Row,
    ge: Row,
    same_kind: Row,
}

const TABLE: Table = Table {
    eq: Row {
        symbols: OfSymbols::Equality,
        two_kinds: false,
        numbers: OfNumbers::Equality,
    },
    ne: Row {
        symbols: OfSymbols::Inequality,
        two_kinds: true,
        numbers: OfNumbers::Inequality,
    },
    lt: Row {
        symbols: OfSymbols::Never,
        two_kinds: false,
        numbers: OfNumbers::Less,
    },
    le: Row {
        symbols: OfSymbols::Never,
        two_kinds: false,
        numbers: OfNumbers::AtMost,
    },
    gt: Row {
        symbols: OfSymbols::Never,
        two_kinds: false,
        numbers: OfNumbers::Greater,
    },
    ge: Row {
        symbols: OfSymbols::Never,
        two_kinds: false,
        numbers: OfNumbers::AtLeast,
    },
    same_kind: Row {
        symbols: OfSymbols::Always,
        two_kinds: false,
        numbers: OfNumbers::Always,
    },
};

// The entry of a predicate in one column, with an arm for every predicate.
macro_rules! entry {
    ($pred:expr, $column:ident) => {
        match $pred {
            Pred::Eq => TABLE.eq.$column,
            Pred::Ne => TABLE.ne.$column,
            Pred::Lt => TABLE.lt.$column,
            Pred::Le => TABLE.le.$column,
            Pred::Gt => TABLE.gt.$column,
            Pred::Ge => TABLE.ge.$column,
            Pred::SameKind => TABLE.same_kind.$column,
        }
    };
}

/// How two symbols are compared.
pub fn between_symbols(pred: Pred) -> OfSymbols
    ensures { (a b : Sym) → symbols_decide result a b ≡ holds_of pred (Symbol a) (Symbol b) }
{
    entry!(pred, symbols)
}

/// Whether the predicate holds between a symbol and a number.
pub fn between_two_kinds(pred: Pred) -> bool
    ensures symbol_first { (a : Sym) (y : ℤ) → result ≡ holds_of pred (Symbol a) (Whole y) }
    ensures number_first { (x : ℤ) (b : Sym) → result ≡ holds_of pred (Whole x) (Symbol b) }
{
    entry!(pred, two_kinds)
}

/// How two numbers are compared.
pub fn between_numbers(pred: Pred) -> OfNumbers
    ensures { (x y : ℤ) → numbers_decide result x y ≡ holds_of pred (Whole x) (Whole y) }
{
    entry!(pred, numbers)
}
