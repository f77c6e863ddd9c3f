//! The ways in which a test of two values of the same kind is decided.
ghost use Rattle.std.specs.Prelude.{◌≡◌};
ghost use Rattle.test_table.specs.Decisions.{symbols_decide, numbers_decide};

use ops_base::values::Sym;

/// How two symbols are compared; symbols have no order.
#[derive(Clone, Copy)]
pub enum OfSymbols {
    Never,
    Always,
    Equality,
    Inequality,
}

/// How two numbers are compared.
#[derive(Clone, Copy)]
pub enum OfNumbers {
    Always,
    Equality,
    Inequality,
    Less,
    AtMost,
    Greater,
    AtLeast,
}

/// Compares two symbols.
pub fn of_symbols(decides: OfSymbols, a: Sym, b: Sym) -> bool
    ensures { result ≡ symbols_decide decides a b }
{
    match decides {
        OfSymbols::Never => false,
        OfSymbols::Always => true,
        OfSymbols::Equality => a.0 == b.0,
        OfSymbols::Inequality => a.0 != b.0,
    }
}

/// Compares two numbers.
pub fn of_numbers(decides: OfNumbers, x: i128, y: i128) -> bool
    ensures { result ≡ numbers_decide decides x y }
{
    match decides {
        OfNumbers::Always => true,
        OfNumbers::Equality => x == y,
        OfNumbers::Inequality => x != y,
        OfNumbers::Less => x < y,
        OfNumbers::AtMost => x <= y,
        OfNumbers::Greater => x > y,
        OfNumbers::AtLeast => x >= y,
    }
}
