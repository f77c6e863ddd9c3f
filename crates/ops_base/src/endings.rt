//! How a session ends, what a firing fails for, and the faults and limits of a program text.
ghost use Rattle.std.specs.Prelude.{◌≡◌};
ghost use Rattle.ops_base.specs.FaultTexts.{limit_text, fault_text};
ghost use Rattle.ops_base.specs.declared.endings.Ending.TheVariants.{OutOfMemory as NoMemory};

use crate::memory::OutOfMemory;
use crate::values::Sym;

/// Why an action of a firing fails.
#[derive(Clone, Copy, Debug, PartialEq, Eq)]
pub enum ActKind {
    NotNumber,
    ZeroDivisor,
    Overflow,
    TooManyFields,
    InputTooLong,
}

/// How a session ends. Firings and actions are counted from 1. The last two variants are no endings: no session ends
/// so, and a call that works for the session gives up with them.
#[derive(Clone, Copy, Debug, PartialEq, Eq)]
pub enum Ending {
    /// All commands were done, to the last one or to `exit`.
    Done {
        firings: u64,
        elements: u64,
        last_tag: u64,
    },
    /// An action failed.
    Act {
        firing: u64,
        rule: usize,
        /// The name of that production.
        name: Sym,
        action: usize,
        kind: ActKind,
    },
    /// The limit of firings was reached.
    Limit {
        firings: u64,
    },
    /// The input could not be read.
    ReadFault,
    /// No session ends so: a call gives up with it where the sink refuses bytes.
    WriteFault,
    /// No session ends so: a call gives up with it where memory runs out.
    OutOfMemory,
}

impl From<OutOfMemory> for Ending {
    ghost from_gives = { λ _ ending. ending ≡ NoMemory };

    fn from(_error: OutOfMemory) -> Self {
        Ending::OutOfMemory
    }
}

/// What a program text has too many of.
#[derive(Clone, Copy, Debug, PartialEq, Eq)]
pub enum Limit {
    Conditions,
    Fields,
    Nesting,
}

/// What a program text is refused for. Where several stand at one place, the first in this order is answered.
#[derive(Clone, Copy, Debug, PartialEq, Eq)]
pub enum Fault {
    BadByte,
    Unclosed,
    Stray,
    FractionNumber,
    NumberRange,
    UnknownCommand,
    BadForm,
    UnknownClass,
    UnknownAttribute,
    DeclaredTwice,
    TwoVectors,
    LateDeclaration,
    LateProduction,
    FirstNegated,
    UnboundVariable,
    BadDesignator,
    AmbiguousDesignator,
    LimitPassed { limit: Limit },
    TooLong,
}

/// What is printed of a fault.
pub fn fault_text(fault: Fault) -> &'static str
    ensures { result.now ≡ fault_text fault }
{
    match fault {
        Fault::BadByte => "bad byte",
        Fault::Unclosed => "unclosed",
        Fault::Stray => "stray",
        Fault::FractionNumber => "fraction",
        Fault::NumberRange => "number out of range",
        Fault::UnknownCommand => "unknown command",
        Fault::BadForm => "bad form",
        Fault::UnknownClass => "unknown class",
        Fault::UnknownAttribute => "unknown attribute",
        Fault::DeclaredTwice => "declared twice",
        Fault::TwoVectors => "two vector attributes",
        Fault::LateDeclaration => "late declaration",
        Fault::LateProduction => "late production",
        Fault::FirstNegated => "first condition negated",
        Fault::UnboundVariable => "unbound variable",
        Fault::BadDesignator => "bad designator",
        Fault::AmbiguousDesignator => "ambiguous designator",
        Fault::LimitPassed { limit } => limit_text(limit),
        Fault::TooLong => "text too long",
    }
}

fn limit_text(limit: Limit) -> &'static str
    ensures { result.now ≡ limit_text limit }
{
    match limit {
        Limit::Conditions => "limit passed: conditions",
        Limit::Fields => "limit passed: fields",
        Limit::Nesting => "limit passed: nesting",
    }
}
