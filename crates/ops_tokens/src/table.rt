//! The table that tells the kinds of plain atoms apart.
ghost use Rattle.std.specs.Prelude.{◌≡◌};
ghost use Rattle.ops_tokens.specs.Runs.{kind_of};

pub const STATES: usize = 22;

pub const CLASSES: usize = 11;

// What a state accepts: nothing, or the row of a kind; of several rows that fit the first counts.
const NO_ATOM: u8 = 0;

pub const OPERATOR: u8 = 1;

pub const WHOLE: u8 = 2;

pub const FRACTION: u8 = 3;

pub const VARIABLE: u8 = 4;

pub const SYMBOL: u8 = 5;

/// 0 for bytes of no plain atom, and then other bytes, + - . / digits < = > and e.
pub const CLASS_OF: [u8; 256] = [
    0, 0, 0, 0, 0, 0, 0, 0, 0, 0, 0, 0, 0, 0, 0, 0, 0, 0, 0, 0, 0, 0, 0, 0, 0, 0, 0, 0, 0, 0, 0, 0,
    0, 1, 1, 1, 1, 1, 1, 1, 0, 0, 1, 2, 1, 3, 4, 5, 6, 6, 6, 6, 6, 6, 6, 6, 6, 6, 1, 0, 7, 8, 9, 1,
    1, 1, 1, 1, 1, 10, 1, 1, 1, 1, 1, 1, 1, 1, 1, 1, 1, 1, 1, 1, 1, 1, 1, 1, 1, 1, 1, 1, 1, 1, 0,
    1, 1, 1, 1, 1, 1, 10, 1, 1, 1, 1, 1, 1, 1, 1, 1, 1, 1, 1, 1, 1, 1, 1, 1, 1, 1, 1, 1, 0, 0, 0,
    1, 0, 0, 0, 0, 0, 0, 0, 0, 0, 0, 0, 0, 0, 0, 0, 0, 0, 0, 0, 0, 0, 0, 0, 0, 0, 0, 0, 0, 0, 0, 0,
    0, 0, 0, 0, 0, 0, 0, 0, 0, 0, 0, 0, 0, 0, 0, 0, 0, 0, 0, 0, 0, 0, 0, 0, 0, 0, 0, 0, 0, 0, 0, 0,
    0, 0, 0, 0, 0, 0, 0, 0, 0, 0, 0, 0, 0, 0, 0, 0, 0, 0, 0, 0, 0, 0, 0, 0, 0, 0, 0, 0, 0, 0, 0, 0,
    0, 0, 0, 0, 0, 0, 0, 0, 0, 0, 0, 0, 0, 0, 0, 0, 0, 0, 0, 0, 0, 0, 0, 0, 0, 0, 0, 0, 0, 0, 0, 0,
    0, 0,
];

/// State 0 is the start, and from state 1 nothing is accepted.
pub const NEXT: [[u8; CLASSES]; STATES] = [
    [1, 2, 3, 4, 5, 6, 7, 8, 9, 10, 2], // 0: the start
    [1, 1, 1, 1, 1, 1, 1, 1, 1, 1, 1], // 1: no plain atom
    [1, 2, 2, 2, 2, 2, 2, 2, 2, 2, 2], // 2: any other symbol
    [1, 2, 2, 2, 5, 2, 7, 2, 2, 2, 2], // 3: after +
    [1, 2, 2, 11, 5, 2, 7, 2, 2, 2, 2], // 4: after -
    [1, 2, 2, 2, 2, 2, 12, 2, 2, 2, 2], // 5: after .
    [1, 2, 2, 2, 2, 9, 2, 2, 2, 2, 2], // 6: after /
    [1, 2, 2, 2, 13, 2, 7, 2, 2, 2, 14], // 7: after 0
    [1, 15, 15, 15, 15, 15, 15, 16, 17, 16, 15], // 8: after <
    [1, 2, 2, 2, 2, 2, 2, 2, 2, 2, 2], // 9: after =
    [1, 2, 2, 2, 2, 2, 2, 2, 9, 9, 2], // 10: after >
    [1, 2, 2, 2, 2, 2, 2, 2, 2, 9, 2], // 11: after --
    [1, 2, 2, 2, 2, 2, 12, 2, 2, 2, 14], // 12: after .0
    [1, 2, 2, 2, 2, 2, 12, 2, 2, 2, 14], // 13: after 0.
    [1, 2, 18, 18, 2, 2, 19, 2, 2, 2, 2], // 14: after 0E
    [1, 15, 15, 15, 15, 15, 15, 15, 15, 20, 15], // 15: after <!
    [1, 15, 15, 15, 15, 15, 15, 15, 15, 20, 15], // 16: after <<
    [1, 15, 15, 15, 15, 15, 15, 15, 15, 21, 15], // 17: after <=
    [1, 2, 2, 2, 2, 2, 19, 2, 2, 2, 2], // 18: after 0E+
    [1, 2, 2, 2, 2, 2, 19, 2, 2, 2, 2], // 19: after 0E0
    [1, 15, 15, 15, 15, 15, 15, 15, 15, 20, 15], // 20: after <!>
    [1, 15, 15, 15, 15, 15, 15, 15, 15, 20, 15], // 21: after <=>
];

/// What each state accepts.
pub const KINDS: [u8; STATES] = [
    NO_ATOM, // 0: the start
    NO_ATOM, // 1: no plain atom
    SYMBOL, // 2: any other symbol
    SYMBOL, // 3: after +
    OPERATOR, // 4: after -
    SYMBOL, // 5: after .
    SYMBOL, // 6: after /
    WHOLE, // 7: after 0
    OPERATOR, // 8: after <
    OPERATOR, // 9: after =
    OPERATOR, // 10: after >
    SYMBOL, // 11: after --
    FRACTION, // 12: after .0
    WHOLE, // 13: after 0.
    SYMBOL, // 14: after 0E
    SYMBOL, // 15: after <!
    OPERATOR, // 16: after <<
    OPERATOR, // 17: after <=
    SYMBOL, // 18: after 0E+
    FRACTION, // 19: after 0E0
    VARIABLE, // 20: after <!>
    OPERATOR, // 21: after <=>
];

/// The kinds of plain atoms.
#[derive(Clone, Copy)]
pub enum AtomKind {
    Operator,
    Whole,
    Fraction,
    Variable,
    Symbol,
}

impl AtomKind {
    /// The kind of a row, or `None` where no atom is accepted.
    pub fn of_row(row: u8) -> Option<AtomKind>
        ensures { result ≡ kind_of row }
    {
        match row {
            OPERATOR => Some(AtomKind::Operator),
            WHOLE => Some(AtomKind::Whole),
            FRACTION => Some(AtomKind::Fraction),
            VARIABLE => Some(AtomKind::Variable),
            SYMBOL => Some(AtomKind::Symbol),
            _ => None,
        }
    }
}
