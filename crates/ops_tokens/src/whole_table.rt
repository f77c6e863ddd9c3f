//! The table that tells whole numbers from all other runs of bytes.
ghost use Rattle.std.specs.Prelude.{◌≡◌};
ghost use Rattle.ops_tokens.specs.Spellings.{is_whole};

use scan_table::Dfa;

const STATES: usize = 5;

const CLASSES: usize = 4;

// What a state accepts: nothing, or a whole number.
const NOTHING: u8 = 0;

const NUMBER: u8 = 1;

/// 0 for bytes of no number, and then signs, digits and the point.
const CLASS_OF: [u8; 256] = [
    0, 0, 0, 0, 0, 0, 0, 0, 0, 0, 0, 0, 0, 0, 0, 0, 0, 0, 0, 0, 0, 0, 0, 0, 0, 0, 0, 0, 0, 0, 0, 0,
    0, 0, 0, 0, 0, 0, 0, 0, 0, 0, 0, 1, 0, 1, 3, 0, 2, 2, 2, 2, 2, 2, 2, 2, 2, 2, 0, 0, 0, 0, 0, 0,
    0, 0, 0, 0, 0, 0, 0, 0, 0, 0, 0, 0, 0, 0, 0, 0, 0, 0, 0, 0, 0, 0, 0, 0, 0, 0, 0, 0, 0, 0, 0, 0,
    0, 0, 0, 0, 0, 0, 0, 0, 0, 0, 0, 0, 0, 0, 0, 0, 0, 0, 0, 0, 0, 0, 0, 0, 0, 0, 0, 0, 0, 0, 0, 0,
    0, 0, 0, 0, 0, 0, 0, 0, 0, 0, 0, 0, 0, 0, 0, 0, 0, 0, 0, 0, 0, 0, 0, 0, 0, 0, 0, 0, 0, 0, 0, 0,
    0, 0, 0, 0, 0, 0, 0, 0, 0, 0, 0, 0, 0, 0, 0, 0, 0, 0, 0, 0, 0, 0, 0, 0, 0, 0, 0, 0, 0, 0, 0, 0,
    0, 0, 0, 0, 0, 0, 0, 0, 0, 0, 0, 0, 0, 0, 0, 0, 0, 0, 0, 0, 0, 0, 0, 0, 0, 0, 0, 0, 0, 0, 0, 0,
    0, 0, 0, 0, 0, 0, 0, 0, 0, 0, 0, 0, 0, 0, 0, 0, 0, 0, 0, 0, 0, 0, 0, 0, 0, 0, 0, 0, 0, 0, 0, 0,
];

/// State 0 is the start, and from state 1 nothing is accepted.
const NEXT: [[u8; CLASSES]; STATES] = [
    [1, 2, 3, 1], // 0: the start
    [1, 1, 1, 1], // 1: no whole number
    [1, 1, 3, 1], // 2: after +
    [1, 1, 3, 4], // 3: after 0
    [1, 1, 1, 1], // 4: after 0.
];

/// What each state accepts.
const KINDS: [u8; STATES] = [
    NOTHING, // 0: the start
    NOTHING, // 1: no whole number
    NOTHING, // 2: after +
    NUMBER, // 3: after 0
    NUMBER, // 4: after 0.
];

/// The bytes are an optional sign, digits and an optional final point.
pub fn is_whole(bytes: &[u8]) -> bool
    ensures { result ≡ is_whole bytes.now }
{
    let table = Dfa::from_table(CLASS_OF, NEXT, KINDS);
    match table.longest(bytes, 0) {
        Some((end, _)) => end == bytes.len(),
        None => false,
    }
}
