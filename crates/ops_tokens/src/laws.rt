//! What holds of the definitions alone: the contracts of functions that do nothing.
ghost use Rattle.std.specs.Prelude.{◌≡◌, ℕ, ◌≤◌, length};
ghost use Rattle.ops_tokens.specs.Following.{IsSettled};
ghost use Rattle.ops_tokens.specs.declared.token.TheConstants.{BAD_BYTE, UNCLOSED, FRACTION_NUMBER, NUMBER_RANGE};

/// From each place on at most one token stands next, or at most one fault, and not both; and where only white space and
/// comments are left, neither does.
pub fn what_stands_next_is_settled(text: &[u8])
    ensures { (from : ℕ) → from ≤ length text.now → IsSettled text.now from }
{}

/// Lexical faults have their numbers among the faults of a text, of which the lowest counts where several stand at one
/// place.
pub fn lexical_faults_have_their_numbers()
    ensures { (BAD_BYTE ≡ 1) × (UNCLOSED ≡ 2) × (FRACTION_NUMBER ≡ 4) × (NUMBER_RANGE ≡ 5) }
{}
