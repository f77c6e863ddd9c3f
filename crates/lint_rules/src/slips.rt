//! The slips that are reported, and their texts.
ghost use Rattle.std.specs.Prelude.{◌≡◌};
ghost use Rattle.lint_rules.specs.Texts.{slip_text};

/// What is probably wrong with a word.
#[derive(Clone, Copy, Debug, PartialEq, Eq)]
pub enum Slip {
    /// It is a variable of CLIPS: `?x`.
    ClipsVariable,
    /// It is a test of CLIPS: `~red`.
    ClipsTest,
    /// It contains a predicate and its value, or half of a variable: `>0`, `<x`.
    JoinedPredicate,
    /// It is one variable that looks like two words: `<=<x>`.
    JoinedVariable,
    /// It looks like a variable but is a symbol, among the values of a choice.
    ChosenVariable,
    /// It begins with a quote: `"like`.
    QuotedString,
    /// It is `crlf` without its brackets, among values that are written.
    PlainCrlf,
}

/// A word that is probably a slip, on the bytes of the text from `first` up to but not including `past`.
#[derive(Clone, Copy, Debug, PartialEq, Eq)]
pub struct Warning {
    pub slip: Slip,
    pub first: usize,
    pub past: usize,
}

/// What is printed about a slip, after its word.
pub fn slip_text(slip: Slip) -> &'static str
    ensures { result.now ≡ slip_text slip }
{
    match slip {
        Slip::ClipsVariable => " is a symbol: a variable is written <name>",
        Slip::ClipsTest => " is a symbol: the test is written as <> and a space before the value",
        Slip::JoinedPredicate => {
            " is a symbol: a predicate stands apart from its value, and a variable is written <name>"
        }
        Slip::JoinedVariable => " is one variable: a predicate stands apart from its value",
        Slip::ChosenVariable => " is a symbol between << and >>, not the value of a variable",
        Slip::QuotedString => {
            " is a symbol with its quote: words that belong together are written |like this|"
        }
        Slip::PlainCrlf => " is printed as a word: (crlf) ends the line",
    }
}
