//! What the definitions give for small texts. The law is the contract of a function that does nothing; it is
//! computed.
ghost use Rattle.lint_rules.specs.SmallTexts.{SlipsAreFound, NoSlipIsFound};

/// Each kind of slip in a small text, with its line and its column, and texts without slips.
pub fn small_texts()
    ensures found { SlipsAreFound }
    ensures none { NoSlipIsFound }
{}
