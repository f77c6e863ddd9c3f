//! Laws about lines that follow from the definitions alone, stated as contracts of functions that do nothing.
ghost use Rattle.token_line.specs.OneLine.{OneLine, JoinedOnOneLine, JoinedWithOneCode};

/// Tokens that go together at a node are on the same line, whatever the number of lines.
pub fn joined_tokens_have_one_line()
    ensures equal { OneLine }
    ensures joined { JoinedOnOneLine }
{}

/// Tokens that go together at a node have the same code.
pub fn joined_tokens_have_one_code()
    ensures { JoinedWithOneCode }
{}
