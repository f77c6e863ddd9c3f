//! Places in files agree with places in the joined text. The law is the contract of a function that does nothing.
ghost use Rattle.lint_top.specs.Translated.{LinesAreLess, ColumnsAreSame};

/// The line and the column of a place in its file.
pub fn places_are_translated()
    ensures lines { LinesAreLess }
    ensures columns { ColumnsAreSame }
{}
