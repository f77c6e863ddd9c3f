//! The position in its file of a place of a joined text.
ghost use Rattle.std.specs.Prelude.{◌≡◌, ◌≤◌, length};
ghost use Rattle.lint_top.specs.Parts.{line_in, column_in};

use joined_files::Part;
use ops_forms::{Place, place_of};

/// The line and the column of a place, counted only in its part.
pub(crate) fn place_in(text: &[u8], part: Part, at: usize) -> Place
    requires before { part.first ≤ at }
    requires within { at ≤ length text.now }
    ensures line { result.line ≡ line_in text.now part at }
    ensures column { result.column ≡ column_in text.now part at }
{
    place_of(&text[part.first..], at - part.first)
}
