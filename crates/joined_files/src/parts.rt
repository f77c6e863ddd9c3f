//! The parts of a joined text that belong to its files.
ghost use Rattle.std.specs.Prelude.{◌≡◌, ◌≤◌};
ghost use Rattle.joined_files.specs.Parts.{part_at};

/// The index of a file among the names, and the byte at which its text begins.
#[derive(Clone, Copy, Debug, PartialEq, Eq)]
pub struct Part {
    pub file: usize,
    pub first: usize,
}

/// The part that a place belongs to. Takes time in proportion to the number of parts.
pub fn part_at(parts: &[Part], at: usize) -> Part
    ensures part { result ≡ part_at parts.now at }
    ensures before { result.first ≤ at }
{
    let mut found = Part { file: 0, first: 0 };
    for part in parts {
        if at < part.first {
            return found;
        }
        found = *part;
    }
    found
}
