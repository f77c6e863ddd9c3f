//! What the parts of a joined text mean. The law is the contract of a function that does nothing.
ghost use Rattle.joined_files.specs.Ranges.{PartsAreFiles};

/// Each part is the range of its file.
pub fn parts_are_files()
    ensures { PartsAreFiles }
{}
