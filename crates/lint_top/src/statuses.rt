//! The results of a call of the program.
ghost use Rattle.std.specs.Prelude.{◌≡◌};
ghost use Rattle.lint_top.specs.Codes.{code_of};

/// What was found, or why there was no search.
#[derive(Clone, Copy, Debug, PartialEq, Eq)]
pub enum LintStatus {
    /// Nothing was found.
    Clean,
    /// There are warnings, and no error.
    Warned,
    /// The text has a fault.
    Faulty,
    /// The words name no files.
    Usage,
    /// A file can't be read.
    Unread,
    /// The output refused a write.
    Unwritten,
    /// Memory ran out.
    OutOfMemory,
}

/// The exit status of the program.
pub fn code(status: LintStatus) -> u8
    ensures { result ≡ code_of status }
{
    match status {
        LintStatus::Clean => 0,
        LintStatus::Warned => 1,
        LintStatus::Faulty => 2,
        LintStatus::Usage => 2,
        LintStatus::Unread => 5,
        LintStatus::Unwritten => 6,
        LintStatus::OutOfMemory => 7,
    }
}
