//! How the program ends.

use ops_base::endings::{ActKind, Fault};

/// What a run of the program comes to. Lines, columns, firings and actions are counted from 1.
#[derive(Clone, Copy, Debug, PartialEq, Eq)]
pub enum Status {
    Done,
    Refused {
        fault: Fault,
        line: u64,
        column: u64,
    },
    Usage,
    ActFault {
        firing: u64,
        rule: usize,
        action: usize,
        kind: ActKind,
    },
    Limit,
    ReadFault,
    WriteFault,
    OutOfMemory,
}
