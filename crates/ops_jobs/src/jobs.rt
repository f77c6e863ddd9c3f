//! What the command line can ask for.

use crate::file_list::FileList;

/// How many workers there are where `--workers` does not stand.
pub const DEFAULT_WORKERS: usize = 4;

/// How many lines a network has where `--lines` does not stand.
pub const DEFAULT_LINES: usize = 1_024;

/// How many firings a session makes at most where `--limit` does not stand.
pub const DEFAULT_LIMIT: u64 = 1_000_000;

/// The most workers that `--workers` may ask for.
pub const GREATEST_WORKERS: usize = 64;

/// The most lines that `--lines` may ask for.
pub const GREATEST_LINES: usize = 65_536;

/// The greatest limit that `--limit` may set.
pub const GREATEST_LIMIT: u64 = 1_000_000_000;

/// The greatest number that a workload may be generated from.
pub const GREATEST_SEED: u64 = 1_000_000;

/// The most items that a workload may have.
pub const GREATEST_SIZE: u64 = 100_000;

/// What finds the instantiations.
#[derive(Clone, Copy, Debug, PartialEq, Eq)]
pub enum Engine {
    /// Each production is matched directly against all of working memory.
    Direct,
    /// A network that the productions share takes the changes, one task after another.
    Serial,
    /// That network takes the changes in rounds: all tasks of a round, and then those that they make.
    Rounds,
    /// That network's tasks wait in a pool, from which each worker takes one after another.
    Free,
    /// That network's tasks stand in a deque for each worker, who also takes from that of the next one.
    Steal,
}

/// What the options of the command line say.
#[derive(Clone, Copy, Debug, PartialEq, Eq)]
pub struct Options {
    pub engine: Engine,
    pub workers: usize,
    pub lines: usize,
    /// How many firings a session makes at most.
    pub limit: u64,
    /// Whether the match goes on while a right side waits for input.
    pub overlap: bool,
}

/// What the words of the command line ask for.
#[derive(Debug, Drop)]
pub enum Job {
    /// To run the program that the files hold, in their order.
    Run {
        options: Options,
        files: FileList,
    },
    /// To run that program and then to explain its productions: what each fires on, or where its match ends.
    Why {
        options: Options,
        files: FileList,
    },
    /// To tell how large the network of that program is. The options are checked and have no effect.
    Net {
        files: FileList,
    },
    /// To run the generated workload of this size.
    Gen {
        options: Options,
        seed: u64,
        size: u64,
    },
}
