//! A gate that counts the activations, and adds up the numbers of their lines.

use ops_io::Gate;
use std::sync::atomic::{AtomicU64, Ordering};

#[derive(Drop)]
pub(crate) struct Counting {
    calls: AtomicU64,
    lines: AtomicU64,
}

impl Counting {
    pub(super) fn new() -> Counting {
        Counting {
            calls: AtomicU64::new(0),
            lines: AtomicU64::new(0),
        }
    }

    /// The number of activations, and the sum of the numbers of their lines.
    pub(super) fn counted(&self) -> (u64, u64) {
        (
            self.calls.load(Ordering::SeqCst),
            self.lines.load(Ordering::SeqCst),
        )
    }
}

impl Gate for Counting {
    fn enter(&self, _worker: usize, line: usize) {
        self.calls.fetch_add(1, Ordering::SeqCst);
        self.lines.fetch_add(line as u64, Ordering::SeqCst);
    }
}
