//! The data that all workers of a shared phase use.
use crate::rows::Row;
use net_base::net::Net;
use std::alloc::Global;
use std::sync::atomic::AtomicUsize;
use turn_table::Cells;
use work_store::Store;

/// The data that all workers of a shared phase use: the cells, the network, the store, the number of workers that
/// have a task, and the number of lines. No contract mentions the number of workers that have a task.
#[derive(Clone, Copy)]
pub(crate) struct Phase<'a> {
    pub(crate) alloc: Global,
    pub(crate) cells: &'a Cells<Row>,
    pub(crate) net: &'a Net,
    pub(crate) store: &'a Store,
    pub(crate) busy: &'a AtomicUsize,
    pub(crate) lines: usize,
}
