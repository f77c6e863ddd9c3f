//! The outside as traits, with objects in memory and adapters over the real thing, and the output and input buffers.
#![tactic(auto)]

mod input;
pub mod laws;
mod memory;
mod out;
mod outside;
mod real;
mod stop;

pub use input::Input;
pub use memory::{MemShelf, MemSink, MemSource};
pub use out::{Out, WriteFailed};
pub use outside::{Failed, Gate, LoadError, OpenGate, Shelf, Sink, Source};
pub use real::{StdShelf, StdSink, StdSource};
pub use stop::Stop;
