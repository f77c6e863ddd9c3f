//! What the commands of a session share.
ghost use Rattle.std.specs.Prelude.{◌≡◌};

use ops_base::programs::Program;
use std::alloc::Global;

/// What the commands of a session share and do not change.
#[derive(Clone, Copy)]
pub struct SessionContext<'a, B, H, A> {
    pub alloc: Global,
    /// Makes a matcher for a program.
    pub maker: &'a B,
    /// Settles the matcher.
    pub settle: &'a H,
    /// Executes right sides, and settles the matcher by their changes.
    pub actor: &'a A,
    /// The session makes at most this many firings.
    pub limit: u64,
    /// Whether its productions are explained at its end.
    pub is_explained: bool,
}

/// The context of a command that changes no production.
#[derive(Clone, Copy)]
pub(crate) struct RunContext<'a, H, A> {
    pub(crate) alloc: Global,
    /// Settles the matcher.
    pub(crate) settle: &'a H,
    /// Executes right sides, and settles the matcher by their changes.
    pub(crate) actor: &'a A,
    /// The program in force.
    pub(crate) program: &'a Program,
    /// The session makes at most this many firings.
    pub(crate) limit: u64,
}
