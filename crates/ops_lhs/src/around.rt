//! What is around a left side.

use ops_forms::{Classes, Declared, Named};

/// The declared classes, and the variables in sight of the production that builds the one that is read: none if none
/// builds it.
#[derive(Clone, Copy)]
pub struct Around<'a> {
    pub classes: &'a Classes,
    pub values: &'a Declared<Named>,
}
