//! What a pass knows. Only contracts use these types: no value of them is ever made.

use std::collections::LinkedList;

/// An entry that was given to a cell, and the pass that gave it.
pub struct Row<E> {
    pub pass: usize,
    pub cell: usize,
    pub entry: E,
}

/// A list that a pass saw in a cell.
pub struct Sight<E> {
    pub cell: usize,
    pub list: LinkedList<E>,
}

/// The rows of a pass that was joined.
pub struct Share<E> {
    pub pass: usize,
    pub rows: LinkedList<Row<E>>,
}

/// A cell that a pass holds, with its value at the claim.
pub struct Held<T> {
    pub cell: usize,
    pub value: T,
}

/// What a pass knows.
pub struct View<T, E> {
    /// The pass has not been joined to the first one.
    pub in_use: bool,
    /// The values that the cells began with.
    pub values: LinkedList<T>,
    pub number: usize,
    /// How many passes were split from it.
    pub splits: usize,
    /// How many of those have not been joined yet.
    pub apart: usize,
    pub held: Option<Held<T>>,
    /// The rows that the pass gave itself, in order.
    pub own: LinkedList<Row<E>>,
    /// The rows that the passes gave that it joined.
    pub joined: LinkedList<Share<E>>,
    /// The lists that it saw, and those that the passes it joined saw.
    pub seen: LinkedList<Sight<E>>,
    /// The first pass has read the log, to which no pass can add any more.
    pub ended: bool,
    pub log: LinkedList<Row<E>>,
}
