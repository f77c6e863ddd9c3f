//! The keys by which alphas are looked up.

use ops_base::values::Value;

/// A field and the constant that is required in it.
#[derive(Clone, Copy, PartialEq, Eq, Hash)]
pub(crate) struct Constant {
    pub(crate) field: usize,
    pub(crate) value: Value,
}

/// A class, and the first constant that an alpha of that class requires, if it requires one.
#[derive(Clone, Copy, PartialEq, Eq, Hash)]
pub(crate) struct Key {
    pub(crate) class: usize,
    pub(crate) constant: Option<Constant>,
}
