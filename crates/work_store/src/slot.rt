//! The place of one element in the store.

use ops_base::elements::Element;

/// An element, and whether it is present; one that is not is kept.
#[derive(Drop)]
pub(crate) struct Slot {
    pub(crate) element: Element,
    pub(crate) present: bool,
}
