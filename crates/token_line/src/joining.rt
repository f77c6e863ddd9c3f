//! Whether a right token goes with a left one at a node: an element that joins it or, at a group, a longer token.
ghost use Rattle.std.specs.Prelude.{◌≡◌, slice_index};
ghost use Rattle.std.specs.Option.{option_copied};
ghost use Rattle.ops_base.specs.Values.{holds_of};
ghost use Rattle.work_store.specs.Stored.{held_of};
ghost use Rattle.net_base.specs.Tokens.{covers, field_in, goes_with, joins_hold};
ghost use Rattle.token_line.specs.Joins.{joins_with};

use net_base::nodes::{JoinTest, Kind, Node};
use ops_base::elements::Element;
use ops_base::matching::holds;
use ops_base::values::{NOTHING, Value};
use work_store::Store;

/// The field of the element, or nil if there is none.
pub(crate) fn field_of(element: Option<&Element>, field: usize) -> Value
    ensures { result ≡ field_in (option_copied element.entry) field }
{
    match element {
        Some(element) => element.field(field),
        None => NOTHING,
    }
}

/// The tag at a place, or 0 if there is none.
pub fn tag_at(tags: &[u64], place: usize) -> u64
    ensures { result ≡ slice_index tags.now place }
{
    match tags.get(place) {
        Some(tag) => *tag,
        None => 0,
    }
}

/// Whether the test holds of this element and of the elements that the left token names.
fn test_holds(store: &Store, token: &[u64], element: Option<&Element>, test: &JoinTest) -> bool
    ensures { result ≡ holds_of test.now.pred (field_in (option_copied element.entry) test.now.field) (field_in (held_of store.now (slice_index token.now test.now.place)) test.now.other) }
{
    let other = store.kept(tag_at(token, test.place));
    holds(
        test.pred,
        field_of(element, test.field),
        field_of(other, test.other),
    )
}

/// Whether all tests hold of this element and of the left token. It looks up one element for each test, and takes no
/// memory.
pub fn joins_element(
    store: &Store,
    tests: &[JoinTest],
    token: &[u64],
    element: Option<&Element>,
) -> bool
    ensures { result ≡ joins_with tests.now (held_of store.now) token.now (option_copied element.entry) }
{
    tests
        .iter()
        .all(|test| test_holds(store, token, element, test))
}

/// The same for the element with that tag, which it looks up first.
pub fn joins(store: &Store, tests: &[JoinTest], token: &[u64], tag: u64) -> bool
    ensures { result ≡ joins_hold tests.now (held_of store.now) token.now tag }
{
    joins_element(store, tests, token, store.kept(tag))
}

/// Whether the right token covers the left one: the first `width` tags of the right token are the left token.
fn covers(width: usize, left: &[u64], right: &[u64]) -> bool
    ensures { result ≡ covers width left.now right.now }
{
    if width <= right.len() {
        left == &right[..width]
    } else {
        left == right
    }
}

/// Whether the right token goes with the left one at this node: at a join or a negated node, if all tests hold of its
/// element; at a group, if it covers the left one; at a terminal, never. It looks up an element for each test, or
/// compares the tags of the left token. It takes no memory.
pub fn goes_with(store: &Store, node: &Node, left: &[u64], right: &[u64]) -> bool
    ensures { result ≡ goes_with node.now.kind node.now.joins (held_of store.now) left.now right.now }
{
    match node.kind {
        Kind::Join | Kind::Negated => joins(store, node.joins.as_slice(), left, tag_at(right, 0)),
        Kind::Group { width, .. } => covers(width, left, right),
        Kind::Terminal { .. } => false,
    }
}
