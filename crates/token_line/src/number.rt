//! The code of a token, and the number of its line. Tokens that go together at a node have the same code and are on
//! the same line.
ghost use Rattle.std.specs.Prelude.{◌≡◌, ◌<◌, ◌≤◌, fold, map, take};
ghost use Rattle.std.specs.Option.{option_copied};
ghost use Rattle.work_store.specs.Stored.{held_of};
ghost use Rattle.net_base.specs.declared.tasks.Side.TheVariants.{Left};
ghost use Rattle.net_base.specs.Tokens.{field_in};
ghost use Rattle.token_line.specs.Numbers.{code_of, equalities, is_equal, line_number, mixed, kept_codes, own_codes, own_value, value_code};

use crate::joining::{field_of, tag_at};
use net_base::net::Net;
use net_base::nodes::{JoinTest, Kind, Node};
use net_base::tasks::{Side, Task};
use ops_base::elements::Element;
use ops_base::values::{Pred, Value};
use work_store::Store;

/// Where a task is performed: the number of its line, and the code under which the line keeps its token.
#[derive(Clone, Copy, Debug, PartialEq, Eq)]
pub struct LineAndCode {
    pub line: usize,
    pub code: u64,
}

/// How many codes there are.
const CODES: u128 = 1 << 64;

/// The code of a value. The code of a whole number is the number modulo 2^64: different numbers may have the same
/// code, and then their tokens are in the same memory.
fn value_code(value: Value) -> u64
    ensures { result ≡ value_code value }
{
    match value {
        Value::Symbol(symbol) => symbol.0,
        Value::Whole(number) => (number.cast_unsigned() % CODES) as u64,
    }
}

#[tactic(auto, unfolding(crate::specs::Numbers::mixed))]
fn mixed(code: u64, next: u64) -> u64
    ensures { result ≡ mixed code next }
{
    code.wrapping_mul(31).wrapping_add(next)
}

fn is_equal(pred: Pred) -> bool
    ensures { result ≡ is_equal pred }
{
    match pred {
        Pred::Eq => true,
        Pred::Ne | Pred::Lt | Pred::Le | Pred::Gt | Pred::Ge | Pred::SameKind => false,
    }
}

/// The left token's value at the test: a field of the element that the test names in it.
fn left_value(store: &Store, tags: &[u64], test: &JoinTest) -> Value
    ensures { result ≡ own_value (held_of store.now) Left tags.now test.now }
{
    field_of(store.kept(tag_at(tags, test.place)), test.other)
}

/// The code, with the token's values at the equality tests mixed in. The element of a right token is looked up once.
#[inline(always)]
fn with_values(store: &Store, side: Side, tags: &[u64], tests: &[JoinTest], code: u64) -> u64
    ensures { result ≡ fold mixed code (map (λ j. value_code (own_value (held_of store.now) side tags.now j)) (equalities tests.now)) }
{
    match side {
        Side::Left => tests
            .iter()
            .filter(|test| is_equal(test.pred))
            .map(|test| value_code(left_value(store, tags, test)))
            .fold(code, mixed),
        Side::Right => with_fields(store.kept(tag_at(tags, 0)), tests, code),
    }
}

/// The code, with the fields of this element at the equality tests mixed in.
fn with_fields(element: Option<&Element>, tests: &[JoinTest], code: u64) -> u64
    ensures { result ≡ fold mixed code (map (λ j. value_code (field_in (option_copied element.entry) j.field)) (equalities tests.now)) }
{
    tests
        .iter()
        .filter(|test| is_equal(test.pred))
        .map(|test| value_code(field_of(element, test.field)))
        .fold(code, mixed)
}

/// The code, with everything that determines the token's line mixed in.
pub(crate) fn with_token(store: &Store, node: &Node, side: Side, tags: &[u64], code: u64) -> u64
    ensures { result ≡ fold mixed code (own_codes (held_of store.now) node.now.kind node.now.joins side tags.now) }
{
    match node.kind {
        Kind::Join | Kind::Negated => {
            with_values(store, side, tags, node.joins.as_slice(), code)
        }
        Kind::Group { width, .. } => with_first_tags(tags, width, code),
        Kind::Terminal { .. } => with_tags(tags, code),
    }
}

/// The code, with the tags mixed in.
fn with_tags(tags: &[u64], code: u64) -> u64
    ensures { result ≡ fold mixed code tags.now }
{
    tags.iter().copied().fold(code, mixed)
}

/// The code, with the first `width` tags mixed in.
fn with_first_tags(tags: &[u64], width: usize, code: u64) -> u64
    ensures { result ≡ fold mixed code (take width tags.now) }
{
    if width <= tags.len() {
        with_tags(&tags[..width], code)
    } else {
        with_tags(tags, code)
    }
}

/// The code, with everything that determines the token's code mixed in.
fn with_kept(store: &Store, node: &Node, side: Side, tags: &[u64], code: u64) -> u64
    ensures { result ≡ fold mixed code (kept_codes (held_of store.now) node.now.kind node.now.joins side tags.now) }
{
    match node.kind {
        Kind::Join | Kind::Negated => {
            with_values(store, side, tags, node.joins.as_slice(), code)
        }
        Kind::Group { width, .. } => with_first_tags(tags, width, code),
        Kind::Terminal { .. } => code,
    }
}

/// The code of the task's token. It is determined by the node and by the token's values at the equality tests; at a
/// group, instead of these, by the token's first tags, as many as the left tokens have. It examines each test of the
/// node, or each of these tags, and takes no memory.
pub fn code_of(net: &Net, store: &Store, task: &Task) -> u64
    ensures { result ≡ code_of (held_of store.now) net.now.nodes task.now.node task.now.side task.now.token }
{
    let start = task.node as u64;
    match net.nodes().get(task.node) {
        Some(node) => with_kept(store, node, task.side, task.token.as_slice(), start),
        None => start,
    }
}

/// The line of the task's token, out of this many lines. It is determined by what determines the code, except that at
/// a terminal it is determined by all tags. It examines each test of the node, or each of these tags, and takes no
/// memory.
pub fn line_of(net: &Net, store: &Store, task: &Task, lines: usize) -> usize
    requires { 1 ≤ lines }
    ensures number { result ≡ line_number (held_of store.now) net.now.nodes lines task.now.node task.now.side task.now.token }
    ensures below { result < lines }
{
    let start = task.node as u64;
    let code = match net.nodes().get(task.node) {
        Some(node) => with_token(store, node, task.side, task.token.as_slice(), start),
        None => start,
    };
    (code % lines as u64) as usize
}

/// A number that determines the token's line once the number of lines is known, and the token's code: both from one
/// pass over the tests or the tags.
fn both_codes(store: &Store, node: &Node, side: Side, tags: &[u64], start: u64) -> (u64, u64)
    ensures number { result.0 ≡ fold mixed start (own_codes (held_of store.now) node.now.kind node.now.joins side tags.now) }
    ensures code { result.1 ≡ fold mixed start (kept_codes (held_of store.now) node.now.kind node.now.joins side tags.now) }
{
    match node.kind {
        Kind::Join | Kind::Negated => {
            let code = with_values(store, side, tags, node.joins.as_slice(), start);
            (code, code)
        }
        Kind::Group { width, .. } => {
            let code = with_first_tags(tags, width, start);
            (code, code)
        }
        Kind::Terminal { .. } => (with_tags(tags, start), start),
    }
}

/// The results of `line_of` and `code_of`, from one pass over the tests of the node or the tags. Takes no memory.
#[inline(always)]
pub fn place_of(net: &Net, store: &Store, task: &Task, lines: usize) -> LineAndCode
    requires { 1 ≤ lines }
    ensures line { result.line ≡ line_number (held_of store.now) net.now.nodes lines task.now.node task.now.side task.now.token }
    ensures code { result.code ≡ code_of (held_of store.now) net.now.nodes task.now.node task.now.side task.now.token }
    ensures below { result.line < lines }
{
    let start = task.node as u64;
    let (number, code) = match net.nodes().get(task.node) {
        Some(node) => both_codes(store, node, task.side, task.token.as_slice(), start),
        None => (start, start),
    };
    LineAndCode {
        line: (number % lines as u64) as usize,
        code,
    }
}
