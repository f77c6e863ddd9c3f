//! A table of states by classes of bytes, and the longest prefix that it accepts.
ghost use Rattle.std.specs.Prelude.{◌≡◌, ◌<◌, ◌≤◌, ◌↔◌, ◌==◌, if◌then◌else◌, length, slice_index, ℕ, EachIndex, IsTrue, SomeIff};
ghost use Rattle.scan_table.specs.Table.{Table, step_of, AreBelow, AreRowsBelow, IsTable, IsLongest};

use std::marker::Model;

/// `S` states by `C` classes of bytes. State 0 is the start. Each byte has a class, each state has a next state for
/// each class, and the kind that it accepts, of which 0 accepts nothing. A contract sees the table as these three
/// lists.
#[derive(Drop)]
pub struct Dfa<const S: usize, const C: usize> {
    classes: [u8; 256],
    next: [[u8; C]; S],
    kinds: [u8; S],
}

impl<const S: usize, const C: usize> Model for Dfa<S, C> {
    ghost use Rattle.std.specs.Prelude.{◌≡◌, length};
    ghost use Rattle.scan_table.specs.Table.{Table, IsTable};

    ghost Value = { Table };

    ghost view = { λ d. record { classes = d.classes; next = d.next; kinds = d.kinds } };

    ghost invariant = { λ d. (length d.classes ≡ 256) × IsTable S C (record { classes = d.classes; next = d.next; kinds = d.kinds }) };
}

impl<const S: usize, const C: usize> Dfa<S, C> {
    /// `None` where the numbers name no class or no state of the table, or it has no state.
    pub fn new(classes: [u8; 256], next: [[u8; C]; S], kinds: [u8; S]) -> Option<Dfa<S, C>>
        ensures { let t : Table = record { classes = classes; next = next.entry; kinds = kinds.entry } in SomeIff result (IsTable S C t) t }
    {
        if 0 < S && are_below(&classes, C) && are_rows_below(&next, S) {
            Some(Dfa {
                classes,
                next,
                kinds,
            })
        } else {
            None
        }
    }

    /// The same for numbers that are known to be a table. It tests nothing.
    pub fn from_table(classes: [u8; 256], next: [[u8; C]; S], kinds: [u8; S]) -> Dfa<S, C>
        requires { IsTable S C (record { classes = classes; next = next; kinds = kinds }) }
        ensures { result ≡ record { classes = classes; next = next.entry; kinds = kinds.entry } }
    {
        Dfa {
            classes,
            next,
            kinds,
        }
    }

    /// The state that the byte leads to. Takes no memory.
    pub fn step(&self, state: u8, byte: u8) -> u8
        requires { state < S }
        ensures next { result ≡ step_of self.now state byte }
        ensures below { result < S }
    {
        let class = self.classes[byte as usize];
        self.next[state as usize][class as usize]
    }

    /// The longest prefix of `bytes[from..]` of one byte or more that the table accepts: where it ends in `bytes`, and
    /// its kind. `None` where no such prefix is accepted. Takes no memory, and stops at the first state that accepts
    /// nothing and that no byte leaves.
    pub fn longest(&self, bytes: &[u8], from: usize) -> Option<(usize, u8)>
        requires { from ≤ length bytes.now }
        ensures { IsLongest self.now bytes.now from result }
    {
        let mut state = self.start();
        let mut best = None;
        for at in from..bytes.len() {
            state = self.step(state, bytes[at]);
            let kind = self.kind_of(state);
            best = kept(best, at + 1, kind);
            if kind == 0 && self.is_dead(state) {
                return best;
            }
        }
        best
    }

    // whether each byte leads back to this state
    fn is_dead(&self, state: u8) -> bool
        requires { state < S }
        ensures { IsTrue result → (byte : ℕ) → byte < 256 → step_of self.now state byte ≡ state }
    {
        let row = self.next[state as usize];
        all_are(&row, state)
    }

    fn start(&self) -> u8
        ensures start { result ≡ 0 }
        ensures below { result < S }
    {
        // Once a field is read, the proof may use what holds of every table: here, that it has a state.
        let _ = &self.classes;
        0
    }

    fn kind_of(&self, state: u8) -> u8
        requires { state < S }
        ensures { result ≡ slice_index self.now.kinds state }
    {
        self.kinds[state as usize]
    }
}

fn kept(best: Option<(usize, u8)>, end: usize, kind: u8) -> Option<(usize, u8)>
    ensures { result ≡ (if kind == 0 then best else Some (end, kind)) }
{
    if kind == 0 { best } else { Some((end, kind)) }
}

fn are_below(items: &[u8], limit: usize) -> bool
    ensures { IsTrue result ↔ AreBelow limit items.now }
{
    items.iter().all(|item| (*item as usize) < limit)
}

fn are_rows_below<const C: usize>(rows: &[[u8; C]], limit: usize) -> bool
    ensures { IsTrue result ↔ AreRowsBelow limit rows.now }
{
    for row in rows {
        if !are_below(row, limit) {
            return false;
        }
    }
    true
}

fn all_are(items: &[u8], item: u8) -> bool
    ensures { IsTrue result ↔ EachIndex items.now (λ k. slice_index items.now k ≡ item) }
{
    items.iter().all(|each| *each == item)
}

#[cfg(test)]
mod tests {
    use super::*;

    // accepts `a` as 1 and `abc` as 2
    fn letters() -> Option<Dfa<5, 4>> {
        let mut classes = [0; 256];
        classes[97] = 1;
        classes[98] = 2;
        classes[99] = 3;
        let next = [
            [1, 2, 1, 1],
            [1, 1, 1, 1],
            [1, 1, 3, 1],
            [1, 1, 1, 4],
            [1, 1, 1, 1],
        ];
        Dfa::new(classes, next, [0, 0, 1, 0, 2])
    }

    #[test]
    fn refuses_what_is_no_table(rt: HostRuntime) {
        let mut classes = [0; 256];
        assert!(rt; Dfa::<1, 1>::new(classes, [[0]], [7]).is_some());
        assert!(rt; Dfa::<0, 1>::new(classes, [], []).is_none());
        assert!(rt; Dfa::<1, 1>::new(classes, [[1]], [7]).is_none());
        classes[255] = 1;
        assert!(rt; Dfa::<1, 1>::new(classes, [[0]], [7]).is_none());
    }

    #[test]
    fn finds_the_longest_prefix(rt: HostRuntime) {
        let table = letters().expect(&rt, "a table");
        assert_eq!(rt; table.step(0, b'a'), 2);
        for (text, want) in [
            ("abcabc", Some((3, 2))),
            ("abd", Some((1, 1))),
            ("ab", Some((1, 1))),
            ("ba", None),
            ("", None),
        ] {
            assert_eq!(rt; table.longest(text.as_bytes(), 0), want, "in {text}");
        }
        assert_eq!(rt; table.longest(b"xxabc", 2), Some((5, 2)));
        assert_eq!(rt; table.longest(b"abc", 3), None);
    }
}
