//! Symbols and their spellings.
ghost use Rattle.std.specs.Prelude.{◌≡◌, ◌<◌, length, IfOk, OnOk, OnErr, slice_get, Some, List, ℕ, codes};
ghost use Rattle.std.specs.Prelude.{◌++◌, ◌∷◌, ◌≤◌, [], take, bytes_eq, false};
ghost use Rattle.std.specs.List.{list_any};
ghost use Rattle.ops_base.specs.Names.{spellings, place_of, with_spelling, spelling_of, only_nil, AreDistinct};
ghost use Rattle.ops_base.specs.Names.{fresh_spelling, is_held, next_fresh, with_fresh, IsNextFresh};

use crate::memory::OutOfMemory;
use crate::values::Sym;
use indexmap::IndexSet;
use itoa::Buffer;
use std::alloc::Global;
use std::marker::Model;

/// The spellings of all symbols, each once and that of `nil` first. A spelling is looked up by its hash.
#[derive(Debug, Drop)]
pub struct Names {
    held: IndexSet<Vec<u8>>,
    made: u64,
}

impl Model for Names {
    ghost use Rattle.std.specs.Prelude.{◌≡◌, slice_get, Some, codes};
    ghost use Rattle.ops_base.specs.Names.{Spellings, spellings, AreDistinct};

    ghost Value = { Spellings };

    ghost view = { λ n. record { held = spellings n.held.keys; made = n.made } };

    ghost invariant = { λ n. AreDistinct (spellings n.held.keys)
        × (slice_get (spellings n.held.keys) 0 ≡ Some (codes "nil")) };
}

/// The place of a spelling, which is added at the end where it is not held. Each spelling that was held keeps its
/// place.
fn place_in(held: &mut IndexSet<Vec<u8>>, spelling: &[u8]) -> Result<usize, OutOfMemory>
    ensures place { IfOk result (λ place. place ≡ place_of (spellings held.old.keys) spelling.now) }
    ensures ok { OnOk result (spellings held.new.keys ≡ with_spelling (spellings held.old.keys) spelling.now) }
    ensures err { OnErr result (spellings held.new.keys ≡ spellings held.old.keys) }
    ensures kept { (i : ℕ) (s : List ℕ)
        → slice_get (spellings held.old.keys) i ≡ Some s → slice_get (spellings held.new.keys) i ≡ Some s }
    ensures distinct { AreDistinct (spellings held.old.keys) → AreDistinct (spellings held.new.keys) }
{
    match held.get_index_of(spelling) {
        Some(place) => Ok(place),
        None => {
            let place = held.len();
            add(held, spelling)?;
            Ok(place)
        }
    }
}

/// Adds a spelling that is not held.
fn add(held: &mut IndexSet<Vec<u8>>, spelling: &[u8]) -> Result<(), OutOfMemory>
    requires { list_any (λ v. bytes_eq spelling.now v.items) held.old.keys ≡ false }
    ensures ok { OnOk result (spellings held.new.keys ≡ spellings held.old.keys ++ spelling.now ∷ []) }
    ensures err { OnErr result (spellings held.new.keys ≡ spellings held.old.keys) }
{
    let copy = Vec::from_slice(*held.allocator(), spelling)?;
    held.insert(copy)?;
    Ok(())
}

fn is_held(held: &IndexSet<Vec<u8>>, spelling: &[u8]) -> bool
    ensures { result ≡ is_held (spellings held.now.keys) spelling.now }
{
    held.contains(spelling)
}

/// Puts `g` and this number in place of what was there.
fn write_fresh(spelling: &mut Vec<u8>, number: u64) -> Result<(), OutOfMemory>
    ensures { OnOk result (spelling.new.items ≡ fresh_spelling number) }
{
    let mut buffer = Buffer::new();
    spelling.clear();
    spelling.push(b'g')?;
    spelling.extend_from_slice(buffer.format(number).as_bytes())?;
    Ok(())
}

/// The number of the next fresh atom, with its spelling in `spelling`. A counter that would pass 64 bits is answered as
/// `OutOfMemory`.
fn find_free(
    held: &IndexSet<Vec<u8>>,
    made: u64,
    spelling: &mut Vec<u8>,
) -> Result<u64, OutOfMemory>
    ensures number { IfOk result (λ n. n ≡ next_fresh (record { held = spellings held.now.keys; made = made })) }
    ensures spelling { IfOk result (λ n. spelling.new.items ≡ fresh_spelling n) }
    ensures free { IfOk result (λ n. is_held (spellings held.now.keys) (fresh_spelling n) ≡ false) }
{
    let mut number = made;
    while number < u64::MAX {
        number += 1;
        write_fresh(spelling, number)?;
        if !is_held(held, spelling.as_slice()) {
            return Ok(number);
        }
    }
    Err(OutOfMemory)
}

/// Where names stood: how many spellings were held, and the number of the last fresh atom.
#[derive(Clone, Copy, Debug, PartialEq, Eq)]
pub struct Point {
    pub held: u64,
    pub fresh: u64,
}

impl Names {
    /// Where the names stand now. Takes no memory.
    pub fn point(&self) -> Point
        ensures held { result.held ≡ length self.now.held }
        ensures fresh { result.fresh ≡ self.now.made }
        ensures some { 0 < result.held }
    {
        Point {
            held: self.held.len() as u64,
            fresh: self.made,
        }
    }

    /// Lets the spellings go that came after a point, and has fresh atoms counted from there again. Takes no memory.
    pub fn back_to(&mut self, point: &Point)
        requires some { 0 < point.now.held }
        requires within { point.now.held ≤ length self.old.held }
        ensures { self.new ≡ record { held = take point.now.held self.old.held; made = point.now.fresh } }
    {
        self.held.truncate(point.held as usize);
        self.made = point.fresh;
    }

    /// Holds `nil` alone, which is the symbol 0.
    pub fn new(alloc: Global) -> Result<Names, OutOfMemory>
        ensures { IfOk result (λ names. names ≡ only_nil) }
    {
        let mut held = IndexSet::new(alloc);
        let nil = Vec::from_slice(alloc, b"nil")?;
        held.insert(nil)?;
        Ok(Names { held, made: 0 })
    }

    /// The symbol of that spelling, new or old. Each symbol that was held keeps its spelling, and where memory runs out
    /// nothing has changed.
    pub fn intern(&mut self, spelling: &[u8]) -> Result<Sym, OutOfMemory>
        ensures symbol { IfOk result (λ sym. sym.0 ≡ place_of self.old.held spelling.now) }
        ensures names { OnOk result (self.new ≡ record self.old { held = with_spelling self.old.held spelling.now }) }
        ensures err { OnErr result (self.new ≡ self.old) }
    {
        Ok(Sym(place_in(&mut self.held, spelling)? as u64))
    }

    /// The next fresh atom: `g` and the next number of a counter that starts at 1, without the numbers whose spelling
    /// is held. It costs a look-up for each number that is tried, so one more than there are held spellings of that
    /// form in a row. A counter that would pass 64 bits is answered as `OutOfMemory`. After an error nothing has
    /// changed, not even the counter.
    pub fn fresh(&mut self) -> Result<Sym, OutOfMemory>
        ensures symbol { IfOk result (λ sym. sym.0 ≡ length self.old.held) }
        ensures names { OnOk result (self.new ≡ with_fresh self.old) }
        ensures next { OnOk result (IsNextFresh self.old self.new.made) }
        ensures err { OnErr result (self.new ≡ self.old) }
    {
        let mut spelling = Vec::new(*self.held.allocator());
        let number = find_free(&self.held, self.made, &mut spelling)?;
        let place = self.held.len();
        add(&mut self.held, spelling.as_slice())?;
        self.made = number;
        Ok(Sym(place as u64))
    }

    /// The spelling of a symbol that is held.
    pub fn spelling(&self, sym: Sym) -> &[u8]
        requires { sym.0 < length self.now.held }
        ensures spelling { slice_get self.now.held sym.0 ≡ Some result.now }
        ensures distinct { AreDistinct self.now.held }
    {
        self.held[sym.0 as usize].as_slice()
    }

    /// The same for any symbol: empty where it is not held. That of `NIL` is `nil`.
    pub fn text(&self, sym: Sym) -> &[u8]
        ensures text { result.now ≡ spelling_of self.now sym }
        ensures nil { spelling_of self.now (record { 0 = 0 }) ≡ codes "nil" }
    {
        if (sym.0 as usize) < self.held.len() {
            self.spelling(sym)
        } else {
            &[]
        }
    }
}
