//! What was declared, found by name.
ghost use Rattle.std.specs.Prelude.{◌≡◌, ◌==◌, ◌++◌, ◌∷◌, ℕ, List, [], length, position, slice_get, slice_index_or, slice_set, take, ◌-◌, ◌<◌, OnErr, OnOk};
ghost use Rattle.std.specs.Option.{option_copied};
ghost use Rattle.std.specs.BTreeMap.{get};
ghost use Rattle.std.specs.Ordering.{nat_cmp};
ghost use Rattle.ops_grammar.specs.Grammar.{number_of, renumbered};
ghost use Rattle.ops_forms.specs.Firsts.{or_else, without, AreFirsts};

use ops_base::elements::Class;
use ops_base::memory::OutOfMemory;
use ops_base::rules::Rule;
use ops_base::values::Sym;
use ops_grammar::Named;
use std::alloc::Global;
use std::collections::BTreeMap;
use std::marker::Model;

/// Something that has a name.
pub trait Titled {
    ghost title: { Self → ℕ };

    fn title(&self) -> Sym
        ensures { result.0 ≡ title self.now };
}

impl Titled for Class {
    ghost title = { λ c. c.name.0 };

    fn title(&self) -> Sym {
        self.name
    }
}

impl Titled for Rule {
    ghost title = { λ r. r.name.0 };

    fn title(&self) -> Sym {
        self.name
    }
}

impl Titled for Sym {
    ghost title = { λ s. s.0 };

    fn title(&self) -> Sym {
        *self
    }
}

impl Titled for Named {
    ghost title = { λ n. n.name.0 };

    fn title(&self) -> Sym {
        self.name
    }
}

/// What was declared, in order. Looking up a name takes time logarithmic in the number of declared items.
#[derive(Drop)]
pub struct Declared<T: Titled> {
    list: Vec<T>,
    firsts: BTreeMap<u64, usize>,
}

impl<T: Titled> Model for Declared<T> {
    ghost Value = { List T };

    ghost view = { λ d. d.list.items };

    ghost invariant = { λ d. AreFirsts T.title d.firsts d.list.items };
}

/// Notes the place of a name, if the name has no place yet.
fn note(firsts: &mut BTreeMap<u64, usize>, name: u64, place: usize) -> Result<(), OutOfMemory>
    ensures err { OnErr result ((n : ℕ) → get nat_cmp firsts.new n ≡ get nat_cmp firsts.old n) }
    ensures ok { OnOk result ((n : ℕ) → get nat_cmp firsts.new n ≡ or_else (get nat_cmp firsts.old n) (name == n) place) }
{
    if firsts.get(&name).is_none() {
        firsts.insert(name, place)?;
    }
    Ok(())
}

/// Removes the place of a name, if it is this one.
fn forget(firsts: &mut BTreeMap<u64, usize>, name: u64, place: usize)
    ensures { (n : ℕ) → get nat_cmp firsts.new n ≡ without (get nat_cmp firsts.old n) (name == n) place }
{
    if let Some(first) = firsts.get(&name).copied() {
        if first == place {
            firsts.remove(&name);
        }
    }
}

impl<T: Titled + Drop> Declared<T> {
    pub fn new(alloc: Global) -> Declared<T>
        ensures { result ≡ [] }
    {
        Declared {
            list: Vec::new(alloc),
            firsts: BTreeMap::new(alloc),
        }
    }

    pub fn clear(&mut self)
        ensures { self.new ≡ [] }
    {
        self.list.clear();
        self.firsts.clear();
    }

    /// If memory runs out, nothing has changed.
    pub fn push(&mut self, item: T) -> Result<(), OutOfMemory>
        ensures ok { OnOk result (self.new ≡ self.old ++ item ∷ []) }
        ensures err { OnErr result (self.new ≡ self.old) }
    {
        let (name, place) = (item.title().0, self.list.len());
        self.list.push(item)?;
        match note(&mut self.firsts, name, place) {
            Ok(()) => Ok(()),
            Err(error) => {
                self.list.pop();
                Err(error)
            }
        }
    }

    /// Removes the last item, if there is one.
    fn pop(&mut self)
        ensures { self.new ≡ take (length self.old - 1) self.old }
    {
        if let Some(item) = self.list.pop() {
            forget(&mut self.firsts, item.title().0, self.list.len());
        }
    }

    /// Keeps this many items from the front, or all if there are no more than that. Takes time only for those that it
    /// removes.
    pub fn truncate(&mut self, len: usize)
        ensures { self.new ≡ take len self.old }
    {
        'items: loop {
            if self.len() <= len {
                return;
            }
            self.pop();
        }
    }

    /// The place of the first item with that name.
    pub fn place_of(&self, name: Sym) -> Option<usize>
        ensures { result ≡ position (λ x. T.title x == name.0) self.now }
    {
        self.firsts.get(&name.0).copied()
    }

    pub fn get(&self, place: usize) -> Option<&T>
        ensures { option_copied result ≡ slice_get self.now place }
    {
        self.list.get(place)
    }

    /// Replaces the item at a place with one of the same name.
    pub fn set(&mut self, place: usize, item: T)
        requires within { place < length self.old }
        requires name { T.title (slice_index_or self.old place item) ≡ T.title item }
        ensures { self.new ≡ slice_set self.old place item }
    {
        self.list[place] = item;
    }

    pub fn len(&self) -> usize
        ensures { result ≡ length self.now }
    {
        self.list.len()
    }

    pub fn as_slice(&self) -> &[T]
        ensures { result.now ≡ self.now }
    {
        self.list.as_slice()
    }

    pub fn into_vec(self) -> Vec<T>
        ensures { result.items ≡ self }
    {
        self.list
    }
}

impl Declared<Named> {
    /// Gives the first entry with that name this number from now on. A name that is not there is added at the end. If
    /// memory runs out, nothing has changed.
    pub fn renumber(&mut self, name: Sym, number: usize) -> Result<(), OutOfMemory>
        ensures ok { OnOk result (self.new ≡ renumbered name number self.old) }
        ensures err { OnErr result (self.new ≡ self.old) }
    {
        let named = Named { name, number };
        match self.place_of(name) {
            Some(place) => {
                self.set(place, named);
                Ok(())
            }
            None => self.push(named),
        }
    }
}

/// The number of the first entry with that name.
pub fn number_of(named: &Declared<Named>, name: Sym) -> Option<usize>
    ensures { result ≡ number_of name named.now }
{
    let place = named.place_of(name)?;
    Some(named.get(place)?.number)
}
