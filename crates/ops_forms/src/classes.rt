//! The declared classes, found by their names and by their attributes.
ghost use Rattle.std.specs.Prelude.{◌≡◌, ◌==◌, ◌++◌, ◌∷◌, ℕ, List, [], true, filter, not, length, map, position, slice_get, OnErr, OnOk};
ghost use Rattle.std.specs.List.{list_any};
ghost use Rattle.std.specs.Option.{option_copied};
ghost use Rattle.ops_grammar.specs.Grammar.{makes_second, with_vector_last};
ghost use Rattle.ops_forms.specs.Noted.{AreNoted, noted, has_number, with_place, without_place, attrs_at, is_vector_at, places_with, arranged_at, arranged_at_all};

use crate::declared::Declared;
use crate::vectors::with_last;
use ops_base::elements::Class;
use ops_base::memory::OutOfMemory;
use ops_base::values::Sym;
use std::alloc::Global;
use std::collections::BTreeMap;
use std::marker::Model;

/// The declared classes, in order. A class is found by its name, and the classes that have an attribute are found by
/// the attribute's name. Each lookup takes time logarithmic in their number.
#[derive(Drop)]
pub struct Classes {
    alloc: Global,
    list: Declared<Class>,
    /// For the number of each attribute, the places of the classes that have it, in order.
    having: BTreeMap<u64, Vec<usize>>,
}

impl Model for Classes {
    ghost use Rattle.std.specs.Prelude.{List};
    ghost use Rattle.ops_base.specs.declared.elements.Class.{Class};
    ghost use Rattle.ops_forms.specs.Noted.{AreNoted};

    ghost Value = { List Class };

    ghost view = { λ c. c.list };

    ghost invariant = { λ c. AreNoted c.having c.list };
}

/// Adds a place at the end, unless it is already the last.
fn add(places: &mut Vec<usize>, place: usize) -> Result<(), OutOfMemory>
    ensures ok { OnOk result (places.new.items ≡ with_place places.old.items true place) }
    ensures err { OnErr result (places.new.items ≡ places.old.items) }
{
    if let Some(last) = places.last() {
        if *last == place {
            return Ok(());
        }
    }
    places.push(place)?;
    Ok(())
}

/// Notes a place under an attribute, unless it is already the last one there.
fn note(
    alloc: Global,
    having: &mut BTreeMap<u64, Vec<usize>>,
    attr: Sym,
    place: usize,
) -> Result<(), OutOfMemory>
    ensures ok { OnOk result ((n : ℕ) → noted having.new n ≡ with_place (noted having.old n) (attr.0 == n) place) }
    ensures err { OnErr result ((n : ℕ) → noted having.new n ≡ noted having.old n) }
{
    if let Some(places) = having.get_mut(&attr.0) {
        return add(places, place);
    }
    let mut places = Vec::new(alloc);
    places.push(place)?;
    having.insert(attr.0, places)?;
    Ok(())
}

/// Notes a place under each of the attributes.
fn note_all(
    alloc: Global,
    having: &mut BTreeMap<u64, Vec<usize>>,
    attrs: &[Sym],
    place: usize,
) -> Result<(), OutOfMemory>
    ensures ok { OnOk result ((n : ℕ) → noted having.new n ≡ with_place (noted having.old n) (has_number n attrs.now) place) }
    ensures err { OnErr result ((n : ℕ) → without_place (noted having.new n) (has_number n attrs.now) place ≡ without_place (noted having.old n) (has_number n attrs.now) place) }
{
    for attr in attrs {
        note(alloc, having, *attr, place)?;
    }
    Ok(())
}

/// Removes a place.
fn drop_place(places: &mut Vec<usize>, place: usize)
    ensures { places.new.items ≡ filter (λ k. not (k == place)) places.old.items }
{
    places.retain(|noted| *noted != place);
}

/// Removes a place under an attribute.
fn forget(having: &mut BTreeMap<u64, Vec<usize>>, attr: Sym, place: usize)
    ensures { (n : ℕ) → noted having.new n ≡ without_place (noted having.old n) (attr.0 == n) place }
{
    if let Some(places) = having.get_mut(&attr.0) {
        drop_place(places, place);
    }
}

/// Removes a place under each of the attributes.
fn forget_all(having: &mut BTreeMap<u64, Vec<usize>>, attrs: &[Sym], place: usize)
    ensures { (n : ℕ) → noted having.new n ≡ without_place (noted having.old n) (has_number n attrs.now) place }
{
    for attr in attrs {
        forget(having, *attr, place);
    }
}

/// Notes the place of a class under its attributes. If memory runs out, it is not noted under any of them.
fn note_class(
    alloc: Global,
    having: &mut BTreeMap<u64, Vec<usize>>,
    classes: &Declared<Class>,
    place: usize,
) -> Result<(), OutOfMemory>
    ensures ok { OnOk result ((n : ℕ) → noted having.new n ≡ with_place (noted having.old n) (has_number n (attrs_at place classes.now)) place) }
    ensures err { OnErr result ((n : ℕ) → noted having.new n ≡ without_place (noted having.old n) (has_number n (attrs_at place classes.now)) place) }
{
    // The contract is total: in fact there is always a class at the place.
    let Some(class) = classes.get(place) else {
        return Ok(());
    };
    match note_all(alloc, having, class.attrs.as_slice(), place) {
        Ok(()) => Ok(()),
        Err(error) => {
            forget_all(having, class.attrs.as_slice(), place);
            Err(error)
        }
    }
}

/// Whether the class at a place has a vector attribute. The definition is total: in fact every place that is noted has
/// a class.
fn is_vector_at(classes: &[Class], place: usize) -> bool
    ensures { result ≡ is_vector_at classes.now place }
{
    match classes.get(place) {
        Some(class) => class.vector,
        None => false,
    }
}

/// Whether one of the classes at these places has a vector attribute.
fn any_vector(classes: &[Class], places: &[usize]) -> bool
    ensures { result ≡ list_any (is_vector_at classes.now) places.now }
{
    places.iter().any(|place| is_vector_at(classes, *place))
}

/// Makes this attribute the vector attribute of the class at a place.
fn arrange(
    alloc: Global,
    classes: &mut Declared<Class>,
    place: usize,
    name: Sym,
) -> Result<(), OutOfMemory>
    ensures ok { OnOk result (classes.new ≡ arranged_at name place classes.old) }
    ensures err { OnErr result (classes.new ≡ classes.old) }
{
    let Some(class) = classes.get(place) else {
        return Ok(());
    };
    let arranged = with_last(alloc, name, class)?;
    classes.set(place, arranged);
    Ok(())
}

/// Makes this attribute the vector attribute of the classes at these places. If memory runs out, some of them have it
/// already.
fn arrange_all(
    alloc: Global,
    classes: &mut Declared<Class>,
    places: &[usize],
    name: Sym,
) -> Result<(), OutOfMemory>
    ensures ok { OnOk result (classes.new ≡ arranged_at_all name places.now classes.old) }
    ensures places { (n : ℕ) → places_with n classes.new ≡ places_with n classes.old }
{
    for place in places {
        arrange(alloc, classes, *place, name)?;
    }
    Ok(())
}

impl Classes {
    pub fn new(alloc: Global) -> Classes
        ensures { result ≡ [] }
    {
        Classes {
            alloc,
            list: Declared::new(alloc),
            having: BTreeMap::new(alloc),
        }
    }

    /// If memory runs out, nothing has changed.
    pub fn push(&mut self, class: Class) -> Result<(), OutOfMemory>
        ensures ok { OnOk result (self.new ≡ self.old ++ class ∷ []) }
        ensures err { OnErr result (self.new ≡ self.old) }
    {
        let place = self.list.len();
        self.list.push(class)?;
        match note_class(self.alloc, &mut self.having, &self.list, place) {
            Ok(()) => Ok(()),
            Err(error) => {
                self.list.truncate(place);
                Err(error)
            }
        }
    }

    /// The place of the first class with that name.
    pub fn place_of(&self, name: Sym) -> Option<usize>
        ensures { result ≡ position (λ c. c.name.0 == name.0) self.now }
    {
        self.list.place_of(name)
    }

    pub fn get(&self, place: usize) -> Option<&Class>
        ensures { option_copied result ≡ slice_get self.now place }
    {
        self.list.get(place)
    }

    pub fn len(&self) -> usize
        ensures { result ≡ length self.now }
    {
        self.list.len()
    }

    pub fn as_slice(&self) -> &[Class]
        ensures { result.now ≡ self.now }
    {
        self.list.as_slice()
    }

    pub fn into_vec(self) -> Vec<Class>
        ensures { result.items ≡ self }
    {
        self.list.into_vec()
    }

    /// Whether a class that has a vector attribute also has an attribute with this name. Examines only the classes that
    /// have one with this name.
    pub fn makes_second(&self, name: Sym) -> bool
        ensures { result ≡ makes_second name self.now }
    {
        match self.having.get(&name.0) {
            Some(places) => any_vector(self.list.as_slice(), places.as_slice()),
            None => false,
        }
    }

    /// Makes the attribute with this name the vector attribute of each class that has it. Touches no other class. If
    /// memory runs out, some of these classes have it already.
    pub fn make_vector(&mut self, name: Sym) -> Result<(), OutOfMemory>
        ensures { OnOk result (self.new ≡ map (with_vector_last name) self.old) }
    {
        match self.having.get(&name.0) {
            Some(places) => arrange_all(self.alloc, &mut self.list, places.as_slice(), name),
            None => Ok(()),
        }
    }
}
