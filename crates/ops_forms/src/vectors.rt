//! Vector attributes: each is the last attribute of its class.
ghost use Rattle.std.specs.Prelude.{◌≡◌, ◌++◌, not, filter, IfOk, OnOk};
ghost use Rattle.ops_grammar.specs.Grammar.{is_one_of, arranged, has_vector};
ghost use Rattle.ops_forms.specs.Noted.{with_last};

use crate::declared::Declared;
use ops_base::elements::Class;
use ops_base::list::Listed;
use ops_base::memory::OutOfMemory;
use ops_base::values::Sym;
use std::alloc::Global;

/// Whether a name is one of these.
pub fn is_one_of(name: Sym, names: &Declared<Sym>) -> bool
    ensures { result ≡ is_one_of name names.now }
{
    names.place_of(name).is_some()
}

/// Whether one of the attributes is a vector attribute.
pub fn has_vector(vectors: &Declared<Sym>, attrs: &[Sym]) -> bool
    ensures { result ≡ has_vector vectors.now attrs.now }
{
    attrs.iter().any(|attr| is_one_of(*attr, vectors))
}

/// The attributes in their order, except that the vector attributes come after the others.
pub fn arranged(
    alloc: Global,
    vectors: &Declared<Sym>,
    attrs: &[Sym],
) -> Result<Vec<Sym>, OutOfMemory>
    ensures { IfOk result (λ v. v.items ≡ arranged vectors.now attrs.now) }
{
    let mut all = scalars_of(alloc, vectors, attrs)?;
    add_vectors(&mut all, vectors, attrs)?;
    Ok(all)
}

/// The attributes that are not vector attributes.
pub fn scalars_of(
    alloc: Global,
    vectors: &Declared<Sym>,
    attrs: &[Sym],
) -> Result<Vec<Sym>, OutOfMemory>
    ensures { IfOk result (λ v. v.items ≡ filter (λ a. not (is_one_of a vectors.now)) attrs.now) }
{
    let mut scalars = Vec::new(alloc);
    for attr in attrs {
        if !is_one_of(*attr, vectors) {
            scalars.push(*attr)?;
        }
    }
    Ok(scalars)
}

/// Adds the vector attributes.
pub fn add_vectors(
    all: &mut Vec<Sym>,
    vectors: &Declared<Sym>,
    attrs: &[Sym],
) -> Result<(), OutOfMemory>
    ensures { OnOk result (all.new.items ≡ all.old.items ++ filter (λ a. is_one_of a vectors.now) attrs.now) }
{
    for attr in attrs {
        if is_one_of(*attr, vectors) {
            all.push(*attr)?;
        }
    }
    Ok(())
}

/// The class, with this attribute as its vector attribute.
pub fn with_last(alloc: Global, name: Sym, class: &Class) -> Result<Class, OutOfMemory>
    ensures { IfOk result (λ c. c ≡ with_last name class.now) }
{
    let mut last = Declared::new(alloc);
    last.push(name)?;
    let attrs = arranged(alloc, &last, class.attrs.as_slice())?;
    Ok(Class {
        name: class.name,
        attrs: Listed::from_vec(attrs),
        vector: true,
    })
}
