//! Classes, the elements of working memory, and the changes that a phase makes to it.
ghost use Rattle.std.specs.Prelude.{◌≡◌, ◌==◌, ◌+◌, IfOk, drop, position};
ghost use Rattle.ops_base.specs.Valid.{is_vector};
ghost use Rattle.ops_base.specs.WorkingMemory.{field_of, no_fields, scalar_count};

use crate::list::Listed;
use crate::memory::OutOfMemory;
use crate::values::{NOTHING, Sym, Value};
use std::alloc::Global;

/// How many fields an element has at most, its class not counted.
pub const MOST_FIELDS: usize = 126;

/// A class with its attributes in the order of its fields. Where it has a vector attribute, that is the last one.
#[derive(Debug, Drop)]
pub struct Class {
    pub name: Sym,
    pub attrs: Listed<Sym>,
    pub vector: bool,
}

impl Class {
    /// Whether the field is the first of the vector attribute.
    pub fn is_vector(&self, field: usize) -> bool
        ensures { result ≡ is_vector self.now field }
    {
        self.vector && is_last(field, self.attrs.len())
    }

    /// The field of an attribute. Looks through the attributes, of which there are 126 at most.
    pub fn field_of(&self, name: Sym) -> Option<usize>
        ensures { result ≡ position (λ a. a.0 == name.0) self.now.attrs }
    {
        self.attrs.as_slice().iter().position(|attr| *attr == name)
    }

    /// How many fields an element of this class has before those of the vector attribute.
    pub fn scalar_count(&self) -> usize
        ensures { result ≡ scalar_count self.now }
    {
        let count = self.attrs.len();
        if self.vector {
            count.saturating_sub(1)
        } else {
            count
        }
    }

    /// The fields of an element for which no value was given.
    pub fn no_fields(&self, alloc: Global) -> Result<Vec<Value>, OutOfMemory>
        ensures { IfOk result (λ v. v.items ≡ no_fields self.now) }
    {
        let fields = vec![in alloc; NOTHING; self.scalar_count()]?;
        Ok(fields)
    }
}

fn is_last(field: usize, len: usize) -> bool
    ensures { result ≡ (field + 1 == len) }
{
    len > 0 && field == len - 1
}

/// An element of working memory, known by its time tag. The fields are those after the class; a field past the end is
/// `nil`.
#[derive(Debug, Drop)]
pub struct Element {
    pub tag: u64,
    pub class: usize,
    pub fields: Listed<Value>,
}

impl Element {
    /// A field's value, `nil` past the end.
    pub fn field(&self, field: usize) -> Value
        ensures { result ≡ field_of self.now field }
    {
        match self.fields.as_slice().get(field) {
            Some(value) => *value,
            None => NOTHING,
        }
    }

    /// The fields from one on, none past the end.
    pub fn fields_from(&self, field: usize) -> &[Value]
        ensures { result.now ≡ drop field self.now.fields }
    {
        let fields = self.fields.as_slice();
        if field < fields.len() {
            &fields[field..]
        } else {
            &[]
        }
    }
}

/// One change to working memory.
#[derive(Debug, Drop)]
pub enum Change {
    Add(Element),
    /// The tag of the element that goes.
    Remove(u64),
}
