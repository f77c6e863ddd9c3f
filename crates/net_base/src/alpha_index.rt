//! The alphas that an element can pass, found by its class and by the constants in its fields.
ghost use Rattle.std.specs.Prelude.{◌≡◌, [], IfOk, OnOk};
ghost use Rattle.net_base.specs.Feeds.{AddsAlpha, HasField, IsIndex, constant_of, first_constant, found_in, key_of};

use crate::keys::{Constant, Key};
use crate::lists::Lists;
use crate::net::Numbers;
use crate::nodes::Alpha;
use crate::rows::Rows;
use ops_base::conditions::{Operand, Test};
use ops_base::elements::Element;
use ops_base::memory::OutOfMemory;
use ops_base::values::Pred;
use std::alloc::Global;

/// The alphas that require no constant by class, the others by key, and for each class the fields in which its alphas
/// first require a constant, each field once.
#[derive(Drop)]
pub(crate) struct AlphaIndex {
    plain: Rows,
    keyed: Lists<Key>,
    fields: Rows,
}

/// The constant that the test requires in its field.
fn constant_of(test: &Test) -> Option<Constant>
    ensures { result ≡ constant_of test.now }
{
    if test.binds {
        return None;
    }
    match (test.pred, &test.operand) {
        (Pred::Eq, Operand::Constant(value)) => Some(Constant {
            field: test.field,
            value: *value,
        }),
        _ => None,
    }
}

fn first_constant(tests: &[Test]) -> Option<Constant>
    ensures { result ≡ first_constant tests.now }
{
    for test in tests {
        if let Some(constant) = constant_of(test) {
            return Some(constant);
        }
    }
    None
}

fn key_of(alpha: &Alpha) -> Key
    ensures { result ≡ key_of alpha.now }
{
    Key {
        class: alpha.class,
        constant: first_constant(alpha.tests.as_slice()),
    }
}

impl AlphaIndex {
    /// The index of these alphas.
    pub(crate) fn of(alloc: Global, alphas: &[Alpha]) -> Result<AlphaIndex, OutOfMemory>
        ensures { IfOk result (IsIndex alphas.now) }
    {
        let mut index = AlphaIndex {
            plain: Rows::new(alloc),
            keyed: Lists::new(alloc),
            fields: Rows::new(alloc),
        };
        for (number, alpha) in alphas.iter().enumerate() {
            index.add(alloc, number, alpha)?;
        }
        Ok(index)
    }

    fn add_field(&mut self, alloc: Global, class: usize, field: usize) -> Result<(), OutOfMemory>
        ensures { OnOk result (HasField self.old self.new class field) }
    {
        if self.fields.at(class).contains(&field) {
            return Ok(());
        }
        self.fields.add(alloc, class, field)
    }

    /// Adds the alpha with this number.
    pub(crate) fn add(
        &mut self,
        alloc: Global,
        number: usize,
        alpha: &Alpha,
    ) -> Result<(), OutOfMemory>
        ensures { OnOk result (AddsAlpha self.old self.new number alpha.now) }
    {
        let key = key_of(alpha);
        match key.constant {
            Some(constant) => {
                self.add_field(alloc, key.class, constant.field)?;
                self.keyed.add(alloc, key, number)
            }
            None => self.plain.add(alloc, key.class, number),
        }
    }

    /// The numbers found by the class of the element, and by the value in each field that matters in its class. They
    /// are put into an empty list.
    pub(crate) fn find(&self, element: &Element, found: &mut Numbers) -> Result<(), OutOfMemory>
        requires { found.old.items ≡ [] }
        ensures { OnOk result (found.new.items ≡ found_in self.now element.now) }
    {
        let class = element.class;
        found.extend_from_slice(self.plain.at(class))?;
        for field in self.fields.at(class) {
            let constant = Constant {
                field: *field,
                value: element.field(*field),
            };
            let key = Key {
                class,
                constant: Some(constant),
            };
            found.extend_from_slice(self.keyed.at(key))?;
        }
        Ok(())
    }
}
