//! The origin of the values that an instantiation binds.
ghost use Rattle.std.specs.Prelude.{◌≡◌, ◌+◌, ◌++◌, OnOk, IfOk, map};
ghost use Rattle.why_lines.specs.declared.spots.Spot.{Spot};
ghost use Rattle.why_lines.specs.WhyLines.{fields_bound, spots_from};

use ops_base::conditions::{Condition, Part};
use ops_base::memory::OutOfMemory;
use std::alloc::Global;
use why::variable_of;

/// A test that binds a variable to a value.
#[derive(Clone, Copy)]
pub(crate) struct Spot {
    /// The place of its condition among the parts of the left side, counted from 1.
    pub(crate) place: usize,
    pub(crate) class: usize,
    pub(crate) field: usize,
}

fn add_spots(spots: &mut Vec<Spot>, place: usize, c: &Condition) -> Result<(), OutOfMemory>
    ensures { OnOk result (spots.new.items ≡ spots.old.items
        ++ map (λ f. record { place = place; class = c.now.class; field = f }) (fields_bound c.now.tests)) }
{
    for test in c.tests.as_slice() {
        if variable_of(test).is_some() {
            spots.push(Spot {
                place,
                class: c.class,
                field: test.field,
            })?;
        }
    }
    Ok(())
}

/// The spots of the tests of positive conditions, in text order.
pub(crate) fn spots_of(alloc: Global, parts: &[Part]) -> Result<Vec<Spot>, OutOfMemory>
    ensures { IfOk result (λ v. v.items ≡ spots_from 1 parts.now) }
{
    let mut spots = Vec::new(alloc);
    for (before, part) in parts.iter().enumerate() {
        match part {
            Part::One(c) if !c.negated => add_spots(&mut spots, before + 1, c)?,
            _ => {}
        }
    }
    Ok(spots)
}
