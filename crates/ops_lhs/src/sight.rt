//! What a left side leaves in sight.
ghost use Rattle.std.specs.Prelude.{◌≡◌, IfOk, OnOk, OnErr};
ghost use Rattle.ops_base.specs.Valid.{cells_of};
ghost use Rattle.ops_forms.specs.Sights.{cells_from};

use crate::sides::LeftSide;
use ops_base::conditions::Part;
use ops_base::list::Listed;
use ops_base::memory::OutOfMemory;
use ops_forms::Scope;
use std::alloc::Global;

// Puts into the scope what the left side leaves in sight, and nothing of an earlier one, and returns the conditions.
pub fn show(alloc: Global, scope: &mut Scope, side: LeftSide) -> Result<Vec<Part>, OutOfMemory>
    ensures conditions { IfOk result (λ conditions. conditions.items ≡ side.conditions.items) }
    ensures ok { OnOk result (scope.new ≡ record scope.old { values = side.values; elements = side.elements; variables = side.variables; counted = side.counted; holes = side.holes; cells = cells_of side.conditions.items; conditions = cells_from 0 side.conditions.items }) }
    ensures err { OnErr result (scope.new ≡ scope.old) }
{
    let cells = classes_of_cells(alloc, &side.conditions)?;
    let conditions = cells_of_conditions(alloc, &side.conditions)?;
    scope.values = side.values;
    scope.elements = side.elements;
    scope.variables = side.variables;
    scope.counted = side.counted;
    scope.holes = side.holes;
    scope.cells = cells;
    scope.conditions = conditions;
    Ok(side.conditions)
}

/// The class of each cell. Takes time in proportion to the number of parts, as `cells_of_conditions` does.
pub fn classes_of_cells(alloc: Global, parts: &[Part]) -> Result<Listed<usize>, OutOfMemory>
    ensures { IfOk result (λ cells. cells ≡ cells_of parts.now) }
{
    let mut cells = Listed::new(alloc);
    for part in parts {
        if let Part::One(condition) = part {
            if !condition.negated {
                cells.push(condition.class)?;
            }
        }
    }
    Ok(cells)
}

/// The cell of each part, `None` for a negated condition or a group.
pub fn cells_of_conditions(
    alloc: Global,
    parts: &[Part],
) -> Result<Listed<Option<usize>>, OutOfMemory>
    ensures { IfOk result (λ cells. cells ≡ cells_from 0 parts.now) }
{
    let mut cells = Listed::new(alloc);
    let mut next = 0;
    for part in parts {
        match part {
            Part::One(condition) => {
                if condition.negated {
                    cells.push(None)?;
                } else {
                    cells.push(Some(next))?;
                    next += 1;
                }
            }
            Part::Group(_) => cells.push(None)?,
        }
    }
    Ok(cells)
}
