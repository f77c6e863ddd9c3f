//! The constants that a command gives to an attribute.
ghost use Rattle.std.specs.Prelude.{◌≡◌, [], ◌∷◌, IfOk};

use crate::list::Listed;
use crate::memory::OutOfMemory;
use crate::values::Value;
use std::alloc::Global;
use std::marker::Model;
use std::slice;

#[derive(Debug, Drop)]
enum Kept {
    One(Value),
    Several(Listed<Value>),
}

/// A list of constants that takes no memory for one, which is what nearly each attribute is given.
#[derive(Debug, Drop)]
pub struct Constants {
    kept: Kept,
}

impl Model for Constants {
    ghost use Rattle.std.specs.Prelude.{List};
    ghost use Rattle.ops_base.specs.Constants.{constants_in};
    ghost use Rattle.ops_base.specs.declared.values.Value as value;

    ghost Value = { List value.Value };

    ghost view = { λ c. constants_in c.kept };
}

impl Constants {
    /// Takes no memory.
    pub fn one(value: Value) -> Constants
        ensures { result ≡ value ∷ [] }
    {
        Constants {
            kept: Kept::One(value),
        }
    }

    /// Takes no memory.
    pub fn several(values: Listed<Value>) -> Constants
        ensures { result ≡ values }
    {
        Constants {
            kept: Kept::Several(values),
        }
    }

    /// Takes no memory.
    pub fn as_slice(&self) -> &[Value]
        ensures { result.now ≡ self.now }
    {
        match &self.kept {
            Kept::One(value) => slice::from_ref(value),
            Kept::Several(values) => values.as_slice(),
        }
    }

    /// Takes memory for several alone.
    pub fn copy(&self, alloc: Global) -> Result<Constants, OutOfMemory>
        ensures { IfOk result (λ c. c ≡ self.now) }
    {
        Ok(match &self.kept {
            Kept::One(value) => Constants::one(*value),
            Kept::Several(values) => Constants::several(values.copy(alloc)?),
        })
    }
}
