//! The words of the command line, out of the arguments of a process.
ghost use Rattle.std.specs.Prelude.{◌≡◌, IfOk, drop};
ghost use Rattle.std.specs.Iterator.{IsFinite};
ghost use Rattle.std.specs.Iterator.Runs.{WholeRun};

use std::alloc::{AllocError, Global};

/// All of the arguments but the first, which is the name of the program, in their order.
pub fn words_after_name<I: Iterator<Item = String>>(
    alloc: Global,
    arguments: I,
) -> Result<Vec<String>, AllocError>
    requires can { I.can_next arguments }
    requires finite { IsFinite (I.remaining arguments) }
    ensures { IfOk result (λ words. WholeRun I.next_gives arguments (λ all. words.items ≡ drop 1 all.items)) }
{
    arguments.skip(1).collect(alloc)
}
