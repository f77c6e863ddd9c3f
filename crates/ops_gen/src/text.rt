//! The text, line after line.
ghost use Rattle.std.specs.Prelude.{◌≡◌, ◌≤◌, ◌++◌, IfOk, OnOk};
ghost use Rattle.ops_gen.specs.Workload.{declarations, clear_line, commands, lines_to, line_of, workload};

use crate::lines::{Lines, line_of};
use ops_base::memory::OutOfMemory;
use std::alloc::Global;

const DECLARATIONS: &[u8] =
    b"(literalize item id at left)\n(literalize road from to)\n(literalize block at)\n";

const CLEAR_LINE: &[u8] = b"(p clear { <b> (block) } --> (remove <b>))\n";

const COMMANDS: &[u8] = b"(run)\n(ppwm item ^id 1)\n";

/// Adds the lines of this kind with the numbers from 1 to `last`.
fn add_lines(
    alloc: Global,
    text: &mut Vec<u8>,
    lines: Lines,
    seed: u64,
    last: u64,
) -> Result<(), OutOfMemory>
    requires seed { seed ≤ 1000000 }
    requires last { last ≤ 100000 }
    ensures { OnOk result (text.new.items ≡ text.old.items ++ lines_to (line_of lines seed) last) }
{
    for number in 0..last {
        let line = line_of(alloc, lines, seed, number + 1)?;
        text.extend_from_slice(line.as_bytes())?;
    }
    Ok(())
}

/// The text of the workload of this seed, with this many items. It takes memory and time for each of its bytes: about
/// 50 an item.
pub fn gen_text(alloc: Global, seed: u64, size: u64) -> Result<Vec<u8>, OutOfMemory>
    requires seed { seed ≤ 1000000 }
    requires size { size ≤ 100000 }
    ensures { IfOk result (λ text. text.items ≡ workload seed size) }
{
    let mut text = Vec::from_slice(alloc, DECLARATIONS)?;
    add_lines(alloc, &mut text, Lines::Moves, seed, 59)?;
    text.extend_from_slice(CLEAR_LINE)?;
    add_lines(alloc, &mut text, Lines::Roads, seed, 59)?;
    add_lines(alloc, &mut text, Lines::Blocks, seed, 10)?;
    add_lines(alloc, &mut text, Lines::Items, seed, size)?;
    text.extend_from_slice(COMMANDS)?;
    Ok(text)
}
