//! The numbered lines of the text.
ghost use Rattle.std.specs.Prelude.{◌≡◌, ◌≤◌, IfOk, string_bytes};
ghost use Rattle.ops_gen.specs.Workload.{block_line, item_line, line_of, move_line, road_line};

use std::alloc::{AllocError, Global};

/// The kinds of numbered lines, in the order in which they stand.
#[derive(Clone, Copy, Debug, PartialEq, Eq)]
pub(crate) enum Lines {
    /// Rules that move an item on from a station.
    Moves,
    /// Where the road from a station leads.
    Roads,
    /// Blocks, each at a station.
    Blocks,
    /// Items, each at a station and with a number of moves left.
    Items,
}

/// How many stations there are.
const STATIONS: u64 = 59;

fn move_line(alloc: Global, station: u64) -> Result<String, AllocError>
    ensures { IfOk result (λ line. string_bytes line ≡ move_line station) }
{
    format!(in alloc;
        "(p move-{station} {{ <i> (item ^at {station} ^left {{ <c> > 0 }}) }} (road ^from {station} ^to <t>) - (block ^at <t>) --> (modify <i> ^at <t> ^left (compute <c> - 1)))\n"
    )
}

fn road_line(alloc: Global, seed: u64, from: u64) -> Result<String, AllocError>
    requires seed { seed ≤ 1000000 }
    requires from { from ≤ 100000 }
    ensures { IfOk result (λ line. string_bytes line ≡ road_line seed from) }
{
    let to = 1 + (seed + from * from) % STATIONS;
    format!(in alloc; "(make road ^from {from} ^to {to})\n")
}

fn block_line(alloc: Global, seed: u64, number: u64) -> Result<String, AllocError>
    requires seed { seed ≤ 1000000 }
    requires number { number ≤ 100000 }
    ensures { IfOk result (λ line. string_bytes line ≡ block_line seed number) }
{
    let at = 1 + (seed + 7 * number) % STATIONS;
    format!(in alloc; "(make block ^at {at})\n")
}

fn item_line(alloc: Global, seed: u64, id: u64) -> Result<String, AllocError>
    requires seed { seed ≤ 1000000 }
    requires id { id ≤ 100000 }
    ensures { IfOk result (λ line. string_bytes line ≡ item_line seed id) }
{
    let at = 1 + (31 * seed + 17 * id) % STATIONS;
    let left = id % 3;
    format!(in alloc; "(make item ^id {id} ^at {at} ^left {left})\n")
}

/// The line of this kind with this number.
pub(crate) fn line_of(
    alloc: Global,
    lines: Lines,
    seed: u64,
    number: u64,
) -> Result<String, AllocError>
    requires seed { seed ≤ 1000000 }
    requires number { number ≤ 100000 }
    ensures { IfOk result (λ line. string_bytes line ≡ line_of lines seed number) }
{
    match lines {
        Lines::Moves => move_line(alloc, number),
        Lines::Roads => road_line(alloc, seed, number),
        Lines::Blocks => block_line(alloc, seed, number),
        Lines::Items => item_line(alloc, seed, number),
    }
}
