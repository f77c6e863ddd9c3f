//! The lines that answer words, files and texts that are not run, and those that tell a network.
ghost use Rattle.std.specs.Prelude.{◌≡◌, ◌++◌, IfOk, OnOk};
ghost use Rattle.ops_jobs.specs.Usage.{usage_line};
ghost use Rattle.ops_meaning.specs.Layout.{unread_line, fault_line};
ghost use Rattle.ops_top.specs.NetLines.{count_line, net_lines};
ghost use Rattle.ops_top.specs.Summary.{summary_line};

use itoa::Buffer;
use net_base::counts::Counts;
use ops_base::endings::{Fault, fault_text};
use ops_base::memory::OutOfMemory;
use std::alloc::Global;

/// The line that answers words that don't fit.
pub(crate) fn usage_line() -> &'static [u8]
    ensures { result.now ≡ usage_line }
{
    b"usage: ops [--match direct|serial|rounds|free|steal] [--workers N] [--lines L] [--limit N] [--overlap] FILE.. | ops --gen SEED SIZE | ops --net FILE.. | ops --why FILE..\n"
}

/// The line that answers a file that can't be read.
pub(crate) fn unread_line(alloc: Global, name: &[u8]) -> Result<Vec<u8>, OutOfMemory>
    ensures { IfOk result (λ v. v.items ≡ unread_line name.now) }
{
    let mut line = Vec::from_slice(alloc, b"ops: cannot read ")?;
    line.extend_from_slice(name)?;
    line.push(b'\n')?;
    Ok(line)
}

/// The line that answers a text with a fault.
pub(crate) fn fault_line(
    alloc: Global,
    fault: Fault,
    line: u64,
    column: u64,
) -> Result<Vec<u8>, OutOfMemory>
    ensures { IfOk result (λ v. v.items ≡ fault_line fault line column) }
{
    let mut buffer = Buffer::new();
    let mut text = Vec::from_slice(alloc, b"ops: ")?;
    text.extend_from_slice(buffer.format(line).as_bytes())?;
    text.extend_from_slice(b":")?;
    text.extend_from_slice(buffer.format(column).as_bytes())?;
    text.extend_from_slice(b": ")?;
    text.extend_from_slice(fault_text(fault).as_bytes())?;
    text.push(b'\n')?;
    Ok(text)
}

/// The line that sums up a session that came to its end, without its LF.
pub(crate) fn summary_line(
    alloc: Global,
    firings: u64,
    elements: u64,
    last_tag: u64,
) -> Result<Vec<u8>, OutOfMemory>
    ensures { IfOk result (λ v. v.items ≡ summary_line firings elements last_tag) }
{
    let mut buffer = Buffer::new();
    let mut text = Vec::from_slice(alloc, b"summary: firings ")?;
    text.extend_from_slice(buffer.format(firings).as_bytes())?;
    text.extend_from_slice(b" elements ")?;
    text.extend_from_slice(buffer.format(elements).as_bytes())?;
    text.extend_from_slice(b" last-tag ")?;
    text.extend_from_slice(buffer.format(last_tag).as_bytes())?;
    Ok(text)
}

/// Adds a number after its name.
fn add_count(lines: &mut Vec<u8>, name: &[u8], count: usize) -> Result<(), OutOfMemory>
    ensures { OnOk result (lines.new.items ≡ lines.old.items ++ count_line name.now count) }
{
    let mut buffer = Buffer::new();
    lines.extend_from_slice(name)?;
    lines.push(b' ')?;
    lines.extend_from_slice(buffer.format(count).as_bytes())?;
    lines.push(b'\n')?;
    Ok(())
}

/// The lines that tell how large a network is.
pub(crate) fn net_lines(alloc: Global, counts: Counts) -> Result<Vec<u8>, OutOfMemory>
    ensures { IfOk result (λ v. v.items ≡ net_lines counts) }
{
    let mut lines = Vec::new(alloc);
    add_count(&mut lines, b"alpha", counts.alpha)?;
    add_count(&mut lines, b"join", counts.join)?;
    add_count(&mut lines, b"negated", counts.negated)?;
    add_count(&mut lines, b"terminal", counts.terminal)?;
    Ok(lines)
}
