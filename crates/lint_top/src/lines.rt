//! The lines that are reported.
ghost use Rattle.std.specs.Prelude.{◌≡◌, ◌++◌, ◌≤◌, length, IfOk, OnOk};
ghost use Rattle.ops_jobs.specs.Words.{word_bytes};
ghost use Rattle.lint_top.specs.Parts.{file_name};
ghost use Rattle.lint_top.specs.Report.{line_at, line_for, error_text, error_line, word_at, warning_text, warning_line};

use crate::places::place_in;
use fault_search::PlacedFault;
use itoa::Buffer;
use joined_files::{Part, part_at};
use lint_rules::{Warning, slip_text};
use ops_base::endings::{Fault, fault_text};
use ops_base::memory::OutOfMemory;
use ops_forms::Place;
use std::alloc::Global;

/// The text of files: their names, the joined text, and the parts of it that belong to each file.
#[derive(Clone, Copy)]
pub(crate) struct Files<'a> {
    pub(crate) names: &'a [String],
    pub(crate) text: &'a [u8],
    pub(crate) parts: &'a [Part],
}

/// The name of a part's file.
fn file_name(names: &[String], part: Part) -> &[u8]
    ensures { result.now ≡ file_name (word_bytes names.now) part }
{
    match names.get(part.file) {
        Some(name) => name.as_bytes(),
        None => b"",
    }
}

/// Adds a line with this message about a place.
pub(crate) fn add_line(
    lines: &mut Vec<u8>,
    name: &[u8],
    line: u64,
    column: u64,
    what: &[u8],
) -> Result<(), OutOfMemory>
    ensures { OnOk result (lines.new.items ≡ lines.old.items ++ line_at name.now line column what.now) }
{
    let mut buffer = Buffer::new();
    lines.extend_from_slice(name)?;
    lines.push(b':')?;
    lines.extend_from_slice(buffer.format(line).as_bytes())?;
    lines.push(b':')?;
    lines.extend_from_slice(buffer.format(column).as_bytes())?;
    lines.extend_from_slice(b": ")?;
    lines.extend_from_slice(what)?;
    lines.push(b'\n')?;
    Ok(())
}

pub(crate) fn add_line_for(
    lines: &mut Vec<u8>,
    files: Files<'_>,
    at: usize,
    what: &[u8],
) -> Result<(), OutOfMemory>
    requires { at ≤ length files.text.now }
    ensures { OnOk result (lines.new.items ≡ lines.old.items ++ line_for (word_bytes files.entry.names.now) files.entry.text.now files.entry.parts.now at what.now) }
{
    let part = part_at(files.parts, at);
    let place = place_in(files.text, part, at);
    let name = file_name(files.names, part);
    add_line(lines, name, place.line, place.column, what)
}

/// The message about a fault.
pub(crate) fn error_text(alloc: Global, fault: Fault) -> Result<Vec<u8>, OutOfMemory>
    ensures { IfOk result (λ v. v.items ≡ error_text fault) }
{
    let mut text = Vec::from_slice(alloc, b"error: ")?;
    text.extend_from_slice(fault_text(fault).as_bytes())?;
    Ok(text)
}

/// The bytes of a word, none if it is not inside the text.
pub(crate) fn word_at(text: &[u8], first: usize, past: usize) -> &[u8]
    ensures { result.now ≡ word_at text.now first past }
{
    if first <= past && past <= text.len() {
        &text[first..past]
    } else {
        &[]
    }
}

pub(crate) fn warning_text(
    alloc: Global,
    text: &[u8],
    warning: Warning,
) -> Result<Vec<u8>, OutOfMemory>
    ensures { IfOk result (λ v. v.items ≡ warning_text text.now warning) }
{
    let mut said = Vec::from_slice(alloc, b"warning: ")?;
    said.extend_from_slice(word_at(text, warning.first, warning.past))?;
    said.extend_from_slice(slip_text(warning.slip).as_bytes())?;
    Ok(said)
}

/// Adds the line of a fault.
pub(crate) fn add_error(
    alloc: Global,
    lines: &mut Vec<u8>,
    files: Files<'_>,
    fault: PlacedFault,
) -> Result<(), OutOfMemory>
    requires { fault.at ≤ length files.text.now }
    ensures { OnOk result (lines.new.items ≡ lines.old.items ++ error_line (word_bytes files.entry.names.now) files.entry.text.now files.entry.parts.now fault) }
{
    let what = error_text(alloc, fault.fault)?;
    add_line_for(lines, files, fault.at, &what)
}

/// Adds the line of a slip.
pub(crate) fn add_warning(
    alloc: Global,
    lines: &mut Vec<u8>,
    files: Files<'_>,
    warning: Warning,
) -> Result<(), OutOfMemory>
    requires { warning.first ≤ length files.text.now }
    ensures { OnOk result (lines.new.items ≡ lines.old.items ++ warning_line (word_bytes files.entry.names.now) files.entry.text.now files.entry.parts.now warning) }
{
    let what = warning_text(alloc, files.text, warning)?;
    add_line_for(lines, files, warning.first, &what)
}
