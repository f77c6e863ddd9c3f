//! What is reported about files.
ghost use Rattle.std.specs.Prelude.{◌≡◌, ◌++◌, ◌≤◌, length, take, All, flat_map, IfOk, OnOk};
ghost use Rattle.ops_jobs.specs.Words.{word_bytes};
ghost use Rattle.lint_rules.specs.Walks.{LiesWithin};
ghost use Rattle.lint_rules.specs.Slips.{slips_of};
ghost use Rattle.ops_grammar.specs.Reads.{reads};
ghost use Rattle.lint_top.specs.Report.{error_line, warning_line, status_by, of_remarks, of_read, report};

use crate::lines::{Files, add_error, add_warning};
use crate::remarks::{MOST_WARNINGS, Remark, remarks_of};
use crate::saids::{Terms, add_remark};
use crate::statuses::LintStatus;
use fault_search::{PlacedFault, all_faults};
use lint_rules::{Warning, word_slips};
use ops_base::memory::OutOfMemory;
use ops_check::{ProgramFault, read_program};
use std::alloc::Global;

/// How many errors are reported at most.
pub const MOST_ERRORS: usize = 100;

/// Lines, and the status after them.
#[derive(Drop)]
pub(crate) struct Lines {
    pub(crate) bytes: Vec<u8>,
    pub(crate) status: LintStatus,
}

fn add_errors(
    alloc: Global,
    lines: &mut Vec<u8>,
    files: Files<'_>,
    faults: &[PlacedFault],
) -> Result<(), OutOfMemory>
    requires { All (λ f. f.at ≤ length files.text.now) faults.now }
    ensures { OnOk result (lines.new.items ≡ lines.old.items ++ flat_map (error_line (word_bytes files.entry.names.now) files.entry.text.now files.entry.parts.now) faults.now) }
{
    for fault in faults {
        add_error(alloc, lines, files, *fault)?;
    }
    Ok(())
}

fn add_warnings(
    alloc: Global,
    lines: &mut Vec<u8>,
    files: Files<'_>,
    slips: &[Warning],
) -> Result<(), OutOfMemory>
    requires { All (LiesWithin files.text.now) slips.now }
    ensures { OnOk result (lines.new.items ≡ lines.old.items ++ flat_map (warning_line (word_bytes files.entry.names.now) files.entry.text.now files.entry.parts.now) slips.now) }
{
    for slip in slips {
        add_warning(alloc, lines, files, *slip)?;
    }
    Ok(())
}

/// Returns a line for each fault, followed by one for each slip of a word.
fn report_faults(
    alloc: Global,
    files: Files<'_>,
    faults: &[PlacedFault],
) -> Result<Lines, OutOfMemory>
    requires { All (λ f. f.at ≤ length files.text.now) faults.now }
    ensures bytes { IfOk result (λ r. r.bytes.items
        ≡ flat_map (error_line (word_bytes files.entry.names.now) files.entry.text.now files.entry.parts.now) faults.now
        ++ flat_map (warning_line (word_bytes files.entry.names.now) files.entry.text.now files.entry.parts.now) (take MOST_WARNINGS (slips_of files.entry.text.now))) }
    ensures status { IfOk result (λ r. r.status ≡ LintStatus.Faulty) }
{
    let slips = word_slips(alloc, files.text, MOST_WARNINGS)?;
    let mut bytes = Vec::new(alloc);
    add_errors(alloc, &mut bytes, files, faults)?;
    add_warnings(alloc, &mut bytes, files, &slips)?;
    Ok(Lines {
        bytes,
        status: LintStatus::Faulty,
    })
}

fn status_by(remarks: &[Remark]) -> LintStatus
    ensures { result ≡ status_by remarks.now }
{
    if remarks.is_empty() {
        LintStatus::Clean
    } else {
        LintStatus::Warned
    }
}

/// Returns a line for each of these warnings.
fn report_remarks(
    alloc: Global,
    files: Files<'_>,
    terms: Terms<'_>,
    remarks: &[Remark],
) -> Result<Lines, OutOfMemory>
    ensures bytes { IfOk result (λ r. r.bytes.items ≡ (of_remarks (word_bytes files.entry.names.now) files.entry.text.now files.entry.parts.now terms.entry.names.now terms.entry.classes.now remarks.now).bytes) }
    ensures status { IfOk result (λ r. r.status ≡ status_by remarks.now) }
{
    let mut bytes = Vec::new(alloc);
    for remark in remarks {
        add_remark(alloc, &mut bytes, files, terms, *remark)?;
    }
    let status = status_by(remarks);
    Ok(Lines { bytes, status })
}

/// Returns a line for each warning of a text that is a program.
fn report_program(alloc: Global, files: Files<'_>) -> Result<Lines, OutOfMemory>
    ensures bytes { IfOk result (λ r. r.bytes.items ≡ (of_read (word_bytes files.entry.names.now) files.entry.text.now files.entry.parts.now (reads files.entry.text.now)).bytes) }
    ensures status { IfOk result (λ r. r.status ≡ (of_read (word_bytes files.entry.names.now) files.entry.text.now files.entry.parts.now (reads files.entry.text.now)).status) }
{
    let text = Vec::from_slice(alloc, files.text)?;
    match read_program(alloc, text) {
        Ok((program, names)) => {
            let remarks = remarks_of(alloc, &program)?;
            let terms = Terms {
                names: &names,
                classes: program.classes.as_slice(),
            };
            report_remarks(alloc, files, terms, &remarks)
        }
        Err(ProgramFault::OutOfMemory) => Err(OutOfMemory),
        Err(ProgramFault::At { .. }) => Ok(Lines {
            bytes: Vec::new(alloc),
            status: LintStatus::Clean,
        }),
    }
}

/// Looks for the faults and the slips of a text, and returns a line for each.
pub(crate) fn report(alloc: Global, files: Files<'_>) -> Result<Lines, OutOfMemory>
    ensures bytes { IfOk result (λ r. r.bytes.items ≡ (report (word_bytes files.entry.names.now) files.entry.text.now files.entry.parts.now).bytes) }
    ensures status { IfOk result (λ r. r.status ≡ (report (word_bytes files.entry.names.now) files.entry.text.now files.entry.parts.now).status) }
{
    let faults = all_faults(alloc, files.text, MOST_ERRORS)?;
    if faults.is_empty() {
        report_program(alloc, files)
    } else {
        report_faults(alloc, files, &faults)
    }
}
