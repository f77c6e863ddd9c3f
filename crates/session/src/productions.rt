//! The commands that name productions: `pm`, which prints their texts, and `pbreak`, for their breaks.
ghost use Rattle.std.specs.Prelude.{◌≡◌, ◌==◌, ◌^◌, ◌<◌, ◌≤◌, [], ◌∷◌, length, map, find, IsTrue, if◌then◌else◌};
ghost use Rattle.std.specs.Option.{option_copied};
ghost use Rattle.ops_io.specs.Ports.{port, PutsBytes};
ghost use Rattle.ops_meaning.specs.Layout.{break_line, line_at, lines_at, unknown_line};
ghost use Rattle.ops_meaning.specs.Running.{all_toggled, break_lines, breaks_given, lists, production_line, rule_text, toggled, unknown_of};
ghost use Rattle.act_phase.specs.Outcomes.{setting_of};
ghost use Rattle.session.specs.Courses.{IsUnderWay};
ghost use Rattle.session.specs.Deeds.{Does};

use crate::runs::has_break;
use crate::session::Session;
use live_rules::rule_named;
use ops_base::endings::Ending;
use ops_base::list::Listed;
use ops_base::programs::Program;
use ops_base::rules::Rule;
use ops_base::symbols::Names;
use ops_base::values::Sym;
use ops_io::{Out, Sink, WriteFailed};
use ops_print::{put_line, put_name_line};
use work_store::Matcher;

/// The production with this name. Searches the productions one after the other.
fn production(rules: &[Rule], name: Sym) -> Option<&Rule>
    ensures { option_copied result ≡ find (λ r. r.name.0 == name.0) rules.now }
{
    rules.iter().find(|rule| rule.name == name)
}

/// The text of a production, from its opening to its closing bracket.
fn rule_text<'t>(text: &'t [u8], rule: &Rule) -> &'t [u8]
    requires first { rule.now.first ≤ rule.now.past }
    requires past { rule.now.past ≤ length text.now }
    ensures { result.now ≡ rule_text text.now rule.now }
{
    &text[rule.first..rule.past]
}

/// Puts the production with this name as it is in the text, or writes that there is none.
fn put_production<K: Sink>(
    out: &mut Out,
    sink: &mut K,
    names: &Names,
    program: &Program,
    name: &Sym,
) -> Result<(), WriteFailed>
    requires whole { IsTrue out.old.whole }
    requires faults { K.faults sink.old < 2 ^ 63 }
    ensures { PutsBytes result (port (K.taken sink.old) (K.faults sink.old) out.old)
        (port (K.taken sink.new) (K.faults sink.new) out.new)
        (line_at out.old.column (production_line (setting_of program.now 0) names.now name.now)) }
{
    match production(program.rules.as_slice(), *name) {
        Some(rule) => put_line(out, sink, rule_text(program.text.as_slice(), rule)),
        None => put_name_line(out, sink, names, b"no production ", name),
    }
}

/// The same for several names.
fn put_productions<K: Sink>(
    out: &mut Out,
    sink: &mut K,
    names: &Names,
    program: &Program,
    given: &[Sym],
) -> Result<(), WriteFailed>
    requires whole { IsTrue out.old.whole }
    requires faults { K.faults sink.old < 2 ^ 63 }
    ensures { PutsBytes result (port (K.taken sink.old) (K.faults sink.old) out.old)
        (port (K.taken sink.new) (K.faults sink.new) out.new)
        (lines_at out.old.column (map (production_line (setting_of program.now 0) names.now) given.now)) }
{
    for name in given {
        put_production(out, sink, names, program, name)?;
    }
    Ok(())
}

/// The command `pm`: lists the productions with these names.
pub(crate) fn list_productions<M: Matcher, K: Sink>(
    program: &Program,
    names: &Names,
    session: Session<M>,
    given: &Listed<Sym>,
    out: &mut Out,
    sink: &mut K,
) -> Result<Session<M>, Ending>
    requires under_way { IsUnderWay M.stored M.stands_for program.now.rules session }
    requires whole { IsTrue out.old.whole }
    requires faults { K.faults sink.old < 2 ^ 63 }
    ensures { Does M.stored M.stands_for program.now.rules names.now session result
        (port (K.taken sink.old) (K.faults sink.old) out.old)
        (port (K.taken sink.new) (K.faults sink.new) out.new)
        (λ k. lists out.old.column (map (production_line (setting_of program.now 0) k.course.names) given.now) k) }
{
    put_productions(out, sink, names, program, given.as_slice())?;
    Ok(session)
}

/// Puts the line of a production, if it has a break.
fn put_break<K: Sink>(
    out: &mut Out,
    sink: &mut K,
    names: &Names,
    has: bool,
    name: &Sym,
) -> Result<(), WriteFailed>
    requires whole { IsTrue out.old.whole }
    requires faults { K.faults sink.old < 2 ^ 63 }
    ensures { PutsBytes result (port (K.taken sink.old) (K.faults sink.old) out.old)
        (port (K.taken sink.new) (K.faults sink.new) out.new)
        (lines_at out.old.column (if has then break_line names.now name.now ∷ [] else [])) }
{
    if has {
        put_name_line(out, sink, names, b"break ", name)
    } else {
        Ok(())
    }
}

/// Puts the lines of the productions that have a break.
fn put_breaks<K: Sink>(
    out: &mut Out,
    sink: &mut K,
    names: &Names,
    program: &Program,
    breaks: &[bool],
) -> Result<(), WriteFailed>
    requires whole { IsTrue out.old.whole }
    requires faults { K.faults sink.old < 2 ^ 63 }
    ensures { PutsBytes result (port (K.taken sink.old) (K.faults sink.old) out.old)
        (port (K.taken sink.new) (K.faults sink.new) out.new)
        (lines_at out.old.column (break_lines names.now breaks.now 0 program.now.rules)) }
{
    let rules = program.rules.as_slice();
    for (number, rule) in rules.iter().enumerate() {
        put_break(out, sink, names, has_break(breaks, number), &rule.name)?;
    }
    Ok(())
}

/// Writes that no production has this name, if that is so.
fn put_where_unknown<K: Sink>(
    out: &mut Out,
    sink: &mut K,
    names: &Names,
    program: &Program,
    name: &Sym,
) -> Result<(), WriteFailed>
    requires whole { IsTrue out.old.whole }
    requires faults { K.faults sink.old < 2 ^ 63 }
    ensures { PutsBytes result (port (K.taken sink.old) (K.faults sink.old) out.old)
        (port (K.taken sink.new) (K.faults sink.new) out.new)
        (lines_at out.old.column (map (unknown_line names.now) (unknown_of program.now.rules (name.now ∷ [])))) }
{
    match rule_named(program.rules.as_slice(), *name) {
        Some(_) => Ok(()),
        None => put_name_line(out, sink, names, b"no production ", name),
    }
}

/// Writes which of these names no production has.
fn put_unknown<K: Sink>(
    out: &mut Out,
    sink: &mut K,
    names: &Names,
    program: &Program,
    given: &[Sym],
) -> Result<(), WriteFailed>
    requires whole { IsTrue out.old.whole }
    requires faults { K.faults sink.old < 2 ^ 63 }
    ensures { PutsBytes result (port (K.taken sink.old) (K.faults sink.old) out.old)
        (port (K.taken sink.new) (K.faults sink.new) out.new)
        (lines_at out.old.column (map (unknown_line names.now) (unknown_of program.now.rules given.now))) }
{
    for name in given {
        put_where_unknown(out, sink, names, program, name)?;
    }
    Ok(())
}

/// Sets the break of the production with this number, or clears it if it was set. Does nothing if there is no such
/// production.
fn toggle(breaks: &mut Vec<bool>, number: Option<usize>)
    ensures { breaks.new.items ≡ toggled number breaks.old.items }
{
    if let Some(rule) = number
        && rule < breaks.len()
    {
        breaks[rule] = !breaks[rule];
    }
}

/// The same for each production that has one of these names.
fn toggle_all(rules: &[Rule], given: &[Sym], breaks: Listed<bool>) -> Listed<bool>
    ensures { result ≡ all_toggled rules.now given.now breaks }
{
    let mut breaks = breaks.into_vec();
    for name in given {
        toggle(&mut breaks, rule_named(rules, *name));
    }
    Listed::from_vec(breaks)
}

/// The command `pbreak`: sets or clears breaks by names, or lists them if no name is given. For each name it searches
/// the productions one after the other.
pub(crate) fn give_breaks<M: Matcher, K: Sink>(
    program: &Program,
    names: &Names,
    session: Session<M>,
    given: &Listed<Sym>,
    out: &mut Out,
    sink: &mut K,
) -> Result<Session<M>, Ending>
    requires under_way { IsUnderWay M.stored M.stands_for program.now.rules session }
    requires whole { IsTrue out.old.whole }
    requires faults { K.faults sink.old < 2 ^ 63 }
    ensures { Does M.stored M.stands_for program.now.rules names.now session result
        (port (K.taken sink.old) (K.faults sink.old) out.old)
        (port (K.taken sink.new) (K.faults sink.new) out.new)
        (λ k. breaks_given (setting_of program.now 0) out.old.column given.now k) }
{
    let given = given.as_slice();
    if given.is_empty() {
        put_breaks(out, sink, names, program, session.breaks.as_slice())?;
        return Ok(session);
    }
    put_unknown(out, sink, names, program, given)?;
    let mut session = session;
    session.breaks = toggle_all(program.rules.as_slice(), given, session.breaks);
    Ok(session)
}
