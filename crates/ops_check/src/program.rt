//! Reading a program.
ghost use Rattle.std.specs.Prelude.{◌≡◌, ◌≤◌, ℕ, length, All, IsTrue, IfOk, IfErr, Ok};
ghost use Rattle.ops_base.specs.Valid.{is_valid};
ghost use Rattle.ops_tokens.specs.Tokens.{LiesIn};
ghost use Rattle.ops_grammar.specs.Derivation.{IsText};
ghost use Rattle.ops_grammar.specs.Reads.{reads};
ghost use Rattle.ops_grammar.specs.Spelling.{spelled_program};
ghost use Rattle.ops_grammar.specs.Standing.{words_of, AreRead};
ghost use Rattle.ops_base.specs.Symbols.{is_held};
ghost use Rattle.ops_grammar.specs.TextNames.{AreNamesOf};
ghost use Rattle.ops_forms.specs.Forms.{IsForm};
ghost use Rattle.ops_check.specs.Answered.{IsRefusal, IsStanding, IsAnswer, Comes, Continues, read_of, rest_of};
ghost use Rattle.ops_check.specs.Walks.{view};

use crate::draft::Draft;
use crate::faults::{ProgramFault, TextFault, fault_at, fault_of};
use ops_base::endings::Fault;
use ops_base::list::Listed;
use ops_base::programs::Program;
use ops_base::symbols::Names;
use ops_forms::{Form, FormFault, FormReader, place_of, words_of};
use std::alloc::Global;

/// How many bytes a text may have. A longer text is refused and not read.
pub const LONGEST_TEXT: usize = 16_777_216;

/// Reads a program and the names in it. The text is moved into the program, or dropped if it is refused. Takes time in
/// proportion to the length of the text times the logarithm of the number of names.
pub fn read_program(alloc: Global, text: Vec<u8>) -> Result<(Program, Names), ProgramFault>
    ensures ok { IfOk result (λ r. reads text.items ≡ Ok (record { classes = r.0.classes; rules = r.0.rules; templates = r.0.templates; commands = r.0.commands; names = r.1 })) }
    ensures text { IfOk result (λ r. r.0.text ≡ text.items) }
    ensures fault { IfErr result (λ e. IsRefusal text.items e) }
    ensures stands { IfErr result (λ e. IsStanding text.items e) }
    ensures derived { IfOk result (λ r. IsText (words_of text.items)) }
    ensures named { IfOk result (λ r. IsTrue (is_held (length r.1.held) r.0.classes r.0.rules r.0.templates r.0.commands)) }
    ensures names { IfOk result (λ r. AreNamesOf text.items r.1) }
    ensures again { IfOk result (λ r. AreRead (spelled_program r.0.classes r.0.rules r.0.templates r.0.commands) r.0.classes r.0.rules r.0.templates r.0.commands) }
{
    match read_text(alloc, text.as_slice()) {
        Ok((draft, names)) => Ok((program_of(draft, text), names)),
        Err(TextFault::OutOfMemory) => Err(ProgramFault::OutOfMemory),
        Err(TextFault::At { fault, at }) => {
            let place = place_of(text.as_slice(), at);
            Err(ProgramFault::At {
                fault,
                line: place.line,
                column: place.column,
            })
        }
    }
}

fn read_text(alloc: Global, text: &[u8]) -> Result<(Draft, Names), TextFault>
    ensures { IsAnswer (reads text.now) result }
{
    if text.len() > LONGEST_TEXT {
        return Err(TextFault::At {
            fault: Fault::TooLong,
            at: 0,
        });
    }
    let mut names = Names::new(alloc)?;
    let mut draft = Draft::new(alloc);
    match read_forms(alloc, text, &mut names, &mut draft) {
        Ok(()) => Ok((draft, names)),
        Err(fault) => Err(fault),
    }
}

// reads all forms of the text, one after another
fn read_forms(
    alloc: Global,
    text: &[u8],
    names: &mut Names,
    draft: &mut Draft,
) -> Result<(), TextFault>
    ensures { Continues (rest_of text.now names.old 0 (view draft.old)) (Ok (read_of draft.new names.new)) result }
{
    let reader = FormReader::new();
    let mut from = 0;
    'forms: loop {
        let form = match next_form(&reader, alloc, text, from) {
            Ok(Some(form)) => form,
            Ok(None) => return Ok(()),
            Err(fault) => return Err(fault),
        };
        match read_form(alloc, text, &form, names, draft) {
            Ok(()) => from = form.past,
            Err(fault) => return Err(fault),
        }
    }
}

// the next form, or the fault between forms
fn next_form(
    reader: &FormReader,
    alloc: Global,
    text: &[u8],
    from: usize,
) -> Result<Option<Form>, TextFault>
    requires { from ≤ length text.now }
    ensures { Comes text.now from result }
{
    match reader.read_form(alloc, text, from) {
        Ok(form) => Ok(form),
        Err(FormFault::Lex(fault)) => Err(TextFault::At {
            fault: fault_of(fault),
            at: fault.at,
        }),
        Err(FormFault::Stray { at }) => Err(TextFault::At {
            fault: Fault::Stray,
            at,
        }),
        Err(FormFault::OutOfMemory) => Err(TextFault::OutOfMemory),
    }
}

fn read_form(
    alloc: Global,
    text: &[u8],
    form: &Form,
    names: &mut Names,
    draft: &mut Draft,
) -> Result<(), TextFault>
    requires { All (λ t. LiesIn text.now t) form.now.tokens.items }
    ensures { (from : ℕ) → IsForm text.now from form.now
        → Continues (rest_of text.now names.old from (view draft.old)) (rest_of text.now names.new form.now.past (view draft.new)) result }
{
    let words = words_of(alloc, names, text, form.tokens.as_slice())?;
    match draft.forms(words.as_slice()) {
        Ok(()) => Ok(()),
        Err(refusal) => Err(fault_at(refusal, form.end, text.len())),
    }
}

fn program_of(draft: Draft, text: Vec<u8>) -> Program
    requires { IsTrue (is_valid draft.classes draft.rules draft.templates.items draft.commands (length text.items)) }
    ensures classes { result.classes ≡ draft.classes }
    ensures rules { result.rules ≡ draft.rules }
    ensures templates { result.templates ≡ draft.templates.items }
    ensures commands { result.commands ≡ draft.commands }
    ensures text { result.text ≡ text.items }
{
    let Draft {
        classes,
        rules,
        templates,
        commands,
        ..
    } = draft;
    Program::new(
        Listed::from_vec(classes.into_vec()),
        Listed::from_vec(rules.into_vec()),
        Listed::from_vec(templates),
        Listed::from_vec(commands.into_vec()),
        Listed::from_vec(text),
    )
}
