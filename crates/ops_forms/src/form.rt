//! Reads the next form of a text.
ghost use Rattle.std.specs.Prelude.{ℕ, ◌≡◌, ◌≤◌, ◌<◌, ◌^◌, length, true, if◌then◌else◌, All, IfOk, Ok, Some};
ghost use Rattle.ops_tokens.specs.Program.{program_table};
ghost use Rattle.ops_tokens.specs.Tokens.{token_at, LiesIn};
ghost use Rattle.ops_grammar.specs.Grammar.{is_left};
ghost use Rattle.ops_grammar.specs.Reads.{is_numeric};
ghost use Rattle.ops_forms.specs.Forms.{open_behind, IsRaw, IsForm, IsNext};
ghost use Rattle.ops_forms.specs.declared.form.FormFault.TheVariants.{Lex as Bad, Stray as Astray, OutOfMemory as WantOfMemory};

use crate::pairs::{has_hole, joined};
use ops_base::memory::OutOfMemory;
use ops_tokens::token::{FRACTION_NUMBER, NUMBER_RANGE};
use ops_tokens::{LexFault, Scanner, Token, TokenKind};
use std::alloc::Global;
use thiserror::Error;

/// How many tokens there is room for at first: most forms have no more.
const TOKENS_AT_FIRST: usize = 32;

/// How the tokens of a form end.
#[derive(Clone, Copy, Debug, PartialEq, Eq)]
pub enum FormEnd {
    /// The last token closes the form.
    Closed,
    /// A fault follows the tokens instead of a token, and the form is open.
    Fault(LexFault),
    /// The text ends after the tokens, and the form is open.
    Text,
}

/// The tokens of a form, from its opening bracket on, the byte past the last of them, and how they end.
#[derive(Drop)]
pub struct Form {
    pub tokens: Vec<Token>,
    pub past: usize,
    pub end: FormEnd,
}

/// Why there is no form at a place.
#[derive(Clone, Copy, Debug, PartialEq, Eq, Error)]
pub enum FormFault {
    /// A bad byte, or a bar that is not closed.
    #[error("byte {}: no token", .0.at)]
    Lex(LexFault),
    /// An atom, a caret or a bracket that begins no form, at its first byte.
    #[error("byte {at}: no form")]
    Stray { at: usize },
    #[error("out of memory")]
    OutOfMemory,
}

impl From<OutOfMemory> for FormFault {
    ghost from_gives = { λ _ e. e ≡ WantOfMemory };

    fn from(_error: OutOfMemory) -> FormFault {
        FormFault::OutOfMemory
    }
}

/// Reads forms. It is created once, for any number of texts.
#[derive(Drop)]
pub struct FormReader {
    scanner: Scanner,
}

impl FormReader {
    /// Allocates nothing.
    pub fn new() -> FormReader
        ensures { result.scanner.table ≡ program_table }
    {
        FormReader {
            scanner: Scanner::new(),
        }
    }

    /// The next form from `from` on, or `None` if only white space and comments are left. Takes time in proportion to
    /// the bytes that it passes, and memory in proportion to the number of the form's tokens.
    pub fn read_form(
        &self,
        alloc: Global,
        text: &[u8],
        from: usize,
    ) -> Result<Option<Form>, FormFault>
        requires { from ≤ length text.now }
        ensures { IsNext text.now from result }
    {
        match self.scanner.next_token(text, from) {
            Ok(None) => Ok(None),
            Ok(Some(token)) => match token.kind {
                TokenKind::Left => Ok(Some(self.joined_form(alloc, text, token)?)),
                _ => Err(FormFault::Stray { at: token.first }),
            },
            Err(fault) => Err(no_form(fault)),
        }
    }

    /// The form that starts with the bracket `left`.
    fn joined_form(&self, alloc: Global, text: &[u8], left: Token) -> Result<Form, OutOfMemory>
        requires opens { is_left left.kind ≡ true }
        requires some { left.first < left.past }
        requires lies { LiesIn text.now left }
        ensures { IfOk result (λ form. (from : ℕ) → from ≤ length text.now → token_at text.now from ≡ Ok (Some left) → IsForm text.now from form) }
    {
        let form = self.form_of(alloc, text, left)?;
        if !has_hole(text, form.tokens.as_slice()) {
            return Ok(form);
        }
        let tokens = joined(alloc, text, form.tokens.as_slice())?;
        Ok(Form {
            tokens,
            past: form.past,
            end: form.end,
        })
    }

    /// The same, with its tokens as the text has them.
    fn form_of(&self, alloc: Global, text: &[u8], left: Token) -> Result<Form, OutOfMemory>
        requires opens { is_left left.kind ≡ true }
        requires some { left.first < left.past }
        requires lies { LiesIn text.now left }
        ensures { IfOk result (λ form. All (λ t. LiesIn text.now t) form.tokens.items × ((from : ℕ) → from ≤ length text.now → token_at text.now from ≡ Ok (Some left) → IsRaw text.now from form)) }
    {
        let mut tokens = Vec::with_capacity(alloc, TOKENS_AT_FIRST)?;
        tokens.push(left)?;
        let mut past = left.past;
        let mut depth = 1;
        let end = loop {
            match self.scanner.next_token(text, past) {
                Ok(Some(token)) => {
                    tokens.push(token)?;
                    past = token.past;
                    depth = depth_behind(depth, token.kind);
                    if depth == 0 {
                        break FormEnd::Closed;
                    }
                }
                Ok(None) => break FormEnd::Text,
                Err(fault) => break FormEnd::Fault(fault),
            }
        };
        Ok(Form { tokens, past, end })
    }
}

/// How many brackets are open after a token, if `depth` are open before it.
fn depth_behind(depth: usize, kind: TokenKind) -> usize
    requires inside { 0 < depth }
    requires fits { depth < 2 ^ 63 }
    ensures { result ≡ open_behind depth kind }
{
    match kind {
        TokenKind::Left => depth + 1,
        TokenKind::Right => depth - 1,
        _ => depth,
    }
}

/// Why there is no form if there is no token: an atom that is not a number of the language is stray.
fn no_form(fault: LexFault) -> FormFault
    ensures { result ≡ if is_numeric fault then Astray fault.at else Bad fault }
{
    if fault.number == FRACTION_NUMBER || fault.number == NUMBER_RANGE {
        FormFault::Stray { at: fault.at }
    } else {
        FormFault::Lex(fault)
    }
}

/// The next form from `from` on, or `None` if only white space and comments are left. Creates a reader for this call.
pub fn read_form(alloc: Global, text: &[u8], from: usize) -> Result<Option<Form>, FormFault>
    requires { from ≤ length text.now }
    ensures { IsNext text.now from result }
{
    FormReader::new().read_form(alloc, text, from)
}
