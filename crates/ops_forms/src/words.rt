//! The words of a text.
ghost use Rattle.std.specs.Prelude.{◌≡◌, ◌≤◌, not, length, reverse, take_while, bytes_eq, All, IfOk, OnOk};
ghost use Rattle.ops_base.specs.Names.{place_of};
ghost use Rattle.ops_tokens.specs.Bytes.{is_white};
ghost use Rattle.ops_tokens.specs.Tokens.{spelling, LiesIn};
ghost use Rattle.ops_grammar.specs.Words.{keyword_in, is_joined, hole_in, keyword_of, keyword_of_symbol, keyword_of_operator, has_name, names_with, name_in, word_of, word_before, keyword_before, words_from, names_from};
ghost use Rattle.ops_forms.specs.Keywords.{first_like, as_long_as, longer};

use ops_base::memory::OutOfMemory;
use ops_base::symbols::Names;
use ops_base::values::{NIL, Sym};
use ops_grammar::{Keyword, Word};
use ops_tokens::{Token, TokenKind, spelling_of};
use std::alloc::Global;

/// The words of the tokens of a text. Their names are held from then on. If memory runs out, the names of the first
/// tokens may be held already. Takes time in proportion to the number of bytes of the tokens.
pub fn words_of(
    alloc: Global,
    names: &mut Names,
    text: &[u8],
    tokens: &[Token],
) -> Result<Vec<Word>, OutOfMemory>
    requires { All (λ t. LiesIn text.now t) tokens.now }
    ensures words { IfOk result (λ words. words.items ≡ words_from text.now names.old tokens.now) }
    ensures names { OnOk result (names.new ≡ names_from text.now names.old tokens.now) }
{
    let mut words = Vec::with_capacity(alloc, tokens.len())?;
    let mut rest = tokens;
    'words: loop {
        let Some((token, after)) = rest.split_first() else {
            return Ok(words);
        };
        let word = word_of(names, text, *token)?;
        words.push(word_before(word, after))?;
        rest = after;
    }
}

// the word, if these tokens follow it
fn word_before(word: Word, rest: &[Token]) -> Word
    ensures { result ≡ word_before word rest.now }
{
    Word {
        kind: word.kind,
        keyword: keyword_before(word.keyword, rest),
        name: word.name,
        first: word.first,
        past: word.past,
    }
}

// a `-` right before an opening brace begins a group
fn keyword_before(keyword: Keyword, rest: &[Token]) -> Keyword
    ensures { result ≡ keyword_before keyword rest.now }
{
    match keyword {
        Keyword::Minus => match rest.first() {
            Some(token) => match token.kind {
                TokenKind::LeftBrace => Keyword::GroupMinus,
                _ => Keyword::Minus,
            },
            None => Keyword::Minus,
        },
        other => other,
    }
}

fn word_of(names: &mut Names, text: &[u8], token: Token) -> Result<Word, OutOfMemory>
    requires { LiesIn text.now token }
    ensures word { IfOk result (λ word. word ≡ word_of text.now names.old token) }
    ensures names { OnOk result (names.new ≡ names_with names.old token.kind (spelling text.now token)) }
{
    let keyword = keyword_in(names, text, &token)?;
    let name = name_of(names, token.kind, spelling_of(text, &token))?;
    Ok(Word {
        kind: token.kind,
        keyword,
        name,
        first: token.first,
        past: token.past,
    })
}

// the keyword of a token, if these names are held before it
fn keyword_in(names: &mut Names, text: &[u8], token: &Token) -> Result<Keyword, OutOfMemory>
    requires { LiesIn text.now token.now }
    ensures keyword { IfOk result (λ keyword. keyword ≡ keyword_in text.now names.old token.now) }
    ensures names { OnOk result (names.new ≡ names.old) }
{
    if is_joined(text, token) {
        hole_in(names, text, token)
    } else {
        Ok(keyword_of(token.kind, spelling_of(text, token)))
    }
}

// whether a token is a `\\` or `\` with the variable after it: it is quoted, and begins with no bar
fn is_joined(text: &[u8], token: &Token) -> bool
    requires { LiesIn text.now token.now }
    ensures { result ≡ is_joined text.now token.now }
{
    match token.kind {
        TokenKind::Quoted => text[token.first] != b'|',
        _ => false,
    }
}

// the hole that such a token is
fn hole_in(names: &mut Names, text: &[u8], token: &Token) -> Result<Keyword, OutOfMemory>
    requires { LiesIn text.now token.now }
    ensures hole { IfOk result (λ keyword. keyword ≡ hole_in text.now names.old token.now) }
    ensures names { OnOk result (names.new ≡ names.old) }
{
    let at = token.past - behind_white(&text[token.first..token.past]);
    let variable = symbol_of(names, &text[at..token.past])?;
    Ok(Keyword::Hole { variable, at })
}

// the symbol that a spelling has or would have
fn symbol_of(names: &mut Names, spelling: &[u8]) -> Result<Sym, OutOfMemory>
    ensures symbol { IfOk result (λ symbol. symbol.0 ≡ place_of names.old.held spelling.now) }
    ensures names { OnOk result (names.new ≡ names.old) }
{
    let point = names.point();
    let symbol = names.intern(spelling)?;
    names.back_to(&point);
    Ok(symbol)
}

// space, tab, LF, CR and FF
fn is_white(byte: u8) -> bool
    ensures { result ≡ is_white byte }
{
    byte == b' ' || byte == b'\t' || byte == b'\n' || byte == b'\r' || byte == 0x0C
}

// how many bytes stand behind the last white space
fn behind_white(bytes: &[u8]) -> usize
    ensures count { result ≡ length (take_while (λ b. not (is_white b)) (reverse bytes.now)) }
    ensures within { result ≤ length bytes.now }
{
    let mut count = 0;
    for byte in bytes {
        count = if is_white(*byte) { 0 } else { count + 1 };
    }
    count
}

// the symbol of a token's spelling, if it has a name
fn name_of(names: &mut Names, kind: TokenKind, spelling: &[u8]) -> Result<Sym, OutOfMemory>
    ensures name { IfOk result (λ name. name.0 ≡ name_in names.old kind spelling.now) }
    ensures names { OnOk result (names.new ≡ names_with names.old kind spelling.now) }
{
    if has_name(kind) {
        names.intern(spelling)
    } else {
        Ok(NIL)
    }
}

// whether the spelling of such a token is a name
fn has_name(kind: TokenKind) -> bool
    ensures { result ≡ has_name kind }
{
    matches!(
        kind,
        TokenKind::Symbol | TokenKind::Quoted | TokenKind::Variable | TokenKind::Operator
    )
}

pub(crate) fn keyword_of(kind: TokenKind, spelling: &[u8]) -> Keyword
    ensures { result ≡ keyword_of kind spelling.now }
{
    match kind {
        TokenKind::Symbol => keyword_of_symbol(spelling),
        TokenKind::Operator => keyword_of_operator(spelling),
        _ => Keyword::Other,
    }
}

fn keyword_of_operator(spelling: &[u8]) -> Keyword
    ensures { result ≡ keyword_of_operator spelling.now }
{
    if is(spelling, b"-->") {
        Keyword::Arrow
    } else if is(spelling, b"=") {
        Keyword::Equal
    } else if is(spelling, b"<>") {
        Keyword::NotEqual
    } else if is(spelling, b"<") {
        Keyword::Less
    } else if is(spelling, b"<=") {
        Keyword::AtMost
    } else if is(spelling, b">") {
        Keyword::Greater
    } else if is(spelling, b">=") {
        Keyword::AtLeast
    } else if is(spelling, b"<=>") {
        Keyword::SameKind
    } else if is(spelling, b"<<") {
        Keyword::OpenChoice
    } else if is(spelling, b">>") {
        Keyword::CloseChoice
    } else if is(spelling, b"//") {
        Keyword::Literal
    } else if is(spelling, b"-") {
        Keyword::Minus
    } else {
        Keyword::Other
    }
}

// Only the keywords that are as long are compared with it.
fn keyword_of_symbol(spelling: &[u8]) -> Keyword
    ensures { result ≡ keyword_of_symbol spelling.now }
{
    match spelling.len() {
        0 => Keyword::Other,
        1 => keyword_of_one(spelling),
        2 => keyword_of_two(spelling),
        3 => keyword_of_three(spelling),
        4 => keyword_of_four(spelling),
        5 => keyword_of_five(spelling),
        6 => keyword_of_six(spelling),
        7 => keyword_of_seven(spelling),
        _ => keyword_of_more(spelling),
    }
}

fn keyword_of_one(spelling: &[u8]) -> Keyword
    ensures { result ≡ first_like spelling.now (as_long_as 1) }
{
    if is(spelling, b"p") {
        Keyword::Production
    } else if is(spelling, b"+") {
        Keyword::Plus
    } else if is(spelling, b"*") {
        Keyword::Times
    } else if is(spelling, b"\\") {
        Keyword::Remainder
    } else {
        Keyword::Other
    }
}

fn keyword_of_two(spelling: &[u8]) -> Keyword
    ensures { result ≡ first_like spelling.now (as_long_as 2) }
{
    if is(spelling, b"\\\\") {
        Keyword::Remainder
    } else if is(spelling, b"wm") {
        Keyword::Wm
    } else if is(spelling, b"cs") {
        Keyword::Cs
    } else if is(spelling, b"pm") {
        Keyword::Pm
    } else {
        Keyword::Other
    }
}

fn keyword_of_three(spelling: &[u8]) -> Keyword
    ensures { result ≡ first_like spelling.now (as_long_as 3) }
{
    if is(spelling, b"inf") {
        Keyword::Inf
    } else if is(spelling, b"run") {
        Keyword::Run
    } else if is(spelling, b"lex") {
        Keyword::Lex
    } else if is(spelling, b"mea") {
        Keyword::Mea
    } else {
        Keyword::Other
    }
}

fn keyword_of_four(spelling: &[u8]) -> Keyword
    ensures { result ≡ first_like spelling.now (as_long_as 4) }
{
    if is(spelling, b"make") {
        Keyword::Make
    } else if is(spelling, b"bind") {
        Keyword::Bind
    } else if is(spelling, b"crlf") {
        Keyword::Crlf
    } else if is(spelling, b"halt") {
        Keyword::Halt
    } else if is(spelling, b"ppwm") {
        Keyword::Ppwm
    } else if is(spelling, b"back") {
        Keyword::Back
    } else if is(spelling, b"exit") {
        Keyword::Exit
    } else {
        Keyword::Other
    }
}

fn keyword_of_five(spelling: &[u8]) -> Keyword
    ensures { result ≡ first_like spelling.now (as_long_as 5) }
{
    if is(spelling, b"write") {
        Keyword::Write
    } else if is(spelling, b"cbind") {
        Keyword::Cbind
    } else if is(spelling, b"tabto") {
        Keyword::Tabto
    } else if is(spelling, b"rjust") {
        Keyword::Rjust
    } else if is(spelling, b"build") {
        Keyword::Build
    } else if is(spelling, b"watch") {
        Keyword::Watch
    } else {
        Keyword::Other
    }
}

fn keyword_of_six(spelling: &[u8]) -> Keyword
    ensures { result ≡ first_like spelling.now (as_long_as 6) }
{
    if is(spelling, b"remove") {
        Keyword::Remove
    } else if is(spelling, b"modify") {
        Keyword::Modify
    } else if is(spelling, b"substr") {
        Keyword::Substr
    } else if is(spelling, b"accept") {
        Keyword::Accept
    } else if is(spelling, b"pbreak") {
        Keyword::Pbreak
    } else if is(spelling, b"excise") {
        Keyword::Excise
    } else {
        Keyword::Other
    }
}

fn keyword_of_seven(spelling: &[u8]) -> Keyword
    ensures { result ≡ first_like spelling.now (as_long_as 7) }
{
    if is(spelling, b"compute") {
        Keyword::Compute
    } else if is(spelling, b"genatom") {
        Keyword::Genatom
    } else if is(spelling, b"matches") {
        Keyword::Matches
    } else {
        Keyword::Other
    }
}

fn keyword_of_more(spelling: &[u8]) -> Keyword
    ensures { result ≡ first_like spelling.now longer }
{
    if is(spelling, b"literalize") {
        Keyword::Literalize
    } else if is(spelling, b"vector-attribute") {
        Keyword::VectorAttribute
    } else if is(spelling, b"strategy") {
        Keyword::Strategy
    } else {
        Keyword::Other
    }
}

// whether a spelling is the one of this word
fn is(spelling: &[u8], word: &[u8]) -> bool
    ensures { result ≡ bytes_eq spelling.now word.now }
{
    spelling == word
}
