//! The next token of a text.
ghost use Rattle.std.specs.Prelude.{◌≡◌, ◌↔◌, ◌+◌, ◌<◌, ◌≤◌, length, drop, position, slice_index, IfOk, IfErr, IfSome};
ghost use Rattle.ops_tokens.specs.Bytes.{is_bar};
ghost use Rattle.ops_tokens.specs.Following.{StandsNext, FaultStandsNext};
ghost use Rattle.ops_tokens.specs.Gaps.{IsGap};
ghost use Rattle.ops_tokens.specs.Meanings.{IsSpelled};
ghost use Rattle.ops_tokens.specs.Numbers.{whole_value};
ghost use Rattle.ops_tokens.specs.Program.{program_table};
ghost use Rattle.ops_tokens.specs.Runs.{FindsRun, IsRun};
ghost use Rattle.ops_tokens.specs.Tokens.{bracket_of, quoted, number, atom, run_at, begun, token_at, spelling, StandsFrom};

use crate::bytes::{bad_in, bar_in, gap_end};
use crate::number::whole_of;
use crate::table::{AtomKind, CLASS_OF, CLASSES, KINDS, NEXT, STATES};
use crate::token::{BAD_BYTE, FRACTION_NUMBER, LexFault, NUMBER_RANGE, Token, TokenKind, UNCLOSED};
use scan_table::Dfa;

/// What reads tokens. It is made once, for any number of texts.
#[derive(Drop)]
pub struct Scanner {
    table: Dfa<STATES, CLASSES>,
    ghost is_program_table: { table ≡ program_table },
}

impl Scanner {
    /// Takes no memory, and tests nothing.
    pub fn new() -> Scanner
        ensures { result.table ≡ program_table }
    {
        Scanner {
            table: Dfa::from_table(CLASS_OF, NEXT, KINDS),
        }
    }

    /// The next token from `from` on, or `None` at the end of the text. It takes no memory, and time for the gap before
    /// the token and for the token alone.
    pub fn next_token(&self, text: &[u8], from: usize) -> Result<Option<Token>, LexFault>
        requires { from ≤ length text.now }
        ensures token { result ≡ token_at text.now from }
        ensures place { IfOk result (λ found. IfSome found (StandsFrom text.now from)) }
        ensures spelled { IfOk result (λ found. IfSome found (λ t. IsSpelled t.kind (spelling text.now t))) }
        ensures end { (result ≡ Ok None) ↔ IsGap (drop from text.now) }
        ensures next { IfOk result (λ found. IfSome found (StandsNext text.now from)) }
        ensures fault { IfErr result (λ f. FaultStandsNext text.now from f) }
        ensures fault_place { IfErr result (λ fault. (from ≤ fault.at) × (fault.at < length text.now)) }
    {
        self.found(text, from)
    }

    fn found(&self, text: &[u8], from: usize) -> Result<Option<Token>, LexFault>
        requires { from ≤ length text.now }
        ensures { result ≡ token_at text.now from }
    {
        let first = gap_end(text, from);
        if first == text.len() {
            return Ok(None);
        }
        self.begun(text, first)
    }

    fn begun(&self, text: &[u8], first: usize) -> Result<Option<Token>, LexFault>
        requires { first < length text.now }
        ensures { result ≡ begun text.now first (slice_index text.now first) (bracket_of (slice_index text.now first)) }
    {
        let byte = text[first];
        if let Some(kind) = bracket_of(byte) {
            return Ok(Some(Token {
                kind,
                first,
                past: first + 1,
            }));
        }
        if byte == b'|' {
            return quoted(text, first);
        }
        match self.run(text, first) {
            Some((past, kind)) => atom(text, first, past, kind),
            None => Err(LexFault {
                number: BAD_BYTE,
                at: first,
            }),
        }
    }

    // where the run of plain bytes at `first` ends, and its kind
    fn run(&self, text: &[u8], first: usize) -> Option<(usize, AtomKind)>
        requires { first < length text.now }
        ensures { FindsRun text.now first result }
    {
        let (past, row) = self.table.longest(text, first)?;
        Some((past, AtomKind::of_row(row)?))
    }
}

/// The next token from `from` on, or `None` at the end of the text, by a scanner of its own. Takes no memory.
pub fn next_token(text: &[u8], from: usize) -> Result<Option<Token>, LexFault>
    requires { from ≤ length text.now }
    ensures token { result ≡ token_at text.now from }
    ensures place { IfOk result (λ found. IfSome found (StandsFrom text.now from)) }
    ensures spelled { IfOk result (λ found. IfSome found (λ t. IsSpelled t.kind (spelling text.now t))) }
    ensures end { (result ≡ Ok None) ↔ IsGap (drop from text.now) }
    ensures next { IfOk result (λ found. IfSome found (StandsNext text.now from)) }
    ensures fault { IfErr result (λ f. FaultStandsNext text.now from f) }
    ensures fault_place { IfErr result (λ fault. (from ≤ fault.at) × (fault.at < length text.now)) }
{
    Scanner::new().next_token(text, from)
}

fn bracket_of(byte: u8) -> Option<TokenKind>
    ensures { result ≡ bracket_of byte }
{
    match byte {
        b'(' => Some(TokenKind::Left),
        b')' => Some(TokenKind::Right),
        b'{' => Some(TokenKind::LeftBrace),
        b'}' => Some(TokenKind::RightBrace),
        b'^' => Some(TokenKind::Caret),
        _ => None,
    }
}

fn quoted(text: &[u8], first: usize) -> Result<Option<Token>, LexFault>
    requires { first < length text.now }
    ensures { result ≡ quoted first (drop (first + 1) text.now) (position is_bar (drop (first + 1) text.now)) }
{
    let rest = &text[first + 1..];
    let Some(count) = bar_in(rest) else {
        return Err(LexFault {
            number: UNCLOSED,
            at: first,
        });
    };
    if let Some(bad) = bad_in(&rest[..count]) {
        return Err(LexFault {
            number: BAD_BYTE,
            at: first + 1 + bad,
        });
    }
    Ok(Some(Token {
        kind: TokenKind::Quoted,
        first,
        past: first + count + 2,
    }))
}

fn atom(text: &[u8], first: usize, past: usize, kind: AtomKind) -> Result<Option<Token>, LexFault>
    requires within { first < length text.now }
    requires run { IsRun text.now first past kind }
    ensures { result ≡ atom first (run_at text.now first) }
{
    let kind = match kind {
        AtomKind::Operator => TokenKind::Operator,
        AtomKind::Whole => return number(&text[first..past], first, past),
        AtomKind::Fraction => {
            return Err(LexFault {
                number: FRACTION_NUMBER,
                at: first,
            });
        }
        AtomKind::Variable => TokenKind::Variable,
        AtomKind::Symbol => TokenKind::Symbol,
    };
    Ok(Some(Token { kind, first, past }))
}

fn number(spelling: &[u8], first: usize, past: usize) -> Result<Option<Token>, LexFault>
    ensures { result ≡ number (whole_value spelling.now) first past }
{
    match whole_of(spelling) {
        Some(value) => Ok(Some(Token {
            kind: TokenKind::Whole(value),
            first,
            past,
        })),
        None => Err(LexFault {
            number: NUMBER_RANGE,
            at: first,
        }),
    }
}

#[cfg(test)]
mod tests {
    use super::*;
    use crate::token::spelling_of;

    fn token(kind: TokenKind, first: usize, past: usize) -> Result<Option<Token>, LexFault> {
        Ok(Some(Token { kind, first, past }))
    }

    fn fault(number: u8, at: usize) -> Result<Option<Token>, LexFault> {
        Err(LexFault { number, at })
    }

    #[test]
    fn tells_kinds_of_atoms_apart(rt: HostRuntime) {
        let scanner = Scanner::new();
        for (text, kind) in [
            ("(", TokenKind::Left),
            (")", TokenKind::Right),
            ("{", TokenKind::LeftBrace),
            ("}", TokenKind::RightBrace),
            ("^", TokenKind::Caret),
            ("-", TokenKind::Operator),
            ("-->", TokenKind::Operator),
            ("<=>", TokenKind::Operator),
            ("//", TokenKind::Operator),
            ("<x>", TokenKind::Variable),
            ("<<>", TokenKind::Variable),
            ("<<a", TokenKind::Symbol),
            ("--", TokenKind::Symbol),
            ("+", TokenKind::Symbol),
            ("1e", TokenKind::Symbol),
            ("1.2.", TokenKind::Symbol),
            ("||", TokenKind::Quoted),
        ] {
            let bytes = text.as_bytes();
            assert_eq!(rt;
                scanner.next_token(bytes, 0),
                token(kind, 0, bytes.len()),
                "in {text}"
            );
        }
    }

    #[test]
    fn reads_numbers(rt: HostRuntime) {
        let scanner = Scanner::new();
        for (text, value) in [
            ("12.", 12),
            ("+5", 5),
            ("-007", -7),
            ("9223372036854775808", 9_223_372_036_854_775_808),
            ("-9223372036854775809", -9_223_372_036_854_775_809),
            ("99999999999999999999", 99_999_999_999_999_999_999),
            ("170141183460469231731687303715884105727", i128::MAX),
            ("-170141183460469231731687303715884105728", i128::MIN),
            ("0000000000000000000000000000001", 1),
        ] {
            let bytes = text.as_bytes();
            let kind = TokenKind::Whole(value);
            assert_eq!(rt;
                scanner.next_token(bytes, 0),
                token(kind, 0, bytes.len()),
                "in {text}"
            );
        }
        for text in [
            "170141183460469231731687303715884105728",
            "-170141183460469231731687303715884105729",
            "9999999999999999999999999999999999999999",
        ] {
            assert_eq!(rt;
                scanner.next_token(text.as_bytes(), 0),
                fault(5, 0),
                "in {text}"
            );
        }
        for text in ["1.5", ".5e3", "+1e-9", "1.E0"] {
            assert_eq!(rt;
                scanner.next_token(text.as_bytes(), 0),
                fault(4, 0),
                "in {text}"
            );
        }
    }

    #[test]
    fn answers_places(rt: HostRuntime) {
        for (text, want) in [
            ("", Ok(None)),
            (" \t\r\n\u{c}; | \u{1} é", Ok(None)),
            (";|\n |a\nb|c", token(TokenKind::Quoted, 4, 9)),
            ("ab(", token(TokenKind::Symbol, 0, 2)),
            ("ab\u{7f}", token(TokenKind::Symbol, 0, 2)),
            ("12;", token(TokenKind::Whole(12), 0, 2)),
            ("  \u{7f}", fault(1, 2)),
            (" |a\u{1}b\u{2}|", fault(1, 3)),
            (" |a\u{1}b", fault(2, 1)),
        ] {
            assert_eq!(rt; next_token(text.as_bytes(), 0), want, "in {text}");
        }
    }

    #[test]
    fn spells_what_it_reads(rt: HostRuntime) {
        for (text, from, want) in [
            ("(|a b|)", 1, "a b"),
            ("(|a b|)", 0, "("),
            (" <x> ", 0, "<x>"),
        ] {
            match next_token(text.as_bytes(), from) {
                Ok(Some(token)) => {
                    assert_eq!(rt;
                        spelling_of(text.as_bytes(), &token),
                        want.as_bytes(),
                        "in {text}"
                    );
                }
                _ => panic!(rt; "no token in {text}"),
            }
        }
    }
}
