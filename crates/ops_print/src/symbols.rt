//! Symbols, as they are printed everywhere except by `write`.
ghost use Rattle.std.specs.Prelude.{◌≡◌, ◌^◌, ◌<◌, [], ◌++◌, IsTrue, OnErr, false, codes, if◌then◌else◌};
ghost use Rattle.ops_io.specs.Ports.{port, PutsBytes};
ghost use Rattle.ops_meaning.specs.Layout.{is_symbol, is_plain_symbol, symbol_text};

use crate::pieces::put_three;
use ops_base::symbols::Names;
use ops_base::values::Sym;
use ops_io::{Out, Sink, WriteFailed};
use ops_tokens::{TokenKind, next_token};

fn is_symbol(kind: TokenKind) -> bool
    ensures { result ≡ is_symbol kind }
{
    match kind {
        TokenKind::Symbol => true,
        _ => false,
    }
}

/// Whether a program could name this symbol without bars.
fn is_plain_symbol(spelling: &[u8]) -> bool
    ensures { result ≡ is_plain_symbol spelling.now }
{
    match next_token(spelling, 0) {
        Ok(Some(token)) => is_symbol(token.kind)
            && token.first == 0
            && token.past == spelling.len(),
        _ => false,
    }
}

/// The bytes on both sides of a spelling.
fn bar_of(spelling: &[u8]) -> &'static [u8]
    ensures { result.now ≡ (if is_plain_symbol spelling.now then [] else codes "|") }
{
    if is_plain_symbol(spelling) { &[] } else { b"|" }
}

/// Puts a symbol as a program names it: between bars if it is not plain. To find that out, it reads the spelling as a
/// token.
pub fn put_symbol<K: Sink>(
    out: &mut Out,
    sink: &mut K,
    names: &Names,
    item: &Sym,
) -> Result<(), WriteFailed>
    requires whole { IsTrue out.old.whole }
    requires faults { K.faults sink.old < 2 ^ 63 }
    ensures puts { PutsBytes result (port (K.taken sink.old) (K.faults sink.old) out.old)
        (port (K.taken sink.new) (K.faults sink.new) out.new) (symbol_text names.now item.now) }
    ensures broken { OnErr result (out.new.whole ≡ false) }
{
    let spelling = names.text(*item);
    let bar = bar_of(spelling);
    put_three(out, sink, bar, spelling, bar)
}

/// Puts a symbol between two texts.
pub(crate) fn put_named<K: Sink>(
    out: &mut Out,
    sink: &mut K,
    names: &Names,
    before: &[u8],
    item: &Sym,
    after: &[u8],
) -> Result<(), WriteFailed>
    requires whole { IsTrue out.old.whole }
    requires faults { K.faults sink.old < 2 ^ 63 }
    ensures puts { PutsBytes result (port (K.taken sink.old) (K.faults sink.old) out.old)
        (port (K.taken sink.new) (K.faults sink.new) out.new)
        (before.now ++ symbol_text names.now item.now ++ after.now) }
    ensures broken { OnErr result (out.new.whole ≡ false) }
{
    out.put(sink, before)?;
    put_symbol(out, sink, names, item)?;
    out.put(sink, after)
}
