//! A law of sessions, about the definitions alone: the contract of a function that does nothing.
ghost use Rattle.std.specs.Prelude.{ℕ, List};
ghost use Rattle.ops_base.specs.Names.{Spellings};
ghost use Rattle.ops_base.specs.declared.commands.Command.{Command};
ghost use Rattle.ops_meaning.specs.Acting.{Setting};
ghost use Rattle.ops_meaning.specs.Kept.{IsCounted, IsLimited};
ghost use Rattle.ops_meaning.specs.Running.{Session};

/// A session that finishes made at most as many firings as its limit says, over all its runs. If it ends by the limit,
/// the limit that is printed is its own. A run with a number that does not end the session made at most this many.
pub fn firings_are_limited()
    ensures session { (s : Setting) (limit : ℕ) (commands : List Command) (names : Spellings) → IsLimited s limit commands names }
    ensures run { (left : ℕ) (s : Setting) (k : Session) → IsCounted left s k }
{}
