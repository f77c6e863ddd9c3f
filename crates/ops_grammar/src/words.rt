//! The words that the grammar reads.

use ops_base::values::Sym;
use ops_tokens::TokenKind;

/// The words that the grammar knows. A spelling is one of these only where the grammar looks for it, and an ordinary
/// symbol elsewhere.
#[derive(Clone, Copy, Debug, PartialEq, Eq)]
pub enum Keyword {
    /// `literalize`
    Literalize,
    /// `vector-attribute`
    VectorAttribute,
    /// `p`, which begins a production.
    Production,
    /// `make`
    Make,
    /// `remove`
    Remove,
    /// `run`
    Run,
    /// `strategy`
    Strategy,
    /// `lex`
    Lex,
    /// `mea`
    Mea,
    /// `wm`
    Wm,
    /// `ppwm`
    Ppwm,
    /// `cs`
    Cs,
    /// `pm`
    Pm,
    /// `watch`
    Watch,
    /// `pbreak`
    Pbreak,
    /// `excise`
    Excise,
    /// `matches`
    Matches,
    /// `back`
    Back,
    /// `exit`
    Exit,
    /// `modify`
    Modify,
    /// `write`
    Write,
    /// `bind`
    Bind,
    /// `cbind`
    Cbind,
    /// `crlf`
    Crlf,
    /// `tabto`
    Tabto,
    /// `rjust`
    Rjust,
    /// `substr`
    Substr,
    /// `inf`
    Inf,
    /// `halt`
    Halt,
    /// `build`
    Build,
    /// `compute`
    Compute,
    /// `genatom`
    Genatom,
    /// `accept`
    Accept,
    /// `+`
    Plus,
    /// `*`: a product in an expression, and all elements after the command `remove`.
    Times,
    /// `\` or `\\`
    Remainder,
    /// `-->`
    Arrow,
    /// `=`
    Equal,
    /// `<>`
    NotEqual,
    /// `<`
    Less,
    /// `<=`
    AtMost,
    /// `>`
    Greater,
    /// `>=`
    AtLeast,
    /// `<=>`
    SameKind,
    /// `<<`
    OpenChoice,
    /// `>>`
    CloseChoice,
    /// `//`: before an atom, which is taken as it is spelled, and a quotient in an expression.
    Literal,
    /// `-`
    Minus,
    /// `-` right before a brace, as it begins a group.
    GroupMinus,
    /// A `\\` or `\` with the variable after it, inside a `build`: the variable's name, and its first byte. The word is
    /// spelled as the quoted token that they are together. As a constant it stands for the variable's value.
    Hole { variable: Sym, at: usize },
    /// A word of any other spelling, or one that is no plain symbol and no operator.
    Other,
}

/// A token with what its spelling means: the keyword that it may be, and the symbol of a name or a variable.
#[derive(Clone, Copy, Debug, PartialEq, Eq)]
pub struct Word {
    pub kind: TokenKind,
    pub keyword: Keyword,
    pub name: Sym,
    pub first: usize,
    pub past: usize,
}

/// A variable's name with its number.
#[derive(Clone, Copy, Debug, PartialEq, Eq)]
pub struct Named {
    pub name: Sym,
    pub number: usize,
}

/// What a token stands in.
#[derive(Clone, Copy, Debug, PartialEq, Eq)]
pub enum Within {
    /// Before the arrow of a production, in another form, or in none.
    Front,
    /// Among the actions of a production.
    Actions,
    /// In a `build` of these, before its arrow.
    Build,
    /// The same, after its arrow.
    Built,
    /// In a `compute` of a `build`, in which this many brackets are open.
    Compute(usize),
}

/// How many brackets are open before a token, whether the token before it opened one, and what it stands in.
#[derive(Clone, Copy, Debug, PartialEq, Eq)]
pub struct Region {
    pub depth: usize,
    pub opened: bool,
    pub within: Within,
}
