//! The commands of a program.

use crate::constants::Constants;
use crate::list::Listed;
use crate::rules::Rule;
use crate::values::Sym;

/// The constants given for one attribute.
#[derive(Debug, Drop)]
pub struct Fixed {
    pub field: usize,
    pub values: Constants,
}

/// How instantiations are ordered.
#[derive(Clone, Copy, Debug, PartialEq, Eq)]
pub enum Strategy {
    Lex,
    Mea,
}

#[derive(Debug, Drop)]
pub enum Command {
    Make {
        class: usize,
        puts: Listed<Fixed>,
    },
    Remove {
        tags: Listed<u64>,
    },
    RemoveAll,
    Run {
        count: Option<u64>,
    },
    Wm {
        tags: Listed<u64>,
    },
    /// The class and the constants that a printed element must have.
    Ppwm {
        pattern: Option<(usize, Listed<Fixed>)>,
    },
    Cs,
    Pm {
        names: Listed<Sym>,
    },
    Strategy {
        set: Option<Strategy>,
    },
    Watch {
        set: Option<u8>,
    },
    Pbreak {
        names: Listed<Sym>,
    },
    /// A production that stands after the first `make` or `run`.
    Add {
        rule: Rule,
    },
    Excise {
        names: Listed<Sym>,
    },
    /// From 1 to 32.
    Back {
        count: u8,
    },
    Matches {
        names: Listed<Sym>,
    },
    Exit,
}
