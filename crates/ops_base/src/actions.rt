//! The right sides of productions.

use crate::expression::Expr;
use crate::list::Listed;
use crate::values::Value;

/// A value of a right side. The cells 0 to c - 1 of a rule hold the elements of its c positive conditions in order;
/// each `cbind` has a further one.
#[derive(Debug, Drop)]
pub enum Term {
    Constant(Value),
    Variable(usize),
    Compute(Expr),
    /// `(substr <w> attr attr)`: the value of one field of the cell's element.
    One { cell: usize, field: usize },
    /// `(substr <w> vec inf)`: all values of the vector attribute of the cell's element.
    Rest { cell: usize },
    /// `(genatom)`
    Fresh,
    /// `(accept)`
    Accept,
}

/// The values given for one attribute.
#[derive(Debug, Drop)]
pub struct Put {
    pub field: usize,
    pub terms: Listed<Term>,
}

/// One thing that `write` prints.
#[derive(Debug, Drop)]
pub enum Item {
    Print(Term),
    Crlf,
    /// From 1 to 1,024.
    TabTo(u16),
    /// From 1 to 1,024.
    RightIn(u16),
}

/// A constant of a template in whose place a variable of the building production stands: its number among the
/// template's constants in the order of the text, and the variable.
#[derive(Clone, Copy, Debug, PartialEq, Eq)]
pub struct Hole {
    pub number: usize,
    pub variable: usize,
}

#[derive(Debug, Drop)]
pub enum Action {
    Make {
        class: usize,
        puts: Listed<Put>,
    },
    Modify {
        cell: usize,
        puts: Listed<Put>,
    },
    Remove {
        cells: Listed<usize>,
    },
    Write {
        items: Listed<Item>,
    },
    Bind {
        variable: usize,
        term: Term,
    },
    Cbind {
        cell: usize,
    },
    Halt,
    /// Builds the production that the program's template of this number gives, with its holes filled.
    Build {
        template: usize,
        holes: Listed<Hole>,
    },
}
