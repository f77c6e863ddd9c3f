//! The layout of everything that is printed, put into the output buffer: values, symbols, elements, instantiations,
//! spaces, lines and the lines of endings. The definitions of these texts are total, and so are the functions: they use
//! `nil` in place of a production or a class that a program does not have. A checked program refers to none.
//! production or a class that a program does not have. A program that was checked names none.
#![tactic(auto)]

mod elements;
mod endings;
mod instances;
mod lines;
mod pieces;
mod symbols;
mod values;

pub use elements::{put_element, put_element_line, put_made_line, put_removed_line};
pub use endings::put_fault;
pub use instances::{put_firing, put_inst, put_inst_line, put_partial_line, rule_name};
pub use lines::{fresh_line, put_kept_line, put_line, put_name_line, put_number_line};
pub use pieces::put_spaces;
pub use symbols::put_symbol;
pub use values::{Lead, put_lead, put_tab, put_value, value_length};
