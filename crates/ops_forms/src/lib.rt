//! The forms of a program text: the tokens of each from bracket to bracket, their words, and what is in sight while
//! they are read.
#![tactic(auto)]

pub mod classes;
pub mod declared;
pub mod form;
pub mod kinds;
pub mod pairs;
pub mod places;
pub mod refusals;
pub mod scope;
pub mod vectors;
pub mod walking;
pub mod words;

pub use classes::Classes;
pub use declared::{Declared, Titled, number_of};
pub use form::{Form, FormEnd, FormFault, FormReader, read_form};
pub use ops_grammar::Named;
pub use places::{Place, place_of};
pub use refusals::{ReadFault, Refusal};
pub use scope::Scope;
pub use words::words_of;
