//! What programs do: the definitions of acting, printing and running, in specs/, and the type that they and the code
//! above share.
#![tactic(auto)]

pub mod statuses;

pub use statuses::Status;
