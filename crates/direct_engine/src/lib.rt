//! The direct engine: a matcher that looks at all of working memory again in each phase.
#![tactic(auto)]

mod difference;
mod engine;
#[cfg(test)]
mod tests;

pub use engine::DirectEngine;
