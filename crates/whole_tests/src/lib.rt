//! Tests of the top call: what it answers to words, texts and inputs, where devices fail, and at the limit.
#![tactic(auto)]

#[cfg(test)]
mod back_rows;
#[cfg(test)]
mod build_rows;
#[cfg(test)]
mod devices;
#[cfg(test)]
mod gates;
#[cfg(test)]
mod limits;
#[cfg(test)]
mod live_rows;
#[cfg(test)]
mod overlap_rows;
#[cfg(test)]
mod partial_rows;
#[cfg(test)]
mod rows;
#[cfg(test)]
mod runs;
#[cfg(test)]
mod selection_rows;
#[cfg(test)]
mod still;
#[cfg(test)]
mod texts;
#[cfg(test)]
mod why_rows;
#[cfg(test)]
mod words;
#[cfg(test)]
mod written;
