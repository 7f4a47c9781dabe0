//! Tests of texts, listings, explanations, waves and what came before a record, in a crate of their own so that each
//! part is proved once.
#![tactic(auto)]

#[cfg(test)]
mod assemble;
#[cfg(test)]
mod dump;
#[cfg(test)]
mod explanation;
#[cfg(test)]
mod history;
#[cfg(test)]
mod listing;
#[cfg(test)]
mod map;
#[cfg(test)]
mod numbering;
#[cfg(test)]
mod origins;
#[cfg(test)]
mod parse;
#[cfg(test)]
mod refusal;
#[cfg(test)]
mod text;
#[cfg(test)]
mod traces;
#[cfg(test)]
mod traffic;
#[cfg(test)]
mod view;
#[cfg(test)]
mod wave;
