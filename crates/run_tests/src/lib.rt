//! Tests of `run_engine`, `run_stream` and `run_shrink`, and of what is told of a verdict, in a crate of their own so
//! that each is proved once.
#![tactic(auto)]

#[cfg(test)]
mod complete;
#[cfg(test)]
mod configured;
#[cfg(test)]
mod contents;
#[cfg(test)]
mod counts;
#[cfg(test)]
mod coverage;
#[cfg(test)]
mod cuts;
#[cfg(test)]
mod demonstrations;
#[cfg(test)]
mod explained;
#[cfg(test)]
mod gathered;
#[cfg(test)]
mod growth;
#[cfg(test)]
mod hostile;
#[cfg(test)]
mod json;
#[cfg(test)]
mod lines;
#[cfg(test)]
mod shrink;
#[cfg(test)]
mod statistics;
#[cfg(test)]
mod streams;
#[cfg(test)]
mod told;
#[cfg(test)]
mod traces;
#[cfg(test)]
mod watched;
#[cfg(test)]
mod workers;
