//! Tests of the logs of a trace and of what is configured, counted and recorded beside them, in a crate of their own so
//! that each part is proved once.
#![tactic(auto)]

#[cfg(test)]
mod bank_counts;
#[cfg(test)]
mod configuration;
#[cfg(test)]
mod coverage;
#[cfg(test)]
mod fitting;
#[cfg(test)]
mod growth;
#[cfg(test)]
mod logs_of_traces;
#[cfg(test)]
mod orders;
#[cfg(test)]
mod packed_logs;
#[cfg(test)]
mod ports;
#[cfg(test)]
mod rechecks;
#[cfg(test)]
mod recording;
#[cfg(test)]
mod reordering;
#[cfg(test)]
mod statistics;
#[cfg(test)]
mod usage;
