//! Tests of `lf_codec`, `trace_views`, `trace_early` and `recorder_demo`, in a crate of their own so that each is
//! proved once.
#![tactic(auto)]

#[cfg(test)]
mod demonstrations;
#[cfg(test)]
mod faults;
#[cfg(test)]
mod growth;
#[cfg(test)]
mod mask_views;
#[cfg(test)]
mod numbers;
#[cfg(test)]
mod places;
#[cfg(test)]
mod reading;
#[cfg(test)]
mod record_views;
#[cfg(test)]
mod single_records;
#[cfg(test)]
mod whole_traces;
