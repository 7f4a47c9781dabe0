//! The scoreboard for C and C++, inside a simulator's own process: `wudzark_open`, `wudzark_feed`, `wudzark_broken`,
//! `wudzark_finish` and the calls that go with them, over boards that the caller keeps. Each board is one session of
//! `lf_verdict`, and nothing is shared between two of them. `library/wudzark.h` declares the calls and says what a
//! caller in C must keep to.
#![tactic(auto)]

mod answer;
mod board;
mod exports;
mod held;
mod line;
mod unboxed;
