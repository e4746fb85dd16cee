//! Tests of the story by which a controller is measured: what is counted of it, and how many units of plans are compiled in it.
#![tactic(auto)]

#[cfg(test)]
mod bench_tests;
#[cfg(test)]
mod ticks;
