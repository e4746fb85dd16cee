//! Tests of a hub with a watched file: which turns it gives, over files in memory that change with each look.
#![tactic(auto)]

#[cfg(test)]
mod clock;
#[cfg(test)]
mod watch_tests;
