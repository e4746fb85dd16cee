//! Tests of the public calls of the lowest crates, a module for each crate: tables of values worked out
//! by hand or taken from the standards.
#![tactic(auto)]

#[cfg(test)]
mod fg_links_tests;
#[cfg(test)]
mod fg_outside_tests;
#[cfg(test)]
mod net_base_tests;
#[cfg(test)]
mod stack_paths_tests;
