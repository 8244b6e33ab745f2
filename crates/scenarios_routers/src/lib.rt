//! Tests of what a router's configuration says beside its lists: routes (`ios_route`), the lines of interfaces
//! (`ios_interface`), address translation (`ios_nat`), the names of interfaces (`ios_names`), and whole configurations
//! and what the sources of packets become (`ios_config`). A module for each.
//!
//! Each test is a table (`test_tables`). Nothing stands above this crate.
#![tactic(auto)]

#[cfg(test)]
mod configurations;
#[cfg(test)]
mod interfaces;
#[cfg(test)]
mod names;
#[cfg(test)]
mod routes;
#[cfg(test)]
mod sources;
#[cfg(test)]
mod translations;
