//! Tests of the public calls of `rx_base`, `rx_tables`, `rx_units` and `rx_ast`: what no clause says, and each call once where it succeeds.
#![tactic(auto)]

#[cfg(test)]
mod diagnostics;
#[cfg(test)]
mod display;
#[cfg(test)]
mod memory;
#[cfg(test)]
mod quoted;
#[cfg(test)]
mod steps;
#[cfg(test)]
mod tables;
#[cfg(test)]
mod trees;
#[cfg(test)]
mod units;
