//! Tests of the rewriter: patterns that are read, rewritten and spelled.
#![tactic(auto)]

#[cfg(test)]
mod deep;
#[cfg(test)]
mod left;
#[cfg(test)]
mod rewritten;
#[cfg(test)]
mod rows;
