//! Tests of the printers on trees that are made by hand, and on patterns that are read; of walks and of support checks.
#![tactic(auto)]

#[cfg(test)]
mod deep;
#[cfg(test)]
mod printing;
#[cfg(test)]
mod supporting;
#[cfg(test)]
mod trees;
#[cfg(test)]
mod walking;
