//! Tests of the painter, on patterns that are read and on trees that are made by hand.
#![tactic(auto)]

#[cfg(test)]
mod by_hand;
#[cfg(test)]
mod of_patterns;
#[cfg(test)]
mod tokens;
