//! Tests of the public calls of `rx_scan` and `rx_class`: what no clause says, and each call once where it succeeds. The rows are what each call is asked
//! and what it answers.
#![tactic(auto)]

#[cfg(test)]
mod classes;
#[cfg(test)]
mod escapes;
#[cfg(test)]
mod first_pass;
#[cfg(test)]
mod scanning;
