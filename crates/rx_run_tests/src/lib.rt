//! Tests of the program over memory: what no clause says. The replies to patterns are the table of `rx_replies`.
#![tactic(auto)]

#[cfg(test)]
mod commands;
#[cfg(test)]
mod ends;
#[cfg(test)]
mod generating;
#[cfg(test)]
mod json;
#[cfg(test)]
mod long;
#[cfg(test)]
mod running;
#[cfg(test)]
mod runs;
#[cfg(test)]
mod words;
