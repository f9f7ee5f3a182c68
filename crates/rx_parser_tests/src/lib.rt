//! Tests of the public calls of `rx_parser`: what no clause says, and each call once where it succeeds.
#![tactic(auto)]

#[cfg(test)]
mod builds;
#[cfg(test)]
mod causes;
#[cfg(test)]
mod hard;
#[cfg(test)]
mod reading;
#[cfg(test)]
mod reads;
#[cfg(test)]
mod script;
#[cfg(test)]
mod shown;
#[cfg(test)]
mod steps;
#[cfg(test)]
mod trees;
#[cfg(test)]
mod written;
