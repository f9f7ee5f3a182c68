//! Tests of the matcher, on patterns that are read and on trees that no text spells: what is matched, what it costs, and what is refused.
#![tactic(auto)]

#[cfg(test)]
mod classes;
#[cfg(test)]
mod groups;
#[cfg(test)]
mod leaves;
#[cfg(test)]
mod made;
#[cfg(test)]
mod modifiers;
#[cfg(test)]
mod notes;
#[cfg(test)]
mod refusals;
#[cfg(test)]
mod searches;
#[cfg(test)]
mod starts;
#[cfg(test)]
mod tables;
