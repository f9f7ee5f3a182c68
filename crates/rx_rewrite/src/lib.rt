//! Plainer patterns with the same outcomes on every input.
#![tactic(auto)]

mod copy_class;
mod fault;
mod kept_modifiers;
pub mod laws;
mod numbers;
mod opener;
mod plain;
mod rewriter;
mod rewrites;
mod rewriting;
mod settings;
mod wanted;

pub use fault::RewriteFault;
pub use kept_modifiers::modifiers_left;
pub use rewrites::Rewrites;
pub use rewriting::rewrite;
pub use wanted::Wanted;
