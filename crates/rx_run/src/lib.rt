//! All that the program does but its `main`: it reads lines that each hold a pattern, and writes for each its canonical spelling, or why there is none.
//! With other words it writes what `Display` writes, whether something is not supported, what is matched and in how many Ticks, tokens, colours, findings,
//! or a plainer pattern; with `strict` or `standard` it reads with other options, and with `json` lines and replies are JSON (docs/PROGRAM.md).
//! With the words `gen SEED COUNT` it makes patterns, and writes how many of them are read; with `--help` and `--version` it tells of itself.
#![tactic(auto)]

pub mod arguments;
mod asking;
mod generator;
mod input;
mod json;
pub mod laws;
mod line;
pub mod over_memory;
mod pieces;
pub mod program;
mod replies;
mod replying;
mod request;
pub mod run;
mod server;
mod spans;
pub mod standard;
pub mod words;
