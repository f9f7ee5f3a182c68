//! Asks the program for the reply to each row of a table of patterns, and says how many rows stand under each heading and which of them are answered otherwise.
//!
//! The table is text, read from standard input, by lines:
//!
//! - `# HEADING` says what the rows after it are about.
//! - `PATTERN` TAB `REPLY` is a row. The pattern ends at the first TAB, and the reply is all that the program writes for it.
//! - `form: C` and `flags: iu` say how the rows after them are asked, up to the next heading, where the form is `L` again and the flags are `u`.
//! - `words: strict` says with which words the program is run for the rows after it, up to the next heading, where there are none again. Single spaces stand between two words.
//! - An empty line says nothing.
//!
//! In a row, in flags and in words `«9»` stands for the character U+0009, and so on: for each character that ends a line, a pattern or a word, or that one would not
//! see. `«»` is an empty word.
#![tactic(auto)]

mod line;
mod question;
mod report;

use report::Report;
use std::io;
use std::process::ExitCode;

fn main(rt: HostRuntime) -> io::Result<ExitCode> {
    let table = io::read_to_string(rt.alloc(), rt.stdin())?;
    let mut report = Report::new();
    for text in table.lines() {
        report.take(&rt, text)?;
    }
    report.end(&rt)?;
    Ok(report.status())
}
