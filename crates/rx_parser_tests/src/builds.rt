use crate::script::follow;
use crate::shown::write_pattern;
use crate::written::Written;
use rx_ast::Pattern;
use rx_base::{List, OutOfMemory};
use rx_model::{Mode, Rules};
use rx_parser::Builder;
use rx_rows::{Call, agree};
use std::alloc::Global;
use std::fmt;
use std::test::Fail;

/// Both rules, at which a builder does not look.
const RULES: Rules = Rules {
    duplicate_names: true,
    buffer_boundaries: true,
};

/// Asked is a script.
struct Building {
    mode: Mode,
    start: u32,
}

const LEGACY: Building = Building {
    mode: Mode::Legacy,
    start: 0,
};

const UNICODE: Building = Building {
    mode: Mode::Unicode,
    start: 0,
};

const UNICODE_AT_TEN: Building = Building {
    mode: Mode::Unicode,
    start: 10,
};

const SETS: Building = Building {
    mode: Mode::Sets,
    start: 0,
};

impl Call for Building {
    fn answer(&self, alloc: Global, asked: &str) -> Result<String, Fail> {
        let script = format!(in alloc; "{}", Written(asked))?;
        let built = build(alloc, self.mode, &script, self.start)?;
        Ok(format!(in alloc; "{built}")?)
    }
}

/// The bytes of the signs of a script that are not taken, and the pattern, where no group is open.
#[derive(Drop)]
struct Built {
    refused: List<u32>,
    pattern: Option<Pattern>,
}

fn build(alloc: Global, mode: Mode, script: &str, start: u32) -> Result<Built, OutOfMemory> {
    let mut builder = Builder::new(alloc, mode, RULES, start);
    let (refused, end) = follow(alloc, &mut builder, script, start)?;
    let pattern = finish(builder, end)?;
    Ok(Built { refused, pattern })
}

fn finish(builder: Builder, end: u32) -> Result<Option<Pattern>, OutOfMemory> {
    if !builder.is_whole() {
        return Ok(None);
    }
    Ok(Some(builder.finish(end)?))
}

impl fmt::Display for Built {
    fn fmt<W: fmt::Write>(&self, f: &mut fmt::Formatter<W>) -> fmt::Result {
        write!(f, "{:?} ", self.refused.as_slice())?;
        match &self.pattern {
            Some(pattern) => write_pattern(f, pattern),
            None => f.write_str("open"),
        }
    }
}

/// Signs that are not taken: a closer where no group is open, and a quantifier that may not follow. One follows a lookahead in legacy mode alone.
#[test]
fn what_may_not_follow_is_refused(rt: HostRuntime) -> Result<(), Fail> {
    let rows = ")*^*.** => [0, 1, 3, 6] 0..7 1 | 0..7 2..3 other; 4..6 0 None true of 4..5;
=)* => [] 0..5 1 | 0..5 0..5 0 None true of 0..4;
!)* => [] 0..5 1 | 0..5 0..5 0 None true of 0..4;
<)* => [5] 0..6 1 | 0..6 0..5 other;
>)* => [5] 0..6 1 | 0..6 0..5 other;";
    agree(rt.alloc(), &LEGACY, rows)?;
    agree(rt.alloc(), &UNICODE, "=)* => [4] 0..5 1 | 0..5 0..4 other;")?;
    agree(rt.alloc(), &SETS, "!)* => [4] 0..5 1 | 0..5 0..4 other;")
}

/// A quantified group begins where it opens, and deep groups need no deep stack.
#[test]
fn groups_of_scripts(rt: HostRuntime) -> Result<(), Fail> {
    let rows = "N.|.)q => [] 10..25 1 | 10..25 10..25 2 Some(3) false of 10..19 n 15..18 2;";
    agree(rt.alloc(), &UNICODE_AT_TEN, rows)?;
    let rows = "‹100000 (›‹100000 )› => [] 0..200000 1 | 0..200000 0..200000;";
    agree(rt.alloc(), &LEGACY, rows)
}
