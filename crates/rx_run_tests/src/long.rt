//! Lines and inputs that are as long as is read, and longer; groups and classes that stand deep in one another, and classes of many items.
use crate::runs::{AT_ONCE, outcome, shown};
use rx_rows::{Call, agree, text_of};
use std::alloc::Global;
use std::test::Fail;

/// Runs of the program on long inputs. A row has the words of the command line, the program's name first, and after a bar the parts of the input, with single
/// spaces between: after an asterisk a part has the number of times that it is repeated. In the answer `=` stands for what follows the last TAB of the input,
/// but for a LF.
#[derive(Drop)]
struct LongRuns {
    ends: &'static str,
}

impl Call for LongRuns {
    fn answer(&self, alloc: Global, asked: &str) -> Result<String, Fail> {
        let (line, parts) = asked.split_once(" | ").ok_or("no input")?;
        let input = repeated(alloc, parts)?;
        let outcome = outcome(alloc, line, input.as_bytes(), self.ends)?;
        let (_, pattern) = input.rsplit_once('\t').unwrap_or(("", "="));
        let outcome = outcome.replace(alloc, pattern.trim_end_matches('\n'), "=")?;
        Ok(shown(alloc, &outcome)?)
    }
}

/// The text that parts with numbers stand for.
fn repeated(alloc: Global, parts: &str) -> Result<String, Fail> {
    let mut text = String::new(alloc);
    for part in parts.split(' ') {
        text.push_str(&repeated_part(alloc, part)?)?;
    }
    Ok(text)
}

fn repeated_part(alloc: Global, part: &str) -> Result<String, Fail> {
    let (written, times) = part.rsplit_once('*').unwrap_or((part, "1"));
    let times = times.parse::<usize>()?;
    let once = text_of(alloc, written)?.ok_or("no text")?;
    Ok(once.repeat(alloc, times)?)
}

const DEEP: &str = r"regexp | L«9»u«9» (*1000 )*1000 => 0 [ok«9»unicode«9»=«A»]
regexp | L«9»u«9» (*100000 )*100000 => 0 [ok«9»unicode«9»=«A»]
regexp | L«9»u«9» (?:*10000 )*10000 => 0 [ok«9»unicode«9»=«A»]
regexp | L«9»u«9» (?<=*10000 )*10000 => 0 [ok«9»unicode«9»=«A»]
regexp | L«9»u«9» [ a*100000 ] => 0 [ok«9»unicode«9»=«A»]
regexp | L«9»u«9» [ b-y*100000 ] => 0 [ok«9»unicode«9»=«A»]
regexp | L«9»u«9» [ \-*100000 ] => 0 [ok«9»unicode«9»=«A»]
regexp | L«9»u«9» [ \s*100000 ] => 0 [ok«9»unicode«9»=«A»]
regexp | L«9»u«9» [ \p{Lu}*100000 ] => 0 [ok«9»unicode«9»=«A»]
regexp | L«9»u«9» [ 😀*100000 ] => 0 [ok«9»unicode«9»=«A»]
regexp | L«9»v«9» [*1000 a ]*1000 => 0 [ok«9»sets«9»=«A»]
regexp | L«9»v«9» [*300000 a ]*300000 => 0 [ok«9»sets«9»=«A»]
regexp | L«9»u«9» (*1000 => 1 [err«9»unterminated_pattern«9»999..1000«A»]
regexp | L«9»u«9» (*100000 => 1 [err«9»unterminated_pattern«9»99999..100000«A»]
regexp | L«9»u«9» [*1000 => 1 [err«9»unterminated_pattern«9»0..1000«A»]
regexp | L«9»u«9» [*100000 => 1 [err«9»unterminated_pattern«9»0..100000«A»]
regexp | L«9»v«9» [*300000 => 1 [err«9»unterminated_pattern«9»299999..300000«A»]";

const LONG: &str = r"regexp | L«9»u«9» a*1048572 «A» => 0 [ok«9»unicode«9»=«A»]
regexp | L«9»u«9» a*1048573 «A» => 1 [bad«A»]";

const LONG_REQUESTS: &str =
    r#"regexp json | «20»*1048561 {"pattern":"a"}«A» => 0 [{"id":null,"status":"ok","mode":"legacy","spelling":"a","groups":[],"names":[]}«A»]
regexp json | «20»*1048563 {"pattern":"a"}«A» {"pattern":"a"}«A» => 1 [{"id":null,"status":"bad","why":"the line is longer than 1048576 bytes"}«A»{"id":null,"status":"ok","mode":"legacy","spelling":"a","groups":[],"names":[]}«A»]"#;

#[test]
fn deep_lines(rt: HostRuntime) -> Result<(), Fail> {
    let ends = "4096 0 4096 0 1100000";
    agree(rt.alloc(), &LongRuns { ends }, DEEP)
}

#[test]
fn long_lines(rt: HostRuntime) -> Result<(), Fail> {
    let ends = "50000 0 65536 0 1100000";
    agree(rt.alloc(), &LongRuns { ends }, LONG)?;
    agree(rt.alloc(), &LongRuns { ends: AT_ONCE }, LONG_REQUESTS)
}

const DEEPEST: &str =
    "regexp display | L«9»«9» (*500000 )*500000 => 0 [ok«9»legacy«9»1000000«9»=«A»]
regexp support duplicate_named_capture_groups,look_behind_assertions | L«9»«9» (*500000 )*500000 => 0 [ok«9»0«9»0«A»]";

#[test]
fn the_deepest_groups(rt: HostRuntime) -> Result<(), Fail> {
    agree(rt.alloc(), &LongRuns { ends: AT_ONCE }, DEEPEST)
}

/// 64 lines, and a byte more.
#[test]
fn the_longest_input(rt: HostRuntime) -> Result<(), Fail> {
    let mut input = repeated(rt.alloc(), "x*1048575 «A»")?.repeat(rt.alloc(), 64)?;
    let read = outcome(rt.alloc(), "regexp", input.as_bytes(), AT_ONCE)?;
    input.push_str("x")?;
    let refused = outcome(rt.alloc(), "regexp", input.as_bytes(), AT_ONCE)?;
    let wanted = repeated(rt.alloc(), "1«20»[ bad«A»*64 ]")?;
    assert_eq!(rt;
        (read.as_str(), refused.starts_with("6 ")),
        (wanted.as_str(), true)
    );
    Ok(())
}
