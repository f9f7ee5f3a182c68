//! The command `json`: replies in order however the bytes come, its statuses, ends that fail, and helps of texts with quotes.
use crate::runs::{RUNS, outcome};
use rx_rows::{Call, agree};
use std::alloc::Global;
use std::test::Fail;

/// Requests that are read, with LF and with CR LF after them, and lines that are no requests, the last with no LF.
const LINES: &[u8] = b"{\"pattern\":\"a\"}
{\"id\": [1.50, {\"b\": 2}], \"pattern\": \"\\\\x41\", \"flags\": \"u\", \"want\": [\"spelling\"]}\r
X

\xff
[]
{\"id\":\"\\u00e9\",\"pattern\":\"a\",\"flag\":\"u\"}
{\"pattern\":\"*\"}
{\"pattern\":\"a\",\"want\":[]}";

/// What a run on them comes to.
const OUTCOME: &str =
    r#"1 [{"id":null,"status":"ok","mode":"legacy","spelling":"a","groups":[],"names":[]}
{"id":[1.50,{"b":2}],"status":"ok","mode":"unicode","spelling":"A"}
{"id":null,"status":"bad","why":"the line is not JSON, or it nests more than 128 deep"}
{"id":null,"status":"bad","why":"the line is not JSON, or it nests more than 128 deep"}
{"id":null,"status":"bad","why":"the line is not UTF-8"}
{"id":null,"status":"bad","why":"the line is not an object"}
{"id":"é","status":"bad","why":"unknown field `flag`"}
{"id":null,"status":"refused","name":"invalid_braced_quantifier","kind":null,"values":{},"message":"Invalid regular expression: Invalid braced quantifier","field":"pattern","spans":[{"start":0,"end":1,"start16":0,"end16":1}],"help":"a quantifier follows what it repeats; to match the character itself, write a backslash before it"}
{"id":null,"status":"ok","mode":"legacy"}
]"#;

#[test]
fn replies_come_in_order(rt: HostRuntime) -> Result<(), Fail> {
    for ends in [
        "1 0 65536 0 1100000",
        "7 0 5 0 1100000",
        "65536 0 1 0 1100000",
    ] {
        let outcome = outcome(rt.alloc(), "regexp json", LINES, ends)?;
        assert_eq!(rt; outcome.as_str(), OUTCOME, "with {ends}");
    }
    Ok(())
}

/// Three requests are read one by one, so that the reply to each is written before the next is read.
const FAILING: &str =
    r#"regexp json | {"pattern":"a"}«A»{"pattern":"a"}«A»{"pattern":"a"}«A» | 16 1 40 0 1100000 => 3 []
regexp json | {"pattern":"a"}«A»{"pattern":"a"}«A»{"pattern":"a"}«A» | 16 2 40 0 1100000 => 3 [{"id":null,"status":"ok","mode":"legacy","spelling":"a","groups":[],"names":[]}«A»]
regexp json | {"pattern":"a"}«A»{"pattern":"a"}«A»{"pattern":"a"}«A» | 16 3 40 0 1100000 => 3 [{"id":null,"status":"ok","mode":"legacy","spelling":"a","groups":[],"names":[]}«A»{"id":null,"status":"ok","mode":"legacy","spelling":"a","groups":[],"names":[]}«A»]
regexp json | {"pattern":"a"}«A»{"pattern":"a"}«A»{"pattern":"a"}«A» | 16 4 40 0 1100000 => 3 [{"id":null,"status":"ok","mode":"legacy","spelling":"a","groups":[],"names":[]}«A»{"id":null,"status":"ok","mode":"legacy","spelling":"a","groups":[],"names":[]}«A»{"id":null,"status":"ok","mode":"legacy","spelling":"a","groups":[],"names":[]}«A»]
regexp json | {"pattern":"a"}«A»{"pattern":"a"}«A»{"pattern":"a"}«A» | 16 0 40 1 1100000 => 4 []
regexp json | {"pattern":"a"}«A»{"pattern":"a"}«A»{"pattern":"a"}«A» | 16 0 40 2 1100000 => 4 [{"id":null,"status":"ok","mode":"legacy"]
regexp json | {"pattern":"a"}«A»{"pattern":"a"}«A»{"pattern":"a"}«A» | 16 0 40 3 1100000 => 4 [{"id":null,"status":"ok","mode":"legacy","spelling":"a","groups":[],"names":[]}«A»]
regexp json | {"pattern":"a"}«A»{"pattern":"a"}«A»{"pattern":"a"}«A» | 16 0 40 4 1100000 => 4 [{"id":null,"status":"ok","mode":"legacy","spelling":"a","groups":[],"names":[]}«A»{"id":null,"status":"ok","mode":"legacy"]
regexp json | {"pattern":"a"}«A»{"pattern":"a"}«A»{"pattern":"a"}«A» | 16 0 40 0 1100000 => 0 [{"id":null,"status":"ok","mode":"legacy","spelling":"a","groups":[],"names":[]}«A»{"id":null,"status":"ok","mode":"legacy","spelling":"a","groups":[],"names":[]}«A»{"id":null,"status":"ok","mode":"legacy","spelling":"a","groups":[],"names":[]}«A»]"#;

/// Whether each reply has the status `ok`.
const STATUSES: &str = r#"regexp json |  | 9 0 9 0 1100000 => 0 unread []
regexp json | {"pattern":"a"} | 9 0 9 0 1100000 => 0 [{"id":null,"status":"ok","mode":"legacy","spelling":"a","groups":[],"names":[]}«A»]
regexp json | {"pattern":"a"}«D»«A»{"pattern":"b"}«A» | 9 0 9 0 1100000 => 0 [{"id":null,"status":"ok","mode":"legacy","spelling":"a","groups":[],"names":[]}«A»{"id":null,"status":"ok","mode":"legacy","spelling":"b","groups":[],"names":[]}«A»]
regexp json | {"pattern":"a"}«A»{"pattern":"*"}«A»{"pattern":"b"}«A» | 9 0 9 0 1100000 => 1 [{"id":null,"status":"ok","mode":"legacy","spelling":"a","groups":[],"names":[]}«A»{"id":null,"status":"refused","name":"invalid_braced_quantifier","kind":null,"values":{},"message":"Invalid regular expression: Invalid braced quantifier","field":"pattern","spans":[{"start":0,"end":1,"start16":0,"end16":1}],"help":"a quantifier follows what it repeats; to match the character itself, write a backslash before it"}«A»{"id":null,"status":"ok","mode":"legacy","spelling":"b","groups":[],"names":[]}«A»]
regexp json | {"pattern":"a"}«A»«A» | 9 0 9 0 1100000 => 1 [{"id":null,"status":"ok","mode":"legacy","spelling":"a","groups":[],"names":[]}«A»{"id":null,"status":"bad","why":"the line is not JSON, or it nests more than 128 deep"}«A»]
regexp json | {"pattern":"\"","want":[]} | 64 0 64 0 1100000 => 0 [{"id":null,"status":"ok","mode":"legacy"}«A»]"#;

#[test]
fn statuses_are_told(rt: HostRuntime) -> Result<(), Fail> {
    agree(rt.alloc(), &RUNS, FAILING)?;
    agree(rt.alloc(), &RUNS, STATUSES)
}

/// What the reply to one line has as its help.
#[derive(Drop)]
struct Help;

impl Call for Help {
    fn answer(&self, alloc: Global, asked: &str) -> Result<String, Fail> {
        let ends = "64 0 64 0 1100000";
        let outcome = outcome(alloc, "regexp json", asked.as_bytes(), ends)?;
        let (_, help) = outcome.split_once("\"help\":").ok_or("no help")?;
        let help = help.strip_suffix("}\n]").unwrap_or(help);
        Ok(String::from_str(alloc, help)?)
    }
}

/// In a literal a quote is a character of the pattern; an argument is looked at between its quotes.
const HELPS: &str =
    r#"{"pattern":"\"[a&&b\\y]\"","flags":"v"} => "to match the character after the backslash, leave the backslash out"
{"pattern":"'a)'","flags":"u"} => "to match the character at which reading stops, write a backslash before it"
{"pattern":"`a\\y`","flags":"u"} => "to match the character after the backslash, leave the backslash out"
{"pattern":"`a\\`","flags":"u"} => "to match the character after the backslash, leave the backslash out"
{"pattern":"\"'a)'\"","form":"constructor"} => "to match the character at which reading stops, write a backslash before it"
{"pattern":"\"'(a'\"","form":"constructor"} => "a group ends with )"
{"pattern":"\"(?\\x50<a>b)\"","form":"constructor"} => null
{"pattern":"\"","form":"constructor"} => null
{"pattern":"","form":"constructor"} => "an argument of RegExp is written with its quotes"
{"pattern":"\\","form":"constructor"} => "an argument of RegExp is written with its quotes"
{"pattern":"\"a\"","flags":"u","form":"constructor"} => "an argument of RegExp is written with its quotes"
{"pattern":"a","flags":"\"g\""} => "the flags are d, g, i, m, s, u, v and y""#;

#[test]
fn quotes_are_told_by_the_form(rt: HostRuntime) -> Result<(), Fail> {
    agree(rt.alloc(), &Help, HELPS)
}
