//! Replies to many lines and to none, and to lines that ask nothing.
use crate::runs::outcome;
use rx_base::OutOfMemory;
use rx_run::over_memory;
use rx_run::run::Status;
use std::alloc::Global;
use std::test::Fail;

/// Lines of each kind, the last with no LF.
const LINES: &[u8] = b"L\tu\ta.b|c
L\tu\t\\x41B
L\tiu\ta{2,1}
L\tu\ta/b
L\tu\ta||b
L\tu\ta\r
L\tui\ta.b|c
L\tsu\ta.b|c
L\tdgimsuy\ta.b|c
L\tgg\ta
L\tgg\t(a)
L\tux\ta
L\tuv\ta
L\tu\t(a)
L\tu\t
L\tu\t[a]
C\tu\t\"a\"
C\tgg\t\"a\"
L\t\ta
L\tg\ta
L\tv\ta
X
Lu\ta
L\tu
\tu\ta

L\tu\t\xff
L\tu\tno LF";

/// What a run on them comes to.
const OUTCOME: &str = "1 [ok\tunicode\ta.b|c
ok\tunicode\tAB
err\tbraced_quantifier_out_of_order\t1..6
ok\tunicode\ta\\/b
ok\tunicode\ta||b
ok\tunicode\ta\\r
ok\tunicode\ta.b|c
ok\tunicode\ta.b|c
ok\tunicode\ta.b|c
err\tduplicated_flags\t1..2
err\tduplicated_flags\t1..2
err\tunknown_flag\t1..2
err\tinvalid_unicode_flags\t1..2
ok\tunicode\t(a)
ok\tunicode\t(?:)
ok\tunicode\t[a]
err\tinvalid_input\t0..1
err\tinvalid_input\t0..2
ok\tlegacy\ta
ok\tlegacy\ta
ok\tsets\ta
bad
bad
bad
bad
bad
bad
ok\tunicode\tno LF
]";

#[test]
fn replies_come_in_order(rt: HostRuntime) -> Result<(), Fail> {
    for ends in [
        "1 0 1 0 1100000",
        "3 0 2 0 1100000",
        "65536 0 65536 0 1100000",
    ] {
        let outcome = outcome(rt.alloc(), "regexp", LINES, ends)?;
        assert_eq!(rt; outcome.as_str(), OUTCOME, "with {ends}");
    }
    Ok(())
}

/// Whether the line has these replies in a room of n bytes, and the run this status.
fn has_replies(
    alloc: Global,
    line: &[u8],
    room: usize,
    replies: &str,
    status: Status,
) -> Result<bool, OutOfMemory> {
    let (found, sink) = over_memory::replies(alloc, line, room)?;
    Ok((found, sink.bytes()) == (status, replies.as_bytes()))
}

#[test]
fn one_line_or_none_is_answered(rt: HostRuntime) -> Result<(), Fail> {
    let bad = Status::SomeRefused;
    let mut as_wanted = true;
    for line in ["X\n", "Lu\ta\n", "L\tu\n", "\tu\ta\n", "\n"] {
        as_wanted &= has_replies(rt.alloc(), line.as_bytes(), 99, "bad\n", bad)?;
    }
    let empty = "ok\tunicode\t(?:)\n";
    let others = [
        has_replies(rt.alloc(), b"L\tu\t\xff\n", 99, "bad\n", bad)?,
        has_replies(rt.alloc(), b"L\tu\t", 99, empty, Status::AllOk)?,
        has_replies(rt.alloc(), b"", 9, "", Status::AllOk)?,
        over_memory::run_clean(rt.alloc(), &[], b"") == Status::AllOk,
    ];
    assert_eq!(rt; (as_wanted, others), (true, [true; 4]));
    Ok(())
}
