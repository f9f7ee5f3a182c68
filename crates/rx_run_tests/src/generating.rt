//! The command `gen`: its words and its line, and writes of it that are short or fail.
use crate::runs::Runs;
use rx_rows::agree;
use std::test::Fail;

const ROWS: &str = r"regexp gen 1 1 => 0 unread [lines 1 ok 1 bytes 47«A»]
regexp gen 1 2 => 0 unread [lines 2 ok 2 bytes 71«A»]
regexp gen 0 1 => 0 unread [lines 1 ok 1 bytes 4«A»]
regexp gen 0 3 => 0 unread [lines 3 ok 3 bytes 40«A»]
regexp gen 2147483647 1 => 0 unread [lines 1 ok 1 bytes 8«A»]
regexp gen 01 1 => 0 unread [lines 1 ok 1 bytes 47«A»]
regexp gen 0000000001 0000000002 => 0 unread [lines 2 ok 2 bytes 71«A»]
regexp gen 00000000001 1 => 2 unread []
regexp gen 1 00000000001 => 2 unread []
regexp gen 2147483648 1 => 2 unread []
regexp gen 9999999999 1 => 2 unread []
regexp gen 12345678901 1 => 2 unread []
regexp gen 1 0 => 2 unread []
regexp gen 1 20001 => 2 unread []
regexp gen 1 9999999999 => 2 unread []
regexp gen +1 1 => 2 unread []
regexp gen 1 +1 => 2 unread []
regexp gen -1 1 => 2 unread []
regexp gen  1 => 2 unread []
regexp gen 1  => 2 unread []
regexp gen 0x1 1 => 2 unread []
regexp gen 1a 1 => 2 unread []
regexp gen ١ 1 => 2 unread []
regexp gen 1 => 2 unread []
regexp gen => 2 unread []
regexp gen 1 1 1 => 2 unread []
regexp gen  1 1 => 2 unread []
regexp Gen 1 1 => 2 unread []
regexp generate 1 1 => 2 unread []
regexp 1 1 1 => 2 unread []
regexp  => 2 unread []
regexp gen 7 20000 => 0 unread [lines 20000 ok 20000 bytes 416256«A»]
regexp gen 7 20000 => 0 unread [lines 20000 ok 20000 bytes 416256«A»]
regexp gen 1 2 | X«A» | 9 0 1 0 99 => 0 unread [lines 2 ok 2 bytes 71«A»]
regexp gen 1 2 | X«A» | 9 0 1 1 99 => 4 unread []
regexp gen 1 2 | X«A» | 9 0 1 2 99 => 4 unread [l]
regexp gen 1 2 | X«A» | 9 0 1 22 99 => 4 unread [lines 2 ok 2 bytes 71]
regexp gen 1 2 | X«A» | 9 0 1 23 99 => 0 unread [lines 2 ok 2 bytes 71«A»]
regexp gen 1 2 | X«A» | 9 0 7 0 99 => 0 unread [lines 2 ok 2 bytes 71«A»]
regexp gen 1 2 | X«A» | 9 0 7 1 99 => 4 unread []
regexp gen 1 2 | X«A» | 9 0 7 2 99 => 4 unread [lines 2]
regexp gen 1 2 | X«A» | 9 0 7 3 99 => 4 unread [lines 2 ok 2 b]
regexp gen 1 2 | X«A» | 9 0 7 4 99 => 4 unread [lines 2 ok 2 bytes 71]
regexp gen 1 2 | X«A» | 9 0 7 5 99 => 0 unread [lines 2 ok 2 bytes 71«A»]
regexp gen 1 2 | X«A» | 9 0 22 1 99 => 4 unread []
regexp gen 1 2 | X«A» | 9 0 22 2 99 => 0 unread [lines 2 ok 2 bytes 71«A»]";

#[test]
fn patterns_are_made(rt: HostRuntime) -> Result<(), Fail> {
    let runs = Runs {
        input: "X«A»",
        ends: "9 0 99 0 99",
    };
    agree(rt.alloc(), &runs, ROWS)
}
