use crate::trees::read;
use rx_rows::{Call, agree};
use rx_tools::support::{has_buffer_boundaries, has_buffer_boundaries_in};
use std::alloc::Global;
use std::test::Fail;

/// The answers of both calls about a pattern: that without memory, and that without a deep stack.
struct BufferCall;

impl Call for BufferCall {
    fn answer(&self, alloc: Global, asked: &str) -> Result<String, Fail> {
        let pattern = read(alloc, asked)?;
        let alone = has_buffer_boundaries(&pattern);
        let among = has_buffer_boundaries_in(alloc, &pattern)?;
        let answers = match (alone, among) {
            (false, false) => "false false",
            (true, true) => "true true",
            _ => "they differ",
        };
        Ok(String::from_str(alloc, answers)?)
    }
}

#[test]
fn buffer_boundaries(rt: HostRuntime) -> Result<(), Fail> {
    let rows = r"^a\b\B$ => false false
\A => true true
(?:a|(?=b\z))* => true true
[\b]|(x\Z) => true true
\\A => false false";
    agree(rt.alloc(), &BufferCall, rows)
}
