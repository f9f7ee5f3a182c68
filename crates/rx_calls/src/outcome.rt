/// What a call came to.
#[derive(Drop)]
pub enum Outcome {
    /// Out of memory; and where the call changes a value, that is as it was.
    OutOfMemory,

    /// Any other answer, as it is shown.
    Answer(String),
}

/// Says that the call begins.
pub fn begin(rt: &impl Print) {
    let _ = print!(rt; "(");
}

/// Says that the call has ended.
pub fn end(rt: &impl Print) {
    let _ = print!(rt; ")");
}
