/// What a line of the table says.
#[derive(Clone, Copy)]
pub struct Row<'a> {
    /// The name of the call.
    pub call: &'a str,
    /// What the call is given beside the text: flags, `-` where there are none; whether a string stands in strict mode code; or what is there before a
    /// call that changes it.
    pub given: &'a str,
    pub text: &'a str,
    pub answer: &'a str,
}

impl<'a> Row<'a> {
    /// The row that a line is, or none where it has fewer than three TABs.
    pub fn of(line: &'a str) -> Option<Row<'a>> {
        let (call, rest) = line.split_once('\t')?;
        let (given, rest) = rest.split_once('\t')?;
        let (text, answer) = rest.split_once('\t')?;
        Some(Row {
            call,
            given,
            text,
            answer,
        })
    }
}
