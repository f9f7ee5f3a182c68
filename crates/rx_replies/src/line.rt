/// What a line of the table says.
#[derive(Clone, Copy, Debug, PartialEq, Eq)]
pub enum Line<'a> {
    Row { pattern: &'a str, reply: &'a str },
    Heading(&'a str),
    Words(&'a str),
    Form(&'a str),
    Flags(&'a str),
    Empty,

    /// None of these.
    Other,
}

impl<'a> Line<'a> {
    pub fn of(text: &'a str) -> Line<'a> {
        if let Some((pattern, reply)) = text.split_once('\t') {
            return Line::Row { pattern, reply };
        }
        if let Some(heading) = text.strip_prefix("# ") {
            return Line::Heading(heading);
        }
        if let Some(words) = text.strip_prefix("words:") {
            return Line::Words(words.trim());
        }
        if let Some(form) = text.strip_prefix("form:") {
            return Line::Form(form.trim());
        }
        if let Some(flags) = text.strip_prefix("flags:") {
            return Line::Flags(flags.trim());
        }
        if text.is_empty() {
            return Line::Empty;
        }
        Line::Other
    }
}
