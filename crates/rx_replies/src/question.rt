use rx_base::{CleanSource, List, MemorySink, OutOfMemory, Text};
use rx_rows::text_of;
use rx_run::run::{Status, run};
use std::alloc::Global;

/// Room for one reply, in bytes.
const ROOM: usize = 65536;

/// How much the program writes at once, in bytes.
const STEP: usize = 4096;

/// The words with which requests and replies are JSON.
const JSON: &str = "json";

/// A pattern and how it is asked.
#[derive(Clone, Copy)]
pub struct Question<'a> {
    /// The words that the program is run with, as a table writes them, with single spaces between.
    pub words: &'a str,
    pub form: &'a str,
    pub flags: &'a str,
    pub pattern: &'a str,
}

impl Question<'_> {
    /// What the program writes for the pattern, and the status that it ends with; or none where the words are not written as a table writes them.
    pub fn answer(&self, alloc: Global) -> Result<Option<Answer>, OutOfMemory> {
        let line = self.line(alloc)?;
        let Some(words) = words_of(alloc, self.words)? else {
            return Ok(None);
        };
        let mut source = CleanSource::new(line.as_bytes());
        let mut sink = MemorySink::new(alloc, ROOM, List::new(alloc), STEP)?;
        let status = run(alloc, words.as_slice(), &mut source, &mut sink);
        Ok(Some(Answer { status, sink }))
    }
}

impl Question<'_> {
    /// The line that asks it. As JSON it is the pattern's place in the table that holds the whole request.
    fn line(&self, alloc: Global) -> Result<String, OutOfMemory> {
        let form = self.form;
        let flags = self.flags;
        let pattern = self.pattern;
        match self.words {
            JSON => Ok(format!(in alloc; "{pattern}\n")?),
            _ => Ok(format!(in alloc; "{form}\t{flags}\t{pattern}\n")?),
        }
    }
}

/// The words that a text stands for, with single spaces between. An empty text has none.
fn words_of(alloc: Global, text: &str) -> Result<Option<List<Text>>, OutOfMemory> {
    let mut words = List::new(alloc);
    if text.is_empty() {
        return Ok(Some(words));
    }
    for written in text.split(' ') {
        let Some(word) = word_of(alloc, written)? else {
            return Ok(None);
        };
        words.push(word)?;
    }
    Ok(Some(words))
}

/// The word that a part of a text stands for. `«»` stands for an empty one.
fn word_of(alloc: Global, written: &str) -> Result<Option<Text>, OutOfMemory> {
    if written == "«»" {
        return Ok(Some(Text::from_str(alloc, "")?));
    }
    let Some(word) = text_of(alloc, written)? else {
        return Ok(None);
    };
    Ok(Some(Text::from_str(alloc, &word)?))
}

/// What the program wrote for one line, and the status that it ended with.
#[derive(Drop)]
pub struct Answer {
    pub status: Status,
    sink: MemorySink,
}

impl Answer {
    /// The reply, as far as it is text.
    pub fn text(&self) -> &str {
        match str::from_utf8(self.sink.bytes()) {
            Ok(text) => text.trim_end_matches('\n'),
            Err(_) => "(no text)",
        }
    }

    /// Whether it is this reply, with the status that belongs to it.
    pub fn is(&self, reply: &str) -> bool {
        let is_ok = if reply.starts_with('{') {
            reply.contains(",\"status\":\"ok\"")
        } else {
            reply.starts_with("ok\t")
        };
        let status = if is_ok {
            Status::AllOk
        } else {
            Status::SomeRefused
        };
        self.status == status && self.sink.bytes().strip_suffix(b"\n") == Some(reply.as_bytes())
    }
}
