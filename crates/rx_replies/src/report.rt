use crate::line::Line;
use crate::question::{Answer, Question};
use rx_base::OutOfMemory;
use rx_rows::text_of;
use std::io::{self, ErrorKind};
use std::process::ExitCode;

/// How the rows under the last heading are asked, and how many rows there were under it and in all, and how many were answered otherwise.
#[derive(Clone, Copy)]
pub struct Report<'a> {
    heading: &'a str,
    words: &'a str,
    form: &'a str,
    flags: &'a str,
    rows: u64,
    wrong: u64,
    rows_in_all: u64,
    wrong_in_all: u64,
}

impl<'a> Report<'a> {
    pub fn new() -> Report<'a> {
        Report {
            heading: "",
            words: "",
            form: "L",
            flags: "u",
            rows: 0,
            wrong: 0,
            rows_in_all: 0,
            wrong_in_all: 0,
        }
    }

    /// Takes the next line of the table.
    pub fn take(&mut self, rt: &(impl Print + AllocGlobal), text: &'a str) -> io::Result<()> {
        match Line::of(text) {
            Line::Row { pattern, reply } => self.ask(rt, pattern, reply)?,
            Line::Heading(heading) => self.begin(rt, heading)?,
            Line::Words(words) => self.words = words,
            Line::Form(form) => self.form = form,
            Line::Flags(flags) => self.flags = flags,
            Line::Empty => {}
            Line::Other => self.refuse(rt, text)?,
        }
        Ok(())
    }

    /// Ends the rows under the last heading, and begins those under this one.
    fn begin(&mut self, rt: &impl Print, heading: &'a str) -> io::Result<()> {
        self.end_heading(rt)?;
        *self = Report {
            heading,
            words: "",
            form: "L",
            flags: "u",
            rows: 0,
            wrong: 0,
            rows_in_all: self.rows_in_all,
            wrong_in_all: self.wrong_in_all,
        };
        Ok(())
    }

    /// Asks a row.
    fn ask(
        &mut self,
        rt: &(impl Print + AllocGlobal),
        pattern: &str,
        reply: &str,
    ) -> io::Result<()> {
        self.rows = self.rows.saturating_add(1);
        let alloc = rt.alloc();
        let Some(flags) = text_of(alloc, self.flags)? else {
            return self.refuse(rt, self.flags);
        };
        let Some(asked) = text_of(alloc, pattern)? else {
            return self.refuse(rt, pattern);
        };
        let Some(wanted) = text_of(alloc, reply)? else {
            return self.refuse(rt, reply);
        };
        let question = Question {
            words: self.words,
            form: self.form,
            flags: &flags,
            pattern: &asked,
        };
        match question.answer(alloc) {
            Ok(Some(answer)) if answer.is(&wanted) => Ok(()),
            Ok(Some(answer)) => self.tell(rt, pattern, reply, &answer),
            Ok(None) => self.refuse(rt, self.words),
            Err(OutOfMemory) => Err(io::Error::from(ErrorKind::OutOfMemory)),
        }
    }

    /// Says that a row is answered otherwise.
    fn tell(
        &mut self,
        rt: &impl Print,
        pattern: &str,
        reply: &str,
        answer: &Answer,
    ) -> io::Result<()> {
        self.wrong = self.wrong.saturating_add(1);
        let text = answer.text();
        let status = answer.status.number();
        println!(rt; "{pattern}\texpected: {reply}\tanswered: {text}, status {status}")
    }

    /// Says that a line, or a part of one, is none of a table.
    fn refuse(&mut self, rt: &impl Print, text: &str) -> io::Result<()> {
        self.wrong = self.wrong.saturating_add(1);
        println!(rt; "not understood: {text}")
    }

    /// Says how many rows stand under the last heading.
    fn end_heading(&mut self, rt: &impl Print) -> io::Result<()> {
        let heading = self.heading;
        let rows = self.rows;
        let wrong = self.wrong;
        self.rows_in_all = self.rows_in_all.saturating_add(rows);
        self.wrong_in_all = self.wrong_in_all.saturating_add(wrong);
        match (rows, wrong) {
            (0, 0) => Ok(()),
            (_, 0) => println!(rt; "{heading}: {rows} rows"),
            _ => println!(rt; "{heading}: {rows} rows, {wrong} wrong"),
        }
    }

    /// Ends the table.
    pub fn end(&mut self, rt: &impl Print) -> io::Result<()> {
        self.end_heading(rt)?;
        let rows = self.rows_in_all;
        let wrong = self.wrong_in_all;
        println!(rt; "in all: {rows} rows, {wrong} wrong")
    }

    /// Whether each row was answered as the table says, as the status to end with.
    pub fn status(&self) -> ExitCode {
        ExitCode::from(u8::from(self.wrong_in_all > 0))
    }
}
