//! Runs of the program over memory, which rows ask for.
use rx_base::{List, MemorySink, MemorySource, OutOfMemory, Source};
use rx_rows::{Call, text_of};
use rx_run::arguments::MemoryArguments;
use rx_run::program::run_program;
use std::alloc::{AllocError, Global};
use std::process::ExitCode;
use std::test::Fail;

/// Runs of the program. A row has the command line, which begins with the program's name; after a bar the input; and after another bar the ends. Rows
/// that have no input or no ends have these.
#[derive(Drop)]
pub struct Runs {
    pub input: &'static str,
    pub ends: &'static str,
}

impl Call for Runs {
    fn answer(&self, alloc: Global, asked: &str) -> Result<String, Fail> {
        let (line, given) = asked.split_once(" | ").unwrap_or((asked, self.input));
        let (input, ends) = given.rsplit_once(" | ").unwrap_or((given, self.ends));
        let input = text_of(alloc, input)?.ok_or("no text")?;
        let outcome = outcome(alloc, line, input.as_bytes(), ends)?;
        Ok(shown(alloc, &outcome)?)
    }
}

/// Ends with which a run gives and takes all at once, and in which no call fails.
pub const AT_ONCE: &str = "65536 0 65536 0 1100000";

/// Runs of which each row has the input.
pub const RUNS: Runs = Runs {
    input: "",
    ends: AT_ONCE,
};

/// The ends of a run as numbers: how many bytes one call of the source gives at most, and which call fails, from 1 on, or none at 0; the same of the sink;
/// and how many bytes the sink takes in all.
fn numbers(ends: &str) -> Option<[usize; 5]> {
    let mut numbers = [0usize; 5];
    for (number, written) in numbers.iter_mut().zip(ends.split(' ')) {
        *number = written.parse().ok()?;
    }
    Some(numbers)
}

/// The number that the program ends with; then ` unread`, where a read after it gives the whole input; and in brackets what it wrote.
pub fn outcome(alloc: Global, line: &str, input: &[u8], ends: &str) -> Result<String, Fail> {
    let [most_given, failing_read, most_taken, failing_write, room] = numbers(ends).ok_or(
        "no ends",
    )?;
    let arguments = arguments_of_line(alloc, line)?;
    let mut source = source_of(alloc, input, most_given, failing_read as u64)?;
    let mut sink = sink_of(alloc, room, most_taken, failing_write as u64)?;
    run_over(alloc, &arguments, &mut source, &mut sink, input.len())
}

/// The same of a run over these ends, where the input has so many bytes.
pub fn run_over(
    alloc: Global,
    arguments: &MemoryArguments,
    source: &mut MemorySource,
    sink: &mut MemorySink,
    length: usize,
) -> Result<String, Fail> {
    let number = number_of(run_program(alloc, arguments, source, sink));
    let unread = match source.read(&mut [0u8; 9]) {
        Ok(count) if count == length => " unread",
        _ => "",
    };
    let written = str::from_utf8(sink.bytes()).ok().ok_or("no text")?;
    Ok(format!(in alloc; "{number}{unread} [{written}]")?)
}

/// The number of a code with which the program may end.
fn number_of(code: ExitCode) -> u8 {
    for number in 0..7u8 {
        if code == ExitCode::from(number) {
            return number;
        }
    }
    u8::MAX
}

/// The arguments that a command line has, the program's name first. Single spaces stand between them.
fn arguments_of_line(alloc: Global, line: &str) -> Result<MemoryArguments, OutOfMemory> {
    let mut arguments = List::new(alloc);
    for argument in line.split(' ') {
        push_argument(&mut arguments, argument.as_bytes())?;
    }
    Ok(MemoryArguments::new(arguments))
}

pub fn push_argument(arguments: &mut List<List<u8>>, argument: &[u8]) -> Result<(), OutOfMemory> {
    let mut bytes = List::new(arguments.allocator());
    bytes.extend_from_slice(argument)?;
    arguments.push(bytes)
}

/// A source that gives so many bytes in one call at most, and of whose calls this one fails.
pub fn source_of(
    alloc: Global,
    input: &[u8],
    most: usize,
    failing: u64,
) -> Result<MemorySource, OutOfMemory> {
    let mut bytes = List::new(alloc);
    bytes.extend_from_slice(input)?;
    let mut fails = List::new(alloc);
    fails.push(failing)?;
    Ok(MemorySource::new(bytes, fails, most.max(1)))
}

/// A sink that takes so many bytes in all, and so many in one call at most, and of whose calls this one fails.
pub fn sink_of(
    alloc: Global,
    room: usize,
    most: usize,
    failing: u64,
) -> Result<MemorySink, OutOfMemory> {
    let mut fails = List::new(alloc);
    fails.push(failing)?;
    MemorySink::new(alloc, room, fails, most.max(1))
}

/// A text in which `«9»` stands for each TAB and `«A»` for each LF.
pub fn shown(alloc: Global, text: &str) -> Result<String, AllocError> {
    text.replace(alloc, "\t", "«9»")?
        .replace(alloc, "\n", "«A»")
}
