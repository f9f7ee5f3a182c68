ghost use Rattle.std.specs.Prelude.{◌≡◌, ◌&&◌, ◌∷◌, ◌++◌, [], ⊤, Bool, codes, Err, IfOk, IfSome, List, MatchResult, Ok, OnErr, OnOk, true, ℕ};
ghost use Rattle.json.specs.Json.{Json};
ghost use Rattle.json.specs.Token.{begin_object};
ghost use Rattle.json.specs.Tree.{HasNumbers, json_tokens};
ghost use Rattle.json.specs.Value.{value_view};
ghost use Rattle.rx_base.specs.Writing.{Written};
ghost use Rattle.rx_json.specs.Adding.{Adds};
ghost use Rattle.rx_json.specs.Values.{Field, field_tokens, object_of};
ghost use Rattle.rx_json_reply.specs.Answers.{IsAnswerTo, IsJsonReply};
ghost use Rattle.rx_json_reply.specs.Begun.{id_json};
ghost use Rattle.rx_json_reply.specs.Lines.{IsValueOf};
ghost use Rattle.rx_json_reply.specs.Parts.{bad_fields, begun};
ghost use Rattle.rx_json_reply.specs.Wrongs.{wrong_of};

use crate::answer::write_answer;
use crate::member::begin_reply;
use crate::request::Request;
use crate::wrong::Wrong;
use json::{Error, Scratch, Value, Writer};
use rx_base::{Failed, OutOfMemory, Sink, write_all};
use rx_json::write_text;
use std::alloc::Global;

/// The longest line that is read, in bytes.
pub const LINE_LIMIT: usize = 1048576;

/// The replies that are to be written next, and whether all so far have the status `ok`. The memory is used again.
#[derive(Drop)]
pub struct Replies {
    pub bytes: Vec<u8>,
    pub all_ok: bool,
    scratch: Scratch,
}

impl Replies {
    /// Takes no memory.
    pub fn new(alloc: Global) -> Replies
        ensures bytes { result.bytes.items ≡ [] }
        ensures all_ok { result.all_ok ≡ true }
    {
        Replies {
            bytes: Vec::new(alloc),
            all_ok: true,
            scratch: Scratch::new(alloc),
        }
    }

    /// Adds the reply to a line. After an error no replies are left.
    pub fn add(&mut self, alloc: Global, line: &[u8]) -> Result<(), OutOfMemory>
        ensures added { OnOk result ((reply : List ℕ) × (ok : Bool) × IsJsonReply line.now reply ok
            × (self.new.bytes.items ≡ self.old.bytes.items ++ reply) × (self.new.all_ok ≡ (self.old.all_ok && ok))) }
        ensures dropped { OnErr result (self.new.bytes.items ≡ []) }
    {
        let bytes = std::mem::replace(&mut self.bytes, Vec::new(alloc));
        let mut writer = Writer::new(bytes);
        let is_ok = write_reply(alloc, &mut self.scratch, &mut writer, line)?;
        let mut bytes = writer.into_inner();
        bytes.push(b'\n')?;
        self.bytes = bytes;
        self.all_ok = self.all_ok && is_ok;
        Ok(())
    }

    /// Writes the replies that were added since the last write.
    pub fn write<K: Sink>(&mut self, sink: &mut K) -> Result<(), Failed>
        ensures written { Written K.taken K.fixed K.faults sink.old sink.new result self.old.bytes.items }
        ensures all_ok { self.new.all_ok ≡ self.old.all_ok }
        ensures bytes { self.new.bytes.items ≡ [] }
    {
        let result = write_all(sink, self.bytes.as_slice());
        self.bytes.clear();
        result
    }
}

/// Writes the reply to a line, and says whether its status is `ok`.
fn write_reply(
    alloc: Global,
    scratch: &mut Scratch,
    writer: &mut Writer,
    line: &[u8],
) -> Result<bool, OutOfMemory>
    ensures { IfOk result (λ ok. (answer : Json) × IsAnswerTo line.now answer ok × Adds writer.old writer.new (json_tokens answer)) }
{
    let is_ok = write_open_reply(alloc, scratch, writer, line)?;
    writer.end_object()?;
    Ok(is_ok)
}

/// Writes the reply to a line but for its closing brace, and says whether its status is `ok`.
fn write_open_reply(
    alloc: Global,
    scratch: &mut Scratch,
    writer: &mut Writer,
    line: &[u8],
) -> Result<bool, OutOfMemory>
    ensures { IfOk result (λ ok. (fields : List Field) × IsAnswerTo line.now (object_of fields) ok × Adds writer.old writer.new (begin_object ∷ field_tokens fields)) }
{
    let read = value_of(alloc, scratch, line)?;
    match read {
        Err(wrong) => {
            write_bad(alloc, writer, None, wrong)?;
            Ok(false)
        }
        Ok(value) => write_reply_to(alloc, writer, &value),
    }
}

/// The value that a line is, or why it is none.
fn value_of<'a>(
    alloc: Global,
    scratch: &'a mut Scratch,
    line: &'a [u8],
) -> Result<Result<Value<'a>, Wrong<'a>>, OutOfMemory>
    ensures value { IfOk result (λ read. MatchResult read (λ value. IsValueOf line.now (Ok (value_view value))) (λ wrong. IsValueOf line.now (Err (wrong_of wrong)))) }
    ensures numbers { IfOk result (λ read. MatchResult read (λ value. HasNumbers (value_view value)) (λ wrong. ⊤)) }
{
    if line.len() > LINE_LIMIT {
        return Ok(Err(Wrong::LongLine));
    }
    let Ok(text) = str::from_utf8(line) else {
        return Ok(Err(Wrong::NotUtf8));
    };
    match Value::parse(alloc, text, scratch) {
        Ok(value) => Ok(Ok(value)),
        Err(Error::OutOfMemory) => Err(OutOfMemory),
        Err(Error::Invalid) => Ok(Err(Wrong::NotJson)),
        Err(Error::TooLong) => Ok(Err(Wrong::NotJson)),
        Err(Error::DuplicateKey) => Ok(Err(Wrong::NotJson)),
    }
}

/// Writes the reply to a value but for its closing brace, and says whether its status is `ok`.
fn write_reply_to(
    alloc: Global,
    writer: &mut Writer,
    value: &Value<'_>,
) -> Result<bool, OutOfMemory>
    requires { HasNumbers (value_view value.now) }
    ensures { (line : List ℕ) → IsValueOf line (Ok (value_view value.now)) → IfOk result (λ ok. (fields : List Field)
        × IsAnswerTo line (object_of fields) ok × Adds writer.old writer.new (begin_object ∷ field_tokens fields)) }
{
    let id = value.get("id");
    match Request::parse(value) {
        Ok(request) => write_answer(alloc, writer, id, &request),
        Err(wrong) => {
            write_bad(alloc, writer, id, wrong)?;
            Ok(false)
        }
    }
}

/// Writes why a line is no request, but for the closing brace.
fn write_bad(
    alloc: Global,
    writer: &mut Writer,
    id: Option<&Value<'_>>,
    wrong: Wrong<'_>,
) -> Result<(), OutOfMemory>
    requires { IfSome id (λ id. HasNumbers (value_view id.now)) }
    ensures { OnOk result (Adds writer.old writer.new (begin_object ∷ field_tokens (begun (id_json id.entry) (codes "bad") ++ bad_fields (wrong_of wrong.entry)))) }
{
    begin_reply(writer, id, "bad")?;
    let text = wrong.text(alloc)?;
    write_text(writer, "why", text.as_str())
}
