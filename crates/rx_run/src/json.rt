ghost use Rattle.std.specs.Prelude.{◌≡◌, []};
ghost use Rattle.rx_base.specs.Writing.{Written};

use crate::replying::Replying;
use rx_base::{Failed, OutOfMemory, Sink};
use rx_json_reply::Replies;
use std::alloc::Global;

/// Lines are answered as JSON, in memory that is taken there.
impl Replying<Global> for Replies {
    ghost use Rattle.rx_json_reply.specs.Answers.{IsJsonReply};

    ghost answers = { λ alloc line reply ok. IsJsonReply line reply ok };

    ghost waiting = { λ replies. replies.bytes.items };

    ghost so_far = { λ replies. replies.all_ok };

    fn add(&mut self, with: &Global, line: &[u8]) -> Result<(), OutOfMemory> {
        Replies::add(self, *with, line)
    }

    fn write<K: Sink>(&mut self, sink: &mut K) -> Result<(), Failed>
        ensures written { Written K.taken K.fixed K.faults sink.old sink.new result self.old.bytes.items }
        ensures so_far { self.new.all_ok ≡ self.old.all_ok }
        ensures waiting { self.new.bytes.items ≡ [] }
    {
        Replies::write(self, sink)
    }

    fn are_ok(&self) -> bool
        ensures { result ≡ self.now.all_ok }
    {
        self.all_ok
    }
}
