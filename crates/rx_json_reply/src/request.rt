ghost use Rattle.std.specs.Prelude.{◌≡◌, ◌+◌, ◌<◌, ◌^◌, length, max};
ghost use Rattle.rx_parser.specs.Inputs.{flags_length, input_of, stand_in_length};
ghost use Rattle.rx_parser.specs.Texts.{seen_input};

use crate::want::Want;
use rx_parser::Input;
use rx_tools::{Form, Options};

/// A pattern that is to be read, and what is to be said of it.
#[derive(Drop)]
pub struct Request<'a> {
    pub form: Form,
    pub pattern: &'a str,
    pub flags: Option<&'a str>,
    pub options: Options,
    pub want: Want,
    ghost pattern_fits: { options.pattern_span_offset + max (length pattern.now) (stand_in_length form) < 2 ^ 32 },
    ghost flags_fit: { options.flags_span_offset + flags_length flags < 2 ^ 32 },
}

impl<'a> Request<'a> {
    /// What is to be read.
    pub fn input(&self) -> Input<'a>
        ensures { seen_input result ≡ input_of self.now.form self.now.pattern.now self.now.flags self.now.options }
    {
        Input {
            form: self.form,
            pattern_text: self.pattern,
            flags_text: self.flags,
            options: self.options,
        }
    }
}
