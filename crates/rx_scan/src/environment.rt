ghost use Rattle.std.specs.Prelude.{◌≡◌};
ghost use Rattle.rx_model.specs.Inputs.Environment.{is_unicode};
ghost use Rattle.rx_model.specs.Reading.Boundaries.{has_buffers};
ghost use Rattle.rx_scan.specs.Environments.{seen_environment, state_environment};

use crate::State;
use rx_model::Mode;

/// What the reading of a token depends on besides the text.
// Why: docs/DECISIONS.md, 101.
#[derive(Clone, Copy)]
pub struct Environment {
    pub mode: Mode,
    /// Whether the buffer boundaries are read with `u` or `v`.
    pub buffer_boundaries: bool,
    /// The number of the pattern's groups.
    pub groups: u32,
    /// Whether some group has a name.
    pub has_names: bool,
}

impl Environment {
    /// The environment of a pattern that is read under this state.
    pub fn of(state: &State, buffer_boundaries: bool) -> Environment
        ensures { seen_environment result ≡ state_environment state.now buffer_boundaries }
    {
        Environment {
            mode: state.mode(),
            buffer_boundaries,
            groups: state.num_of_capturing_groups,
            has_names: !state.capturing_group_names.is_empty(),
        }
    }

    /// Whether the pattern is read in a unicode mode (the parameter UnicodeMode of ECMA-262, 22.2.1).
    pub fn is_unicode(&self) -> bool
        ensures { result ≡ is_unicode (seen_environment self.now).mode }
    {
        self.mode.is_unicode()
    }

    /// Whether `\k` is always a reference (the parameter NamedCaptureGroups of ECMA-262, 22.2.1).
    pub fn is_named(&self) -> bool
        ensures { result ≡ (seen_environment self.now).named }
    {
        self.mode.is_unicode() || self.has_names
    }

    /// Whether `\A`, `\z` and `\Z` are boundaries (regular expression buffer boundaries).
    pub fn has_buffers(&self) -> bool
        ensures { result ≡ has_buffers (seen_environment self.now) }
    {
        self.mode.is_unicode() && self.buffer_boundaries
    }
}
