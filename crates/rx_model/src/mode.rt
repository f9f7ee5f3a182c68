ghost use Rattle.std.specs.Prelude.{◌≡◌};
ghost use Rattle.rx_model.specs.Inputs.Environment.{is_unicode};
ghost use Rattle.rx_model.specs.Inputs.Modes.{mode_by};

/// How a pattern is read: without flag `u` or `v`, with `u`, with `v` (ECMA-262, 22.2.3.4 and Annex B.1.2).
// Why: docs/DECISIONS.md, 1.
#[derive(Clone, Copy, Debug, PartialEq, Eq)]
pub enum Mode {
    Legacy,
    Unicode,
    Sets,
}

impl Mode {
    /// The mode by whether it is a unicode mode, and whether it is sets mode.
    pub fn of(unicode_mode: bool, unicode_sets_mode: bool) -> Mode
        ensures { result ≡ mode_by unicode_mode unicode_sets_mode }
    {
        if unicode_sets_mode {
            Mode::Sets
        } else if unicode_mode {
            Mode::Unicode
        } else {
            Mode::Legacy
        }
    }

    /// Whether it is a unicode mode: with `u` or `v` (UnicodeMode of ECMA-262, 22.2.1).
    pub fn is_unicode(self) -> bool
        ensures { result ≡ is_unicode self }
    {
        match self {
            Mode::Legacy => false,
            Mode::Unicode | Mode::Sets => true,
        }
    }
}
