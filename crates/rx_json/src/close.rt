ghost use Rattle.std.specs.Prelude.{[], ◌∷◌, OnOk};
ghost use Rattle.json.specs.Token.{end_object};
ghost use Rattle.rx_json.specs.Adding.{Adds};
ghost use Rattle.rx_json.specs.Openings.{closing};

use json::Writer;
use rx_base::OutOfMemory;

/// What is still to be written after the nodes in a node.
#[derive(Clone, Copy)]
pub enum Close {
    /// The node has no object of its own.
    Nothing,

    /// `}`
    Object,

    /// `]}`
    List,
}

impl Close {
    pub fn write(self, writer: &mut Writer) -> Result<(), OutOfMemory>
        ensures { OnOk result (Adds writer.old writer.new (closing self)) }
    {
        match self {
            Close::Nothing => Ok(()),
            Close::Object => end_object(writer),
            Close::List => {
                writer.end_array()?;
                end_object(writer)
            }
        }
    }
}

pub fn end_object(writer: &mut Writer) -> Result<(), OutOfMemory>
    ensures { OnOk result (Adds writer.old writer.new (end_object ∷ [])) }
{
    writer.end_object()?;
    Ok(())
}
