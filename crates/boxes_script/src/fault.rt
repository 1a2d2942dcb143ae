//! Why a run ends early.
ghost use Rattle.std.specs.Prelude.{◌<◌};

use thiserror::Error;

/// Why a run ends before the end of its input. Its text is what standard error gets.
#[derive(Clone, Copy, Debug, PartialEq, Eq, Error)]
pub enum ScriptFault {
    /// There are arguments, and the program doesn't know them.
    #[error("boxes: usage: boxes or boxes fuzz SEED COUNT")]
    Usage,
    /// A script has a line past the limit.
    #[error("boxes: too many lines")]
    TooManyLines,
    /// A read failed.
    #[error("boxes: input failed")]
    Input,
    /// A write failed.
    #[error("boxes: output failed")]
    Output,
    /// A buffer, a line, its value or the table of lines couldn't be allocated.
    #[error("boxes: out of memory")]
    Memory,
}

impl ScriptFault {
    /// The exit status of a run that ends with this fault.
    pub fn status(self) -> u8
        ensures { 0 < result }
    {
        match self {
            ScriptFault::Input | ScriptFault::Output => 1,
            ScriptFault::Usage | ScriptFault::TooManyLines => 2,
            ScriptFault::Memory => 3,
        }
    }
}
