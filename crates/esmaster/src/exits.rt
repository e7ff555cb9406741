ghost use Rattle.std.specs.Prelude.{◌≡◌};
ghost use Rattle.esmaster.specs.Exits.{status_of};

/// How a command ended.
#[derive(Clone, Copy, Debug, PartialEq, Eq)]
pub enum Exit {
    /// What the command reads was read to its end, and the whole text was written.
    Done,

    /// The words are no command. Nothing was read or written.
    Usage,

    /// The script was refused, and the line that says why was written.
    ScriptRefused,

    /// The input failed. Nothing was written.
    ReadFault,

    /// The output failed. A part of the text was written.
    WriteFault,

    /// Memory was wanting. Nothing was written.
    OutOfMemory,

    /// The script has more than 16,777,216 bytes. One more than these were read, and nothing was written.
    TooLong,
}

impl Exit {
    /// The status of the process.
    pub fn status(&self) -> u8
        ensures { result ≡ status_of self.now }
    {
        match self {
            Exit::Done => 0,
            Exit::Usage => 1,
            Exit::ScriptRefused => 2,
            Exit::ReadFault => 3,
            Exit::WriteFault => 4,
            Exit::OutOfMemory => 5,
            Exit::TooLong => 6,
        }
    }
}
