//! How a call of `spy` ended.

ghost use Rattle.std.specs.Prelude.{◌≡◌};
ghost use Rattle.spy_cli.specs.Statuses.{number_of};

/// How a call ended. Its number is the status with which the program exits.
#[derive(Clone, Copy, PartialEq, Eq)]
pub enum Status {
    /// 0: what was asked holds of the log.
    Yes,
    /// 1: it does not hold, and the report shows why.
    Refused,
    /// 2: the input is no log that is judged.
    Fault,
    /// 3: the words name no command.
    Usage,
    /// 4: the source failed.
    ReadFault,
    /// 5: the sink failed.
    WriteFault,
    /// 6: memory ran out.
    Memory,
}

impl Status {
    /// The status with which the program exits.
    pub fn number(&self) -> u8
        ensures { result ≡ number_of self.now }
    {
        match self {
            Status::Yes => 0,
            Status::Refused => 1,
            Status::Fault => 2,
            Status::Usage => 3,
            Status::ReadFault => 4,
            Status::WriteFault => 5,
            Status::Memory => 6,
        }
    }
}
