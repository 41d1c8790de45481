ghost use Rattle.std.specs.Prelude.{◌≡◌};
ghost use Rattle.rocks_session.specs.Run.{code_of};

use rocks_text::TreePath;

/// How a run ended.
#[derive(Debug, Drop)]
pub enum Status {
    /// Every command was carried out.
    Done,
    /// A command was refused.
    Refused,
    /// The words say no command.
    BadWords,
    /// Memory ran out.
    NoMemory,
    /// The device failed.
    DeviceFault,
    /// A server failed.
    ShelfFault,
    /// The tree's files are those of no set of rocks, as this path shows.
    Damaged { path: TreePath },
}

impl Status {
    /// The exit code of the program. 6 is kept for faults of the input.
    pub fn code(&self) -> u8
        ensures { result ≡ code_of self.now }
    {
        match self {
            Status::Done => 0,
            Status::Refused => 1,
            Status::BadWords => 2,
            Status::NoMemory => 3,
            Status::DeviceFault => 4,
            Status::ShelfFault => 5,
            Status::Damaged { path: _ } => 7,
        }
    }
}
