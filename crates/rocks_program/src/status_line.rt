ghost use Rattle.rocks_program.specs.Lines.{IsLineOf};

use rocks_session::Status;
use thiserror::Error;

/// The line on standard error that goes with a status, where there is one.
#[derive(Debug, Drop, Error)]
pub(crate) enum StatusLine<'a> {
    #[error("rocks: bad words")]
    BadWords,
    #[error("rocks: no memory")]
    NoMemory,
    #[error("rocks: device fault")]
    DeviceFault,
    #[error("rocks: shelf fault")]
    ShelfFault,
    #[error("rocks: damaged {0}")]
    Damaged(&'a str),
}

impl<'a> StatusLine<'a> {
    /// The line of a status. A run that carried its commands out has none.
    pub(crate) fn of(status: &'a Status) -> Option<StatusLine<'a>>
        ensures { IsLineOf status.now result }
    {
        match status {
            Status::Done | Status::Refused => None,
            Status::BadWords => Some(StatusLine::BadWords),
            Status::NoMemory => Some(StatusLine::NoMemory),
            Status::DeviceFault => Some(StatusLine::DeviceFault),
            Status::ShelfFault => Some(StatusLine::ShelfFault),
            Status::Damaged { path } => Some(StatusLine::Damaged(path.as_str())),
        }
    }
}
