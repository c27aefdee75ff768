// What the programs take from the machine and give to it: arguments, files, and what is printed.
#![tactic(auto)]

ghost use Rattle.std.specs.Prelude.{◌≡◌};
ghost use Rattle.host.specs.declared.Failure.TheVariants.{Refused, Unreadable};

use layout::Refusal;

pub mod arguments;
pub mod making;
pub mod opening;
pub mod reading;
pub mod saying;

// Longer than any argument that Linux hands a program, so that a number may have as many digits as
// it likes.
pub const ARGUMENT_ROOM: usize = 131072;

// Longer than any name of a file that Linux takes.
pub const NAME_ROOM: usize = 4096;

// The word of a program's last line where it has an answer.
#[derive(Clone, Copy)]
pub enum Word {
    Sound,
    Formatted,
    Planned,
    Accepted,
    Carried,
    Reported,
    Sounds,
    Silent,
    Sized,
    Converted,
}

// Why a program's work has no answer: it ended with a refusal, or with a file or an argument that
// cannot be used, of which standard error has been told why.
#[derive(Clone, Copy)]
pub enum Failure {
    Refused(Refusal),
    Unreadable,
}

// What could not be done. Standard error has been told why: `complain` and `fail` of `saying` answer
// this.
#[derive(Clone, Copy)]
pub struct Told;

// Why a file was not read to its end: there was no room for all of it, and what was read fills the
// room, or it could not be read.
#[derive(Clone, Copy)]
pub enum ReadError {
    Long,
    Unreadable,
}

impl From<Refusal> for Failure {
    ghost from_gives = { λ r e. e ≡ Refused r };

    fn from(r: Refusal) -> Failure {
        Failure::Refused(r)
    }
}

impl From<Told> for Failure {
    ghost from_gives = { λ _ e. e ≡ Unreadable };

    fn from(_: Told) -> Failure {
        Failure::Unreadable
    }
}

impl From<Told> for ReadError {
    fn from(_: Told) -> ReadError {
        ReadError::Unreadable
    }
}

// A file longer than any image is refused for its length, as an image is whose trailer does not
// agree with its length.
impl From<ReadError> for Failure {
    fn from(e: ReadError) -> Failure {
        match e {
            ReadError::Long => Failure::Refused(Refusal::Geometry),
            ReadError::Unreadable => Failure::Unreadable,
        }
    }
}
