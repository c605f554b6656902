//! What standard error says of how a run ends.

ghost use Rattle.std.specs.Prelude.{◌≡◌};
ghost use Rattle.xive_cli.specs.Complaints.{complaint_of, unreadable_words};

use std::io::ErrorKind;
use xv_base::Status;

/// How a run ends whose words can't be read. A word that isn't UTF-8 is none of any command.
pub fn unread_words(kind: ErrorKind) -> Status
    ensures { result ≡ unreadable_words kind }
{
    match kind {
        ErrorKind::InvalidData => Status::Usage,
        _ => Status::NoMemory,
    }
}

/// What a user reads where a run ends so, without the newline behind it. It is empty where there is nothing
/// to say.
pub fn complaint(status: Status) -> &'static str
    ensures { result.now ≡ complaint_of status }
{
    match status {
        Status::Done | Status::Illegal | Status::BadState => "",
        Status::Usage => {
            "usage: xive_cli run < SCRIPT\nexamples are in boards/, the format is in docs/FORMATS.md"
        }
        Status::Refused => {
            "xive_cli: a line of the script is refused; the last line of the output says which"
        }
        Status::ReadFault => "xive_cli: reading standard input failed",
        Status::WriteFault => "xive_cli: writing standard output failed",
        Status::NoMemory => "xive_cli: not enough memory for the board",
        Status::TooLong => "xive_cli: the script has 16,777,216 bytes of lines or more",
    }
}
