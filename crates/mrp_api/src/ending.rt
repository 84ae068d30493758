//! The library: how a program that calls it ends, the status of the process, and the line that it reports.

ghost use Rattle.std.specs.Prelude.{◌≡◌, Ok};
ghost use Rattle.std.specs.Result.{result_err};
ghost use Rattle.std.specs.IoError.{error_kind};
ghost use Rattle.mrp_api.specs.Answer.{exit_status_of};
ghost use Rattle.mrp_api.specs.Ending.{IsStatusOfUnread, Reports, TellsLine, help_fault, help_status};
ghost use Rattle.mrp_api.specs.Ending.{beyond_line, unread_line};

use crate::answers::exit_status;
use crate::fault::TextFault;
use crate::lines::write_fault;
use mrp_report::{ReportFault, send};
use std::io;
use std::io::Write;

/// The status where the words are refused.
pub const REFUSED: u8 = 2;

/// How the program ends.
#[derive(Clone, Copy)]
pub struct Ending {
    /// The status of the process, 0 to 3.
    pub status: u8,
    /// Whether help, the version, or why the words are refused, was printed.
    pub printed: Result<(), ReportFault>,
    /// Whether the line that reports a fault was written whole.
    pub reported: Result<(), ReportFault>,
}

/// The end after the work, with the line that reports a fault to this writer.
pub fn ended<W: Write>(done: &Result<(), TextFault>, writer: &mut W) -> Ending
    ensures status { result.status ≡ exit_status_of done.now }
    ensures printed { result.printed ≡ Ok tt }
    ensures line { Reports W.contents writer.old writer.new result.reported (result_err done.now) }
{
    let reported = match done {
        Ok(()) => Ok(()),
        Err(fault) => write_fault(fault, writer),
    };
    Ending {
        status: exit_status(done),
        printed: Ok(()),
        reported,
    }
}

/// The end after help or the version: the status is 0 where it was printed, and else 3, with the line of
/// a failed write to this writer.
pub fn after_help<W: Write>(printed: Result<(), ReportFault>, writer: &mut W) -> Ending
    ensures status { result.status ≡ help_status printed }
    ensures same { result.printed ≡ printed }
    ensures line { Reports W.contents writer.old writer.new result.reported (help_fault printed) }
{
    let done = match printed {
        Ok(()) => Ok(()),
        Err(_) => Err(TextFault::WriteFault),
    };
    Ending {
        printed,
        ..ended(&done, writer)
    }
}

/// The end where the arguments can't be read: one that is no text is a word that is refused.
pub fn unread<W: Write>(error: &io::Error, writer: &mut W) -> Ending
    ensures status { IsStatusOfUnread (error_kind error.now) result.status }
    ensures printed { result.printed ≡ Ok tt }
    ensures line { TellsLine (W.contents writer.old) (W.contents writer.new) result.reported
        (unread_line (error_kind error.now)) }
{
    if error.kind() == io::ErrorKind::InvalidData {
        refused(b"mrp: a word of the command is not UTF-8\n", writer)
    } else {
        ended(&Err(TextFault::Memory), writer)
    }
}

/// The end where a period above 103 is asked about without `--large`, as no table within the usual limits has one.
pub fn beyond_limits<W: Write>(writer: &mut W) -> Ending
    ensures status { result.status ≡ 2 }
    ensures printed { result.printed ≡ Ok tt }
    ensures line { TellsLine (W.contents writer.old) (W.contents writer.new) result.reported beyond_line }
{
    refused(b"mrp: a period above 103 wants --large\n", writer)
}

/// The end where words are refused, with the line that says why to this writer.
fn refused<W: Write>(line: &[u8], writer: &mut W) -> Ending
    ensures status { result.status ≡ 2 }
    ensures printed { result.printed ≡ Ok tt }
    ensures line { TellsLine (W.contents writer.old) (W.contents writer.new) result.reported line.now }
{
    Ending {
        status: REFUSED,
        printed: Ok(()),
        reported: send(line, writer),
    }
}
