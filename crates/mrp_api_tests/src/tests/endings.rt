//! Tests of the library: how a program ends, with the line that is reported, that it was written whole, and the status.

use mrp_api::{Ending, ReportFault, TextFault, after_help, ended, unread};
use mrp_validation::{TableFault, TableFaultKind};
use std::alloc::Global;
use std::io;
use std::io::ErrorKind;

/// Whether the program ends with that status, after a line that was written whole.
fn is_end(end: Ending, status: u8, written: &[u8], line: &str) -> bool {
    end.status == status && end.reported.is_ok() && written == line.as_bytes()
}

/// Whether a fault of the work is reported so.
fn ends(alloc: Global, fault: TextFault, status: u8, line: &str) -> bool {
    let mut written = Vec::new(alloc);
    let end = ended(&Err(fault), &mut written);
    is_end(end, status, written.as_slice(), line)
}

#[test]
fn faults_are_reported(rt: HostRuntime) {
    let alloc = rt.alloc();
    let is_told = ends(alloc, TextFault::NoPair, 1, "mrp: no pair\n")
        && ends(alloc, TextFault::NoPeriod, 1, "mrp: no period\n")
        && ends(alloc, TextFault::ThreadRefused, 3, "mrp: ThreadRefused\n")
        && ends(alloc, TextFault::Stopped, 3, "mrp: Stopped\n")
        && ends(alloc, TextFault::WriteFault, 3, "mrp: WriteFault\n")
        && ends(alloc, TextFault::Memory, 3, "mrp: Memory\n");
    assert!(rt; is_told);
}

/// Whether a fault of the table's third row is reported so.
fn ends_at_row(alloc: Global, kind: TableFaultKind, status: u8, line: &str) -> bool {
    ends(
        alloc,
        TextFault::Table(TableFault { row: 3, kind }),
        status,
        line,
    )
}

/// Faults of a row, each with its status and its line.
const ROW_FAULTS: &[(TableFaultKind, u8, &str)] = &[
    (TableFaultKind::ReadFault, 3, "mrp: row 3: ReadFault\n"),
    (TableFaultKind::NotUtf8, 1, "mrp: row 3: NotUtf8\n"),
    (TableFaultKind::UnknownKind, 1, "mrp: row 3: UnknownKind\n"),
    (TableFaultKind::BadName, 1, "mrp: row 3: BadName\n"),
    (TableFaultKind::BadRule, 1, "mrp: row 3: BadRule\n"),
    (TableFaultKind::NotMade, 1, "mrp: row 3: NotMade\n"),
    (TableFaultKind::NotSourced, 1, "mrp: row 3: NotSourced\n"),
    (TableFaultKind::TooMany, 1, "mrp: row 3: TooMany\n"),
    (TableFaultKind::ResetOrder, 1, "mrp: row 3: ResetOrder\n"),
    (TableFaultKind::Cut, 1, "mrp: row 3: Cut\n"),
    (TableFaultKind::Memory, 3, "mrp: Memory\n"),
];

#[test]
fn faults_of_rows_are_reported(rt: HostRuntime) {
    for (kind, status, line) in ROW_FAULTS {
        assert!(rt; ends_at_row(rt.alloc(), *kind, *status, line));
    }
}

/// Whether the end after help is so.
fn ends_after_help(
    alloc: Global,
    printed: Result<(), ReportFault>,
    status: u8,
    line: &str,
) -> bool {
    let mut written = Vec::new(alloc);
    let end = after_help(printed, &mut written);
    is_end(end, status, written.as_slice(), line)
}

/// Whether the end where the words can't be read is so.
fn ends_unread(alloc: Global, kind: ErrorKind, status: u8, line: &str) -> bool {
    let mut written = Vec::new(alloc);
    let end = unread(&io::Error::from(kind), &mut written);
    is_end(end, status, written.as_slice(), line)
}

#[test]
fn what_came_of_the_words_is_reported(rt: HostRuntime) {
    let alloc = rt.alloc();
    let failed = Err(ReportFault::WriteFault);
    let is_told = ends_after_help(alloc, Ok(()), 0, "")
        && ends_after_help(alloc, failed, 3, "mrp: WriteFault\n");
    assert!(rt; is_told);
}

#[test]
fn words_that_can_not_be_read_are_reported(rt: HostRuntime) {
    let no_text = "mrp: a word of the command is not UTF-8\n";
    let is_told = ends_unread(rt.alloc(), ErrorKind::InvalidData, 2, no_text)
        && ends_unread(rt.alloc(), ErrorKind::OutOfMemory, 3, "mrp: Memory\n");
    assert!(rt; is_told);
}

/// Whether the end after work that went well is so: nothing is reported.
fn ends_well(alloc: Global) -> bool {
    let mut written = Vec::new(alloc);
    let end = ended(&Ok(()), &mut written);
    end.printed.is_ok() && is_end(end, 0, written.as_slice(), "")
}

#[test]
fn work_that_went_well_is_not_reported(rt: HostRuntime) {
    assert!(rt; ends_well(rt.alloc()));
}
