//! Tests of the library: what a text function leaves of a table, as one text.

use mrp_api::{TextFault, status, write_fault};
use std::alloc::{AllocError, Global};

/// What a text function left: the bytes that the writer has, or the line of the fault and its status
/// with a leading `!` where bytes were written before it, and a `?` behind it where it wasn't written whole.
pub(super) fn outcome(
    alloc: Global,
    written: &[u8],
    answer: &Result<(), TextFault>,
) -> Result<String, AllocError> {
    match answer {
        Ok(()) => text_of(alloc, written),
        Err(fault) => line_of(alloc, written, fault),
    }
}

/// The status of a fault and its line.
fn line_of(alloc: Global, written: &[u8], fault: &TextFault) -> Result<String, AllocError> {
    let mut line = Vec::new(alloc);
    if !written.is_empty() {
        line.push(b'!')?;
    }
    line.push(b'0' + status(fault).min(9))?;
    line.push(b' ')?;
    if write_fault(fault, &mut line).is_err() {
        line.push(b'?')?;
    }
    text_of(alloc, line.as_slice())
}

/// The bytes as text; every report is text.
fn text_of(alloc: Global, bytes: &[u8]) -> Result<String, AllocError> {
    String::from_str(alloc, std::str::from_utf8(bytes).unwrap_or("no text"))
}
