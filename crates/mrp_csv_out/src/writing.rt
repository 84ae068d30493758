//! CSV output: how a report's rows go out, as bytes sent to a writer whole.

ghost use Rattle.std.specs.Prelude.{◌≡◌, OnOk, OnErr, IfErr};
ghost use Rattle.std.specs.Io.KnownBytes.{Appends};
ghost use Rattle.mrp_csv_out.specs.Sending.{AppendsPrefix};

use crate::ReportFault;
use std::io::Write;

/// Sends the bytes by as many writes as it takes.
///
/// # Errors
///
/// [`ReportFault::WriteFault`] where a write fails or takes nothing; a prefix of the bytes is written.
pub fn send<W: Write>(bytes: &[u8], out: &mut W) -> Result<(), ReportFault>
    ensures whole { OnOk result (Appends (W.contents out.old) (W.contents out.new) bytes.now) }
    ensures prefix { OnErr result (AppendsPrefix (W.contents out.old) (W.contents out.new) bytes.now) }
    ensures fault { IfErr result (λ fault. fault ≡ ReportFault.WriteFault) }
{
    let mut sent = 0;
    'writes: while sent < bytes.len() {
        match out.write(&bytes[sent..]) {
            Ok(taken) if taken > 0 => sent += taken,
            _ => return Err(ReportFault::WriteFault),
        }
    }
    Ok(())
}
