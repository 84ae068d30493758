//! CSV output: the dates of a plan's periods as texts.

ghost use Rattle.std.specs.Prelude.{◌≡◌, ◌<◌, IfOk, IfErr, length};
ghost use Rattle.mrp_csv_out.specs.Dates.{dates_of};
ghost use Rattle.mrp_csv_out.specs.DateLists.{date_in};

use crate::ReportFault;
use mrp_cal::Calendar;
use std::alloc::Global;

/// The text of each period's date, yyyy-mm-dd, in rising period.
///
/// # Errors
///
/// [`ReportFault::Memory`] where the room for them is refused.
pub fn date_texts(alloc: Global, calendar: &Calendar) -> Result<Vec<[u8; 10]>, ReportFault>
    ensures dates { IfOk result (λ dates. dates.items ≡ dates_of calendar.now) }
    ensures fault { IfErr result (λ fault. fault ≡ ReportFault.Memory) }
{
    let periods = calendar.horizon().get() as usize;
    let mut dates = Vec::with_capacity(alloc, periods)?;
    'periods: for t in 0..periods {
        dates.push(calendar.text(t))?;
    }
    Ok(dates)
}

/// The text of the date of period `t`.
pub fn date_of<'a>(dates: &'a [[u8; 10]], t: usize) -> &'a [u8]
    requires { t < length dates.now }
    ensures { result.now ≡ date_in dates.now t }
{
    &dates[t]
}
