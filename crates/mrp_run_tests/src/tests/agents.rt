//! Tests of runs: agents alone, over tables that were worked by hand.

mod deeds;
mod handing;
mod hands;
mod refusals;
