//! Tests of the library: texts where memory is refused. What is written is the right text, or a prefix of it.

use super::reports::{
    EARLY, EARLY_ADVICE, EARLY_ADVICE_WITHIN, LACKING, LACKING_SHORTAGES, MOTORS, MOTORS_SCHEDULE,
    TWO_PLANTS_CUMS, TWO_PLANTS_ORDERS, TWO_PLANTS_PEGS, TWO_PLANTS_PLAN, TWO_PLANTS_REACH,
    TWO_PLANTS_SCHEDULE,
};
use mrp_api::{
    TextFault, advice_text, cums_text, drive_text, orders_text, pegs_text, reach_text,
    schedule_text, shortages_text,
};
use mrp_commands::Heading;
use mrp_run_tests::TWO_PLANTS;
use mrp_validation::TableFaultKind;
use std::alloc::Global;
use std::test::Fail;

/// More bytes than either text has, so that its writer grows no more.
const ROOM: usize = 512;

/// Whether the text is written, or memory was refused after a prefix of it.
fn is_written_or_refused(answer: &Result<(), TextFault>, written: &[u8], text: &str) -> bool {
    match answer {
        Ok(()) => written == text.as_bytes(),
        Err(TextFault::Memory) => text.as_bytes().starts_with(written),
        Err(TextFault::Table(fault)) => {
            matches!(&fault.kind, TableFaultKind::Memory) && written.is_empty()
        }
        Err(_) => false,
    }
}

/// Whether the plan is written, or memory was refused.
fn plans_or_is_refused(alloc: Global) -> Result<bool, Fail> {
    let mut plan = Vec::with_capacity(alloc, ROOM)?;
    let answer = drive_text(alloc, TWO_PLANTS.as_bytes(), &mut plan, 2);
    Ok(is_written_or_refused(&answer, plan.as_slice(), TWO_PLANTS_PLAN))
}

/// Whether the figures are written, or memory was refused.
fn figures_or_is_refused(alloc: Global) -> Result<bool, Fail> {
    let mut figures = Vec::with_capacity(alloc, ROOM)?;
    let answer = cums_text(alloc, TWO_PLANTS.as_bytes(), &mut figures);
    Ok(is_written_or_refused(&answer, figures.as_slice(), TWO_PLANTS_CUMS))
}

/// Whether the orders are written, or memory was refused.
fn orders_or_is_refused(alloc: Global) -> Result<bool, Fail> {
    let mut orders = Vec::with_capacity(alloc, ROOM)?;
    let answer = orders_text(
        alloc,
        TWO_PLANTS.as_bytes(),
        &mut orders,
        Some(1),
        Heading::Names,
    );
    Ok(is_written_or_refused(&answer, orders.as_slice(), TWO_PLANTS_ORDERS))
}

/// Whether the schedules are written, or memory was refused.
fn schedules_or_is_refused(alloc: Global) -> Result<bool, Fail> {
    let mut schedules = Vec::with_capacity(alloc, ROOM)?;
    let answer = schedule_text(
        alloc,
        TWO_PLANTS.as_bytes(),
        &mut schedules,
        Some("B"),
        None,
        Heading::Names,
    );
    Ok(is_written_or_refused(&answer, schedules.as_slice(), TWO_PLANTS_SCHEDULE))
}

/// Whether a vendor's schedule is written, or memory was refused.
fn vendors_or_is_refused(alloc: Global) -> Result<bool, Fail> {
    let mut schedules = Vec::with_capacity(alloc, ROOM)?;
    let answer = schedule_text(
        alloc,
        MOTORS.as_bytes(),
        &mut schedules,
        Some("V-MOTORS"),
        Some("WORKS"),
        Heading::Names,
    );
    Ok(is_written_or_refused(&answer, schedules.as_slice(), MOTORS_SCHEDULE))
}

/// Whether the pegs are written, or memory was refused.
fn pegs_or_is_refused(alloc: Global) -> Result<bool, Fail> {
    let mut pegs = Vec::with_capacity(alloc, ROOM)?;
    let answer = pegs_text(alloc, TWO_PLANTS.as_bytes(), &mut pegs, Heading::Names);
    Ok(is_written_or_refused(&answer, pegs.as_slice(), TWO_PLANTS_PEGS))
}

/// Whether the advice is written, or memory was refused.
fn advice_or_is_refused(alloc: Global) -> Result<bool, Fail> {
    let mut advice = Vec::with_capacity(alloc, ROOM)?;
    let answer = advice_text(
        alloc,
        EARLY.as_bytes(),
        &mut advice,
        None,
        false,
        Heading::Names,
    );
    Ok(is_written_or_refused(&answer, advice.as_slice(), EARLY_ADVICE))
}

/// Whether the advice within reach is written, or memory was refused.
fn advice_within_or_is_refused(alloc: Global) -> Result<bool, Fail> {
    let mut advice = Vec::with_capacity(alloc, ROOM)?;
    let answer = advice_text(
        alloc,
        EARLY.as_bytes(),
        &mut advice,
        None,
        true,
        Heading::Names,
    );
    Ok(is_written_or_refused(&answer, advice.as_slice(), EARLY_ADVICE_WITHIN))
}

/// Whether the reach is written, or memory was refused.
fn reach_or_is_refused(alloc: Global) -> Result<bool, Fail> {
    let mut reach = Vec::with_capacity(alloc, ROOM)?;
    let answer = reach_text(alloc, TWO_PLANTS.as_bytes(), &mut reach, Heading::Names);
    Ok(is_written_or_refused(&answer, reach.as_slice(), TWO_PLANTS_REACH))
}

/// Whether the shortages are written, or memory was refused.
fn shortages_or_is_refused(alloc: Global) -> Result<bool, Fail> {
    let mut shortages = Vec::with_capacity(alloc, ROOM)?;
    let answer = shortages_text(alloc, LACKING.as_bytes(), &mut shortages, Heading::Names);
    Ok(is_written_or_refused(&answer, shortages.as_slice(), LACKING_SHORTAGES))
}

/// With an allocation refused its assertion holds, or the room of the writer is refused.
#[test]
fn schedules_where_memory_is_refused(rt: HostRuntime) -> Result<(), Fail> {
    assert!(rt; schedules_or_is_refused(rt.alloc())?);
    Ok(())
}

/// With an allocation refused its assertion holds, or the room of the writer is refused.
#[test]
fn a_vendor_where_memory_is_refused(rt: HostRuntime) -> Result<(), Fail> {
    assert!(rt; vendors_or_is_refused(rt.alloc())?);
    Ok(())
}

/// With an allocation refused its assertion holds, or the room of the writer is refused.
#[test]
fn pegs_where_memory_is_refused(rt: HostRuntime) -> Result<(), Fail> {
    assert!(rt; pegs_or_is_refused(rt.alloc())?);
    Ok(())
}

/// With an allocation refused its assertion holds, or the room of the writer is refused.
#[test]
fn advice_where_memory_is_refused(rt: HostRuntime) -> Result<(), Fail> {
    assert!(rt; advice_or_is_refused(rt.alloc())?);
    Ok(())
}

/// With an allocation refused its assertion holds, or the room of the writer is refused.
#[test]
fn advice_within_reach_where_memory_is_refused(rt: HostRuntime) -> Result<(), Fail> {
    assert!(rt; advice_within_or_is_refused(rt.alloc())?);
    Ok(())
}

/// With an allocation refused its assertion holds, or the room of the writer is refused.
#[test]
fn a_reach_where_memory_is_refused(rt: HostRuntime) -> Result<(), Fail> {
    assert!(rt; reach_or_is_refused(rt.alloc())?);
    Ok(())
}

/// With an allocation refused its assertion holds, or the room of the writer is refused.
#[test]
fn shortages_where_memory_is_refused(rt: HostRuntime) -> Result<(), Fail> {
    assert!(rt; shortages_or_is_refused(rt.alloc())?);
    Ok(())
}

/// With an allocation refused its assertion holds, or the room of the writer is refused.
#[test]
fn orders_where_memory_is_refused(rt: HostRuntime) -> Result<(), Fail> {
    assert!(rt; orders_or_is_refused(rt.alloc())?);
    Ok(())
}

/// With an allocation refused its assertion holds, or the room of the writer is refused.
#[test]
fn a_plan_where_memory_is_refused(rt: HostRuntime) -> Result<(), Fail> {
    assert!(rt; plans_or_is_refused(rt.alloc())?);
    Ok(())
}

/// With an allocation refused its assertion holds, or the room of the writer is refused.
#[test]
fn figures_where_memory_is_refused(rt: HostRuntime) -> Result<(), Fail> {
    assert!(rt; figures_or_is_refused(rt.alloc())?);
    Ok(())
}
