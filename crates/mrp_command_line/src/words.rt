//! The command line, by `clap`: what its arguments choose.

ghost use Rattle.std.specs.Prelude.{◌≡◌, ◌≤◌, Some, true, [], codes, IfOk, IfErr};
ghost use Rattle.clap.specs.Words.{App, app_of, fault_of, found_of, new_app, rows_of, subcommand_rows_of, takes};
ghost use Rattle.clap.specs.Words.{with_rule};
ghost use Rattle.clap.specs.declared.builder.value_parser.ValueParser.TheVariants.{Unsigned};
ghost use Rattle.mrp_commands.specs.Range.{IsInRange, IsWithinLimits};
ghost use Rattle.mrp_command_line.specs.Choice.{HasLimits, IsChosenBy, IsCommand, IsHeadedBy, IsMeantBy, IsReadBy};
ghost use Rattle.mrp_command_line.specs.Choice.{IsAllowedBy, IsMemoryOrPeriod, IsRefusalOf, ReadsTable, flag_at};
ghost use Rattle.mrp_command_line.specs.Choice.{number_value, text_at, texts_of, word_text};
ghost use Rattle.mrp_command_line.specs.CommandLine.{IsRuled, IsWorded, advice_words, check_words, mrp, orders_words};
ghost use Rattle.mrp_command_line.specs.CommandLine.{peg_words, plan_words, program_words, schedule_words};
ghost use Rattle.mrp_command_line.specs.CommandLine.{with_command};
ghost use Rattle.mrp_command_line.specs.CommandLine as rule;
ghost use Rattle.mrp_commands.specs.declared.choice.TheConstants.{MOST_CAPACITY};
ghost use Rattle.mrp_command_line.specs.Values.{HasAdviceValues, HasCheckValues, HasFlag, HasNameValue, HasNumber};
ghost use Rattle.mrp_command_line.specs.Values.{HasOrderValues, HasPegValues, HasPlanValues, IsWholeCommand};
ghost use Rattle.mrp_command_line.specs.Values.{IsWholeReport, MayHaveNumber};

use crate::texts;
use clap::builder::ValueParser;
use clap::{Arg, ArgAction, ArgMatches, Command, value_parser};
use mrp_commands::{Choice, Heading, LAST_PERIOD, MOST_CAPACITY, MOST_WORKERS, Reading, Request};
use mrp_qty::LimitSet;
use std::alloc::{AllocError, Global};
use thiserror::Error;

/// Why no choice was made.
#[derive(Debug, Drop, Error)]
pub enum ChooseFault {
    /// The words are refused, or ask for help or the version: `clap` has the text and says which.
    #[error("{0}")]
    Words(clap::Error),
    /// A growth was refused.
    #[error("out of memory")]
    Memory,
    /// A period above 103 is asked about without `--large`.
    #[error("a period above 103 wants --large")]
    Period,
}

/// The release, and the logic (`rt version`) that its proofs are for, as `--version` prints them. It is a constant,
/// so it doesn't say that a build is proved.
const VERSION: &str = "0.1.0, Rattle logic dac8208d650f15bf";

/// Reads the words of a command line, of which the first is the program's name: the choice is the
/// subcommand that `clap` reads in them, with its values, the table has to be whole exactly where
/// the subcommand has `--whole`, and it is read within the limits of any table exactly where the subcommand has
/// `--large`, and else within the usual ones. A request is made only of words in which `clap` finds no fault, and
/// which ask about a period that a table within those limits may have, if they ask about one.
///
/// # Errors
///
/// [`ChooseFault::Words`] where `clap` refuses the words, was asked for help or the version, or ran out of
/// memory: the error has one of the kinds that the words have, or `OutOfMemory`. [`ChooseFault::Memory`] where a
/// growth was refused. [`ChooseFault::Period`] where `clap` finds no fault in the words, and the period that they ask
/// about is beyond the limits. Where `clap` takes the words, memory alone is missing, or the period is beyond the
/// limits.
pub fn request<'a>(alloc: Global, words: &'a [&'a str]) -> Result<Request<'a>, ChooseFault>
    ensures range { IfOk result (λ request. IsInRange request.choice) }
    ensures choice { IfOk result (λ request. IsChosenBy (texts_of words.now) request.choice) }
    ensures reading { IfOk result (λ request. IsReadBy (texts_of words.now) request.reading) }
    ensures limits { IfOk result IsWithinLimits }
    ensures free { IfOk result (λ _. fault_of mrp (texts_of words.now) ≡ []) }
    ensures taken { takes mrp (texts_of words.now) ≡ true → IfErr result IsMemoryOrPeriod }
    ensures refused { IfErr result (IsRefusalOf (texts_of words.now)) }
{
    let Ok(command) = program(alloc) else {
        return Err(ChooseFault::Memory);
    };
    match command.try_get_matches_from(words) {
        Ok(matches) => {
            let request = asked(&matches);
            if request.is_within_limits() {
                Ok(request)
            } else {
                Err(ChooseFault::Period)
            }
        }
        Err(error) => Err(ChooseFault::Words(error)),
    }
}

/// The choice of the request that [`request`] reads. It leaves out how the table is to be read: words
/// with `--whole` and without it are the same choice, and so are words with `--large` and without it.
///
/// # Errors
///
/// Those of [`request`].
pub fn choose<'a>(alloc: Global, words: &'a [&'a str]) -> Result<Choice<'a>, ChooseFault>
    ensures range { IfOk result IsInRange }
    ensures choice { IfOk result (IsChosenBy (texts_of words.now)) }
    ensures limits { IfOk result (IsAllowedBy (texts_of words.now)) }
    ensures free { IfOk result (λ _. fault_of mrp (texts_of words.now) ≡ []) }
    ensures taken { takes mrp (texts_of words.now) ≡ true → IfErr result IsMemoryOrPeriod }
    ensures refused { IfErr result (IsRefusalOf (texts_of words.now)) }
{
    match request(alloc, words) {
        Ok(request) => Ok(request.choice),
        Err(fault) => Err(fault),
    }
}

// What makes a `Command` says `let .. else` where a `?` would do: its check takes half the time.

/// The whole command line.
fn program<'a>(alloc: Global) -> Result<Command<'a>, AllocError>
    ensures { IfOk result (λ command. app_of command ≡ mrp) }
{
    let line = with(alloc, Ok(described(alloc)), plan_command(alloc));
    let line = with(alloc, line, check_command(alloc));
    let line = with(alloc, line, peg_command(alloc));
    let cums = headed_command(
        alloc,
        "cums",
        texts::CUMS,
        texts::CUMS_LONG,
        texts::CUMS_EXAMPLE,
    );
    let line = with(alloc, line, cums);
    let line = with(alloc, line, orders_command(alloc));
    let line = with(alloc, line, schedule_command(alloc));
    let pegs = headed_command(
        alloc,
        "pegs",
        texts::PEGS,
        texts::PEGS_LONG,
        texts::PEGS_EXAMPLE,
    );
    let line = with(alloc, line, pegs);
    let line = with(alloc, line, advice_command(alloc));
    let shortages = headed_command(
        alloc,
        "shortages",
        texts::SHORTAGES,
        texts::SHORTAGES_LONG,
        texts::SHORTAGES_EXAMPLE,
    );
    with(alloc, line, shortages)
}

/// The command line with one command more, which has `--whole` and `--large` too, where both were made.
fn with<'a>(
    alloc: Global,
    line: Result<Command<'a>, AllocError>,
    command: Result<Command<'a>, AllocError>,
) -> Result<Command<'a>, AllocError>
    ensures { (app sub : App) → IfOk line.entry (λ old. app_of old ≡ app) → IfOk command.entry (IsWorded sub)
        → IfOk result (λ new. app_of new ≡ with_command app sub) }
{
    let Ok(old) = line else {
        drop(command);
        return Err(AllocError);
    };
    let Ok(more) = readable(alloc, command) else {
        drop(old);
        return Err(AllocError);
    };
    old.subcommand(more)
}

/// The command with `--whole` and `--large`, where it was made.
fn readable<'a>(
    alloc: Global,
    command: Result<Command<'a>, AllocError>,
) -> Result<Command<'a>, AllocError>
    ensures { (app : App) → IfOk command.entry (IsWorded app)
        → IfOk result (IsWorded (with_rule (with_rule app rule.whole) rule.large)) }
{
    let Ok(bare) = command else {
        return Err(AllocError);
    };
    let Ok(with_whole) = bare.arg(whole_flag(alloc)) else {
        return Err(AllocError);
    };
    with_whole.arg(large_flag(alloc))
}

/// `--whole`.
fn whole_flag<'a>(alloc: Global) -> Arg<'a>
    ensures { IsRuled rule.whole result }
{
    Arg::new(alloc, "whole")
        .long("whole")
        .action(ArgAction::SetTrue)
        .help("Refuse a table without an end row: one that was cut off")
}

/// `--large`.
fn large_flag<'a>(alloc: Global) -> Arg<'a>
    ensures { IsRuled rule.large result }
{
    Arg::new(alloc, "large")
        .long("large")
        .action(ArgAction::SetTrue)
        .help("Take a table beyond the usual limits: up to 1,000,000 pairs and 520 periods")
}

/// What the command line says of itself, without a command.
fn described<'a>(alloc: Global) -> Command<'a>
    ensures { app_of result ≡ program_words (codes "mrp") }
{
    Command::new(alloc, "mrp")
        .version(VERSION)
        .about(texts::ABOUT)
        .after_help(texts::AFTER)
        .subcommand_required(true)
}

/// The command that is called `name`, with what help says of it, and without an argument.
fn explained<'a>(
    alloc: Global,
    name: &'a str,
    about: &'a str,
    long_about: &'a str,
    example: &'a str,
) -> Command<'a>
    ensures { IsWorded (new_app name.entry.now) result }
{
    Command::new(alloc, name)
        .about(about)
        .long_about(long_about)
        .after_help(example)
}

/// The command that is called `name`, with what help says of it, and with `--header` alone.
fn headed_command<'a>(
    alloc: Global,
    name: &'a str,
    about: &'a str,
    long_about: &'a str,
    example: &'a str,
) -> Result<Command<'a>, AllocError>
    ensures { IfOk result (IsWorded (with_rule (new_app name.entry.now) rule.header)) }
{
    let headed = explained(alloc, name, about, long_about, example);
    headed.arg(header_flag(alloc))
}

/// `--header`.
fn header_flag<'a>(alloc: Global) -> Arg<'a>
    ensures { IsRuled rule.header result }
{
    Arg::new(alloc, "header")
        .long("header")
        .action(ArgAction::SetTrue)
        .help("Write the names of the columns above the rows")
}

/// `check`.
fn check_command<'a>(alloc: Global) -> Result<Command<'a>, AllocError>
    ensures { IfOk result (IsWorded check_words) }
{
    let check = explained(
        alloc,
        "check",
        texts::CHECK,
        texts::CHECK_LONG,
        texts::CHECK_EXAMPLE,
    );
    let Ok(with_reach) = check.arg(reach_flag(alloc, texts::CHECK_REACH)) else {
        return Err(AllocError);
    };
    with_reach.arg(header_flag(alloc))
}

/// `--reach`, which has this help.
fn reach_flag<'a>(alloc: Global, help: &'a str) -> Arg<'a>
    ensures { IsRuled rule.reach result }
{
    Arg::new(alloc, "reach")
        .long("reach")
        .action(ArgAction::SetTrue)
        .help(help)
}

/// `plan`.
fn plan_command<'a>(alloc: Global) -> Result<Command<'a>, AllocError>
    ensures { IfOk result (IsWorded plan_words) }
{
    let plan = explained(
        alloc,
        "plan",
        texts::PLAN,
        texts::PLAN_LONG,
        texts::PLAN_EXAMPLE,
    );
    let Ok(with_workers) = plan.arg(workers_option(alloc)) else {
        return Err(AllocError);
    };
    let Ok(with_both) = with_workers.arg(capacity_option(alloc)) else {
        return Err(AllocError);
    };
    with_both.arg(single_flag(alloc))
}

/// `--workers`.
fn workers_option<'a>(alloc: Global) -> Arg<'a>
    ensures { IsRuled rule.workers result }
{
    let help =
        "Workers of each plant, 1 to 64; more than one took longer on every table that was measured";
    number_option(alloc, "workers", "W", MOST_WORKERS, "1", help)
}

/// `--capacity`.
fn capacity_option<'a>(alloc: Global) -> Arg<'a>
    ensures { IsRuled rule.capacity result }
{
    let help = "Messages that wait between two plants at most, 1 to 65536";
    number_option(alloc, "capacity", "C", MOST_CAPACITY, "64", help)
}

/// The option that is called `name`, with a number from 1 to `most`, and with the number
/// `otherwise` where it is left out.
fn number_option<'a>(
    alloc: Global,
    name: &'a str,
    value_name: &'a str,
    most: u64,
    otherwise: &'a str,
    help: &'a str,
) -> Arg<'a>
    requires { (1 ≤ most) × (most ≤ MOST_CAPACITY) }
    ensures { IsRuled (rule.number_option name.entry.now 1 most otherwise.entry.now) result }
{
    Arg::new(alloc, name)
        .long(name)
        .value_name(value_name)
        .value_parser(numbers(1, most))
        .default_value(otherwise)
        .help(help)
}

/// The numbers from `least` to `most`.
fn numbers<'a>(least: u64, most: u64) -> ValueParser<'a>
    requires { (least ≤ most) × (most ≤ MOST_CAPACITY) }
    ensures { result ≡ Unsigned least most }
{
    value_parser!(u64).range(least as i64..most as i64 + 1)
}

/// `--single`.
fn single_flag<'a>(alloc: Global) -> Arg<'a>
    ensures { IsRuled rule.single result }
{
    Arg::new(alloc, "single")
        .long("single")
        .action(ArgAction::SetTrue)
        .help("Plan all plants on one thread")
}

/// `orders`.
fn orders_command<'a>(alloc: Global) -> Result<Command<'a>, AllocError>
    ensures { IfOk result (IsWorded orders_words) }
{
    let orders = explained(
        alloc,
        "orders",
        texts::ORDERS,
        texts::ORDERS_LONG,
        texts::ORDERS_EXAMPLE,
    );
    let Ok(with_until) = orders.arg(until_option(alloc, texts::ORDERS_UNTIL)) else {
        return Err(AllocError);
    };
    with_until.arg(header_flag(alloc))
}

/// `advice`.
fn advice_command<'a>(alloc: Global) -> Result<Command<'a>, AllocError>
    ensures { IfOk result (IsWorded advice_words) }
{
    let advice = explained(
        alloc,
        "advice",
        texts::ADVICE,
        texts::ADVICE_LONG,
        texts::ADVICE_EXAMPLE,
    );
    let Ok(with_until) = advice.arg(until_option(alloc, texts::ADVICE_UNTIL)) else {
        return Err(AllocError);
    };
    let Ok(with_reach) = with_until.arg(reach_flag(alloc, texts::ADVICE_REACH)) else {
        return Err(AllocError);
    };
    with_reach.arg(header_flag(alloc))
}

/// `--until`, which has this help.
fn until_option<'a>(alloc: Global, help: &'a str) -> Arg<'a>
    ensures { IsRuled rule.until result }
{
    Arg::new(alloc, "until")
        .long("until")
        .value_name("PERIOD")
        .value_parser(numbers(0, LAST_PERIOD))
        .help(help)
}

/// `schedule`.
fn schedule_command<'a>(alloc: Global) -> Result<Command<'a>, AllocError>
    ensures { IfOk result (IsWorded schedule_words) }
{
    let schedule = explained(
        alloc,
        "schedule",
        texts::SCHEDULE,
        texts::SCHEDULE_LONG,
        texts::SCHEDULE_EXAMPLE,
    );
    let Ok(with_from) = schedule.arg(from_option(alloc)) else {
        return Err(AllocError);
    };
    let Ok(with_to) = with_from.arg(to_option(alloc)) else {
        return Err(AllocError);
    };
    with_to.arg(header_flag(alloc))
}

/// `--from`.
fn from_option<'a>(alloc: Global) -> Arg<'a>
    ensures { IsRuled rule.from result }
{
    let help = "The supplier, a plant or a vendor; without it all";
    free_text_option(alloc, "from", "SUPPLIER", help)
}

/// `--to`.
fn to_option<'a>(alloc: Global) -> Arg<'a>
    ensures { IsRuled rule.to result }
{
    let help = "The customer plant; without it all";
    free_text_option(alloc, "to", "PLANT", help)
}

/// The option that is called `name`, with a text, which may be left out.
fn free_text_option<'a>(alloc: Global, name: &'a str, value_name: &'a str, help: &'a str) -> Arg<'a>
    ensures { IsRuled (rule.free_text_option name.entry.now) result }
{
    Arg::new(alloc, name)
        .long(name)
        .value_name(value_name)
        .help(help)
}

/// `peg`.
fn peg_command<'a>(alloc: Global) -> Result<Command<'a>, AllocError>
    ensures { IfOk result (IsWorded peg_words) }
{
    let peg = explained(
        alloc,
        "peg",
        texts::PEG,
        texts::PEG_LONG,
        texts::PEG_EXAMPLE,
    );
    let Ok(with_plant) = peg.arg(plant_argument(alloc)) else {
        return Err(AllocError);
    };
    let Ok(with_item) = with_plant.arg(item_argument(alloc)) else {
        return Err(AllocError);
    };
    let Ok(with_period) = with_item.arg(period_argument(alloc)) else {
        return Err(AllocError);
    };
    with_period.arg(header_flag(alloc))
}

/// The plant of `peg`.
fn plant_argument<'a>(alloc: Global) -> Arg<'a>
    ensures { IsRuled rule.plant result }
{
    wanted_argument(alloc, "plant", "PLANT", "The name of the plant")
}

/// The item of `peg`.
fn item_argument<'a>(alloc: Global) -> Arg<'a>
    ensures { IsRuled rule.item result }
{
    wanted_argument(alloc, "item", "ITEM", "The name of the item")
}

/// The period of `peg`.
fn period_argument<'a>(alloc: Global) -> Arg<'a>
    ensures { IsRuled rule.period result }
{
    let parser = numbers(0, LAST_PERIOD);
    let help = "The period, 0 to 103, or with --large 519";
    wanted_argument(alloc, "period", "PERIOD", help).value_parser(parser)
}

/// The argument that is called `name` and has to be there.
fn wanted_argument<'a>(alloc: Global, name: &'a str, value_name: &'a str, help: &'a str) -> Arg<'a>
    ensures { IsRuled (rule.wanted name.entry.now) result }
{
    Arg::new(alloc, name)
        .value_name(value_name)
        .required(true)
        .help(help)
}

/// What the matches ask: the choice, of a table read so.
fn asked<'a>(matches: &ArgMatches<'a>) -> Request<'a>
    requires { IsWholeCommand (subcommand_rows_of matches.now) }
    ensures range { IsInRange result.choice }
    ensures choice { IsMeantBy (subcommand_rows_of matches.now) result.choice }
    ensures reading { ReadsTable (subcommand_rows_of matches.now) result.reading }
{
    Request {
        reading: reading(matches),
        choice: chosen(matches),
    }
}

/// How the table is to be read.
fn reading(matches: &ArgMatches<'_>) -> Reading
    requires { IsWholeCommand (subcommand_rows_of matches.now) }
    ensures { ReadsTable (subcommand_rows_of matches.now) result }
{
    let Some((_, values)) = matches.subcommand() else {
        unreachable!()
    };
    Reading {
        whole: is_given(values, "whole"),
        limits: limits(values),
    }
}

/// The limits of the table: those of any table where `--large` is given, and else the usual ones.
fn limits(values: &ArgMatches<'_>) -> LimitSet
    requires { HasFlag (codes "large") (rows_of (found_of values.now)) }
    ensures { HasLimits (rows_of (found_of values.now)) result }
{
    if is_given(values, "large") {
        LimitSet::Large
    } else {
        LimitSet::Usual
    }
}

/// The choice that the matches name.
fn chosen<'a>(matches: &ArgMatches<'a>) -> Choice<'a>
    requires { IsWholeCommand (subcommand_rows_of matches.now) }
    ensures range { IsInRange result }
    ensures choice { IsMeantBy (subcommand_rows_of matches.now) result }
{
    let Some((name, values)) = matches.subcommand() else {
        unreachable!()
    };
    if name == "plan" {
        planning(values)
    } else if name == "check" {
        checking(values)
    } else if name == "peg" {
        pegging(values)
    } else if name == "cums" {
        Choice::Cums {
            heading: heading(values),
        }
    } else {
        reporting(name, values)
    }
}

/// The choice of a report on the whole plan: its orders, schedules, pegs, advice or shortages.
fn reporting<'a>(name: &str, values: &ArgMatches<'a>) -> Choice<'a>
    requires { IsWholeReport name.now (rows_of (found_of values.now)) }
    ensures range { IsInRange result }
    ensures choice { IsCommand name.now (rows_of (found_of values.now)) result }
{
    if name == "orders" {
        ordering(values)
    } else if name == "schedule" {
        scheduling(values)
    } else if name == "pegs" {
        Choice::Pegs {
            heading: heading(values),
        }
    } else if name == "advice" {
        advising(values)
    } else {
        Choice::Shortages {
            heading: heading(values),
        }
    }
}

/// The values of `plan`.
fn planning<'a>(values: &ArgMatches<'a>) -> Choice<'a>
    requires { HasPlanValues (rows_of (found_of values.now)) }
    ensures range { IsInRange result }
    ensures choice { IsCommand (codes "plan") (rows_of (found_of values.now)) result }
{
    Choice::Plan {
        workers: number(values, "workers"),
        capacity: number(values, "capacity"),
        single: is_given(values, "single"),
    }
}

/// The values of `check`: the low-level codes, or until when each pair is whole.
fn checking<'a>(values: &ArgMatches<'a>) -> Choice<'a>
    requires { HasCheckValues (rows_of (found_of values.now)) }
    ensures range { IsInRange result }
    ensures choice { IsCommand (codes "check") (rows_of (found_of values.now)) result }
{
    let heading = heading(values);
    if is_given(values, "reach") {
        Choice::Reach { heading }
    } else {
        Choice::Check { heading }
    }
}

/// The values of `peg`.
fn pegging<'a>(values: &ArgMatches<'a>) -> Choice<'a>
    requires { HasPegValues (rows_of (found_of values.now)) }
    ensures range { IsInRange result }
    ensures choice { IsCommand (codes "peg") (rows_of (found_of values.now)) result }
{
    Choice::Peg {
        plant: text(values, "plant"),
        item: text(values, "item"),
        period: number(values, "period"),
        heading: heading(values),
    }
}

/// The values of `orders`.
fn ordering<'a>(values: &ArgMatches<'a>) -> Choice<'a>
    requires { HasOrderValues (rows_of (found_of values.now)) }
    ensures range { IsInRange result }
    ensures choice { IsCommand (codes "orders") (rows_of (found_of values.now)) result }
{
    let until = free_number(values, "until");
    let heading = heading(values);
    Choice::Orders { until, heading }
}

/// The values of `advice`.
fn advising<'a>(values: &ArgMatches<'a>) -> Choice<'a>
    requires { HasAdviceValues (rows_of (found_of values.now)) }
    ensures range { IsInRange result }
    ensures choice { IsCommand (codes "advice") (rows_of (found_of values.now)) result }
{
    let until = free_number(values, "until");
    let reach = is_given(values, "reach");
    let heading = heading(values);
    Choice::Advice {
        until,
        reach,
        heading,
    }
}

/// The values of `schedule`.
fn scheduling<'a>(values: &ArgMatches<'a>) -> Choice<'a>
    requires { HasFlag (codes "header") (rows_of (found_of values.now)) }
    ensures range { IsInRange result }
    ensures choice { IsCommand (codes "schedule") (rows_of (found_of values.now)) result }
{
    Choice::Schedule {
        from: free_text(values, "from"),
        to: free_text(values, "to"),
        heading: heading(values),
    }
}

/// Whether the names of the columns are asked for.
fn heading(values: &ArgMatches<'_>) -> Heading
    requires { HasFlag (codes "header") (rows_of (found_of values.now)) }
    ensures { IsHeadedBy (rows_of (found_of values.now)) result }
{
    if is_given(values, "header") {
        Heading::Names
    } else {
        Heading::Without
    }
}

/// The number of an argument, if it has one.
fn free_number(values: &ArgMatches<'_>, name: &str) -> Option<u64>
    requires { MayHaveNumber name.now (rows_of (found_of values.now)) }
    ensures { number_value name.now (rows_of (found_of values.now)) ≡ result }
{
    values.get_one::<u64>(name)
}

/// The text of an argument, if it has one.
fn free_text<'a>(values: &ArgMatches<'a>, name: &str) -> Option<&'a str>
    ensures { text_at name.now (rows_of (found_of values.now)) ≡ word_text result }
{
    values.get_str(name)
}

/// The number of an argument that has one.
fn number(values: &ArgMatches<'_>, name: &str) -> u64
    requires { HasNumber name.now (rows_of (found_of values.now)) }
    ensures { number_value name.now (rows_of (found_of values.now)) ≡ Some result }
{
    values.get_one::<u64>(name).unwrap()
}

/// Whether a flag is given.
fn is_given(values: &ArgMatches<'_>, name: &str) -> bool
    requires { HasFlag name.now (rows_of (found_of values.now)) }
    ensures { flag_at name.now (rows_of (found_of values.now)) ≡ result }
{
    values.get_flag(name)
}

/// The text of an argument that has one.
fn text<'a>(values: &ArgMatches<'a>, name: &str) -> &'a str
    requires { HasNameValue name.now (rows_of (found_of values.now)) }
    ensures { text_at name.now (rows_of (found_of values.now)) ≡ Some result.now }
{
    values.get_str(name).unwrap()
}
