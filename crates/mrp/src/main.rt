//! The program: `mrp` plans the material of all plants of a firm at once.
//!
//! The program is thin: words in, one call of the library `mrp_api`, a status out.
//!
//! Nobody uses it: it is what a planner runs.
//! Keeps true: the program decides nothing; what it writes and its status are those of `mrp_api`.
#![tactic(auto)]

ghost use Rattle.std.specs.Prelude.{◌≡◌};
ghost use Rattle.std.specs.Process.{exit_status};
ghost use Rattle.mrp_api.specs.Ending.{Reports};
ghost use Rattle.mrp.specs.Ending.{refusal_fault, refusal_printed, refusal_status};

use mrp_api::{Ending, REFUSED, TextFault, after_help, answer, beyond_limits, ended, unread};
use mrp_command_line::{ChooseFault, Meaning, means, named_words, request};
use mrp_report::{ReportFault, send};
use std::env::FillError;
use std::io::{IsTerminal, Stderr, Write};
use std::process::ExitCode;
use std::rt::Env;
use std::{env, io};

// What there is to report goes to standard error, by the type of the writer.
fn main(rt: HostRuntime) -> ExitCode {
    let arguments = match arguments(&rt) {
        Ok(arguments) => arguments,
        Err(error) => return left(unread::<Stderr>(&error, &mut rt.stderr())),
    };
    let Ok(words) = named_words(rt.alloc(), arguments.as_slice()) else {
        return left(ended::<Stderr>(&Err(TextFault::Memory), &mut rt.stderr()));
    };
    left(match request(rt.alloc(), words.as_slice()) {
        Ok(request) => {
            await_table(&rt);
            let done = answer(&rt, rt.alloc(), request, rt.reader(), &mut rt.stdout());
            ended::<Stderr>(&done, &mut rt.stderr())
        }
        Err(ChooseFault::Words(error)) => {
            let meaning = means(&error);
            let printed = match meaning {
                Meaning::Memory => Ok(()),
                _ => error.print(&rt),
            };
            refused::<Stderr>(meaning, printed, &mut rt.stderr())
        }
        Err(ChooseFault::Memory) => ended::<Stderr>(&Err(TextFault::Memory), &mut rt.stderr()),
        Err(ChooseFault::Period) => beyond_limits::<Stderr>(&mut rt.stderr()),
    })
}

/// The end of the process.
fn left(ending: Ending) -> ExitCode
    ensures { exit_status result ≡ ending.status }
{
    ExitCode::from(ending.status)
}

/// The environment of a process without the name that the program was started by, which need not be text.
#[derive(Drop)]
struct Unnamed<'r, R> {
    rt: &'r R,
}

impl<R: Env> Env for Unnamed<'_, R> {
    fn arg(&self, i: usize, buf: &mut [u8]) -> Result<usize, FillError> {
        match i.checked_add(1) {
            Some(next) => self.rt.arg(next, buf),
            None => Err(FillError::NotPresent),
        }
    }

    fn var(&self, name: &str, buf: &mut [u8]) -> Result<usize, FillError> {
        self.rt.var(name, buf)
    }

    fn var_at(&self, i: usize, buf: &mut [u8]) -> Result<usize, FillError> {
        self.rt.var_at(i, buf)
    }
}

/// The arguments of the process, behind the program's name.
fn arguments<R: Env + AllocGlobal>(rt: &R) -> io::Result<Vec<String>> {
    let unnamed = (Unnamed { rt }, rt.alloc());
    Ok(env::args(&unnamed)?.collect(rt.alloc())?)
}

/// Says that a table is awaited where standard input is a terminal. No clause says when: the kit's
/// `is_terminal` has none.
fn await_table(rt: &HostRuntime) {
    if rt.stdin().is_terminal() {
        let _ = send(
            b"mrp: a table is awaited on standard input\n",
            &mut rt.stderr(),
        );
    }
}

/// The end where nothing was asked for, after what `clap` had to say was printed or could not be: the
/// status is 0 after help or the version that was printed, 2 where the words are refused, 3 where memory
/// was refused or help or the version could not be printed; of these a line is reported to this writer.
fn refused<W: Write>(meaning: Meaning, said: io::Result<()>, writer: &mut W) -> Ending
    ensures status { result.status ≡ refusal_status meaning said }
    ensures printed { result.printed ≡ refusal_printed meaning said }
    ensures line { Reports W.contents writer.old writer.new result.reported (refusal_fault meaning said) }
{
    let printed = match said {
        Ok(()) => Ok(()),
        Err(_) => Err(ReportFault::WriteFault),
    };
    match meaning {
        Meaning::Memory => ended(&Err(TextFault::Memory), writer),
        Meaning::Asked => after_help(printed, writer),
        Meaning::Refused => Ending {
            status: REFUSED,
            printed,
            reported: Ok(()),
        },
    }
}
