//! The program `geostation`: it shows, checks and makes captures of GeoNetworking frames, runs
//! scenarios, and is a station on a pipe. It reads its arguments (`clap`, `cmd_arguments`) and calls
//! the commands.
//!
//! # Only tested
//!
//! - `cases/arguments.md` and the other cases: the texts of the help, the version and refused
//!   arguments; that each command runs on the files that its arguments name, and on standard input
//!   for `-`. One run, `show first.cap`, is compared as two compilers build it.
//! - `checks/failures`: an output that fails at any write, each allocation that fails, reads that
//!   fail, full files, and much input in little memory.
//!
//! # By review
//!
//! `main` ends with the code of an `ExitStatus`, 0 to 3.
#![tactic(auto)]

mod arguments;
mod fault;
mod pipe;
mod program;
mod subcommand;

use cmd_arguments::terminal::Console;
use std::env;
use std::io::IsTerminal;
use std::process::ExitCode;

fn main(rt: HostRuntime) -> ExitCode {
    let arguments = env::args(&rt);
    let (out, mut err) = (rt.stdout(), rt.stderr());
    let console = Console {
        out: out.is_terminal(),
        err: err.is_terminal(),
        colors: has_colors(&rt),
    };
    let status = program::run(&rt, arguments, rt.stdin(), out, &mut err, console);
    ExitCode::from(status)
}

/// Whether nothing in the environment speaks against colours: `NO_COLOR` is empty or isn't there,
/// and `TERM` isn't `dumb`.
fn has_colors(rt: &HostRuntime) -> bool {
    let refused = env::var(rt, "NO_COLOR").is_ok_and(|word| !word.is_empty());
    let dumb = env::var(rt, "TERM").is_ok_and(|word| word.as_str() == "dumb");
    !refused && !dumb
}
