//! The command line as `clap` reads it.
ghost use Rattle.std.specs.Prelude.{◌≡◌, true, false, IfOk, map};
ghost use Rattle.clap.specs.Words.{FailsBy, app_of, fault_of, subcommand_of, subcommand_rows_of, with_subcommand};
ghost use Rattle.clap.specs.declared.builder.command.Command.TheViews.{out-Command as fields_of};
ghost use Rattle.tsmux_cli.specs.CommandLine.{carry_app, check_app, demux_app, monitor_app, mux_app};
ghost use Rattle.tsmux_cli.specs.CommandLine.{plan_app, tsmux_app, without_mux};

use crate::options::{CARRY, CHECK, MONITOR, MUX};
use clap::{ArgMatches, Command, Error};
use std::alloc::{AllocError, Global};
use word_faults::subcommand;

fn carry<'a>(alloc: Global) -> Result<Command<'a>, AllocError>
    ensures app { IfOk result (λ c. app_of c ≡ carry_app) }
    ensures local { IfOk result (λ c. (fields_of c).has_globals ≡ false) }
{
    subcommand(alloc, "carry", &CARRY)
}

fn plan<'a>(alloc: Global) -> Command<'a>
    ensures app { app_of result ≡ plan_app }
    ensures local { (fields_of result).has_globals ≡ false }
{
    Command::new(alloc, "plan")
}

fn demux<'a>(alloc: Global) -> Command<'a>
    ensures app { app_of result ≡ demux_app }
    ensures local { (fields_of result).has_globals ≡ false }
{
    Command::new(alloc, "demux")
}

fn check<'a>(alloc: Global) -> Result<Command<'a>, AllocError>
    ensures app { IfOk result (λ c. app_of c ≡ check_app) }
    ensures local { IfOk result (λ c. (fields_of c).has_globals ≡ false) }
{
    subcommand(alloc, "check", &CHECK)
}

fn mux<'a>(alloc: Global) -> Result<Command<'a>, AllocError>
    ensures app { IfOk result (λ c. app_of c ≡ mux_app) }
    ensures local { IfOk result (λ c. (fields_of c).has_globals ≡ false) }
{
    subcommand(alloc, "mux", &MUX)
}

fn monitor<'a>(alloc: Global) -> Result<Command<'a>, AllocError>
    ensures app { IfOk result (λ c. app_of c ≡ monitor_app) }
    ensures local { IfOk result (λ c. (fields_of c).has_globals ≡ false) }
{
    subcommand(alloc, "monitor", &MONITOR)
}

/// Returns a command with one more subcommand.
fn with<'a>(command: Command<'a>, sub: Command<'a>) -> Result<Command<'a>, AllocError>
    requires { (fields_of sub).has_globals ≡ false }
    ensures { IfOk result (λ c. app_of c ≡ with_subcommand (app_of command.entry) (app_of sub.entry).top) }
{
    command.subcommand(sub)
}

/// Returns the subcommands before `mux`.
fn without_mux<'a>(alloc: Global) -> Result<Command<'a>, AllocError>
    ensures { IfOk result (λ c. app_of c ≡ without_mux) }
{
    let carry = carry(alloc)?;
    let command = with(Command::new(alloc, "tsmux").no_binary_name(true), carry)?;
    let command = with(command, plan(alloc))?;
    let command = with(command, demux(alloc))?;
    match check(alloc) {
        Ok(check) => with(command, check),
        Err(error) => {
            // By a call: at the end of a function the drop of each part would be a step of its proof.
            drop(command);
            Err(error)
        }
    }
}

/// Returns the program's command line.
#[tactic(auto, unfolding(crate::specs::CommandLine::tsmux_app))]
fn tsmux<'a>(alloc: Global) -> Result<Command<'a>, AllocError>
    ensures { IfOk result (λ c. app_of c ≡ tsmux_app) }
{
    let mux = mux(alloc)?;
    let command = match without_mux(alloc) {
        Ok(command) => with(command, mux)?,
        Err(error) => {
            drop(mux);
            return Err(error);
        }
    };
    match monitor(alloc) {
        Ok(monitor) => with(command, monitor),
        Err(error) => {
            drop(command);
            Err(error)
        }
    }
}

/// Returns the subcommand in the words, with the values of its options.
pub fn matches_for<'a>(alloc: Global, words: &'a [&'a str]) -> Result<ArgMatches<'a>, Error>
    ensures ok { IfOk result
        (λ m. subcommand_rows_of m ≡ subcommand_of tsmux_app (map (λ s. s.now) words.entry.now)) }
    ensures fault { FailsBy (fault_of tsmux_app (map (λ s. s.now) words.entry.now)) result }
{
    tsmux(alloc)?.try_get_matches_from(words)
}
