//! The command line as clap knows it: each command with its options and flags.
ghost use Rattle.std.specs.Prelude.{◌≡◌, IfOk, codes, map};
ghost use Rattle.clap.specs.Words.{App, app_of, with_subcommand};
ghost use Rattle.command_line.specs.Given.{CommandForm, option, flag};
ghost use Rattle.command_line.specs.Program.{raw, raw_of, bare_app, HasOneMore, IsLeaf, node_takes, program_app};

use clap::{Arg, ArgAction, Command};
use std::alloc::{AllocError, Global};

fn with_option<'a>(
    alloc: Global,
    command: Command<'a>,
    name: &'a str,
) -> Result<Command<'a>, AllocError>
    ensures { IfOk result (λ c. HasOneMore command.entry (raw (option name.entry.now)) c) }
{
    command.arg(Arg::new(alloc, name).long(name))
}

fn with_flag<'a>(
    alloc: Global,
    command: Command<'a>,
    name: &'a str,
) -> Result<Command<'a>, AllocError>
    ensures { IfOk result (λ c. HasOneMore command.entry (raw (flag name.entry.now)) c) }
{
    command.arg(Arg::new(alloc, name).long(name).action(ArgAction::SetTrue))
}

// A command with these options.
fn leaf<'a>(alloc: Global, name: &'a str, options: &[&'a str]) -> Result<Command<'a>, AllocError>
    ensures { IfOk result (IsLeaf name.entry.now (map (λ t. option t.now) options.now)) }
{
    let mut command = Command::new(alloc, name);
    for option in options {
        command = with_option(alloc, command, *option)?;
    }
    Ok(command)
}

fn node<'a>(alloc: Global) -> Result<Command<'a>, AllocError>
    ensures { IfOk result (IsLeaf (codes "node") node_takes) }
{
    let options = [
        "id",
        "dir",
        "listen",
        "peers",
        "initial",
        "voting-only",
        "turns",
        "profile",
        "history",
    ];
    let command = leaf(alloc, "node", &options)?;
    with_flag(alloc, command, "no-shrink")
}

// The program before its commands.
fn bare<'a>(alloc: Global) -> Command<'a>
    ensures { app_of result ≡ bare_app }
{
    Command::new(alloc, "zen")
        .no_binary_name(true)
        .disable_help_flag(true)
        .disable_help_subcommand(true)
        .disable_version_flag(true)
}

// The program with one more command.
fn with_command<'a>(
    program: Command<'a>,
    command: Result<Command<'a>, AllocError>,
) -> Result<Command<'a>, AllocError>
    ensures { (app : App) (form : CommandForm) → app_of program.entry ≡ app → IfOk command.entry (IsLeaf form.0 form.1)
        → IfOk result (λ c. app_of c ≡ with_subcommand app (raw_of form)) }
{
    match command {
        Ok(command) => program.subcommand(command),
        Err(error) => Err(error),
    }
}

/// The commands and what they take, as clap is given them.
pub fn program<'a>(alloc: Global) -> Result<Command<'a>, AllocError>
    ensures { IfOk result (λ c. app_of c ≡ program_app) }
{
    let program = with_command(bare(alloc), leaf(alloc, "replay", &["level"]))?;
    let program = with_command(program, leaf(alloc, "inspect", &["dir"]))?;
    let program = with_command(program, node(alloc))?;
    let program = with_command(program, leaf(alloc, "generate", &["number", "steps"]))?;
    let program = with_command(
        program,
        leaf(alloc, "trial", &["program", "dir", "port", "turns"]),
    )?;
    let program = with_command(program, leaf(alloc, "rescue", &["up"]))?;
    let program = with_command(program, leaf(alloc, "unsafe-bootstrap", &["id", "dir"]))?;
    let program = with_command(program, leaf(alloc, "detach-cluster", &["dir"]))?;
    with_command(program, leaf(alloc, "audit", &[]))
}
