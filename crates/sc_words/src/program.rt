//! The command line, as `clap` is told of it.

ghost use Rattle.std.specs.Prelude.{◌≡◌, IfOk};
ghost use Rattle.clap.specs.Words.{app_of};
ghost use Rattle.sc_words.specs.CommandLine.{IsCommand, IsOption, command_line};
ghost use Rattle.sc_words.specs.CommandLine as line;
ghost use Rattle.sc_words.specs.Table.{line_told, rule_told, shape_told};

use crate::help;
use crate::table::{KnownOption, KnownSubcommand, OptionKind, SUBCOMMANDS};
use clap::{Arg, ArgAction, Command};
use std::alloc::{AllocError, Global};

/// The option, as `clap` is told of it.
fn arg<'a>(alloc: Global, option: &KnownOption) -> Arg<'a>
    ensures { IsOption result (rule_told option.now) }
{
    let arg = Arg::new(alloc, option.name)
        .long(option.name)
        .help(option.help);
    match option.kind {
        OptionKind::Required(value) => arg.value_name(value).action(ArgAction::Set).required(true),
        OptionKind::Optional(value) => arg.value_name(value).action(ArgAction::Set),
        OptionKind::Flag => arg.action(ArgAction::SetTrue),
    }
}

/// The subcommand with its options, as `clap` is told of them.
fn subcommand<'a>(alloc: Global, known: &KnownSubcommand) -> Result<Command<'a>, AllocError>
    ensures { IfOk result (λ c. IsCommand c (shape_told known.now)) }
{
    let mut command = Command::new(alloc, known.name)
        .about(known.about)
        .after_help(known.after);
    for option in known.options {
        command = command.arg(arg(alloc, option))?;
    }
    Ok(command)
}

/// The program without its subcommands. Its name stands in the usage lines, since the words that it
/// reads do not begin with it.
fn program_alone<'a>(alloc: Global) -> Result<Command<'a>, AllocError>
    ensures { IfOk result (λ c. IsCommand c line.program_alone) }
{
    Command::new(alloc, "clearinghouse")
        .version(help::VERSION)
        .about(help::PROGRAM)
        .after_help(help::STATUSES)
        .no_binary_name(true)
        .subcommand_required(true)
        .bin_name("clearinghouse")
}

/// The program with these subcommands.
fn program_with<'a>(
    alloc: Global,
    subcommands: &[KnownSubcommand],
) -> Result<Command<'a>, AllocError>
    ensures { IfOk result (λ c. app_of c ≡ line_told subcommands.now) }
{
    let mut program = program_alone(alloc)?;
    for known in subcommands {
        program = program.subcommand(subcommand(alloc, known)?)?;
    }
    Ok(program)
}

/// The program's command line.
pub(crate) fn program<'a>(alloc: Global) -> Result<Command<'a>, AllocError>
    ensures { IfOk result (λ c. app_of c ≡ command_line) }
{
    program_with(alloc, &SUBCOMMANDS)
}
