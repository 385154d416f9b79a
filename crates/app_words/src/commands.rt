//! The program and its commands as `clap` commands.

ghost use Rattle.std.specs.Prelude.{◌≡◌, [], ◌∷◌, false, map, IfOk};
ghost use Rattle.std.specs.List.{fold};
ghost use Rattle.clap.specs.Words.{app_of, with_subcommand};
ghost use Rattle.clap.specs.declared.builder.command.Command.TheViews.{out-Command as fields_of};
ghost use Rattle.app_words.specs.Commands.{bare_program, program, app_with, with_command};
ghost use Rattle.app_words.specs.Commands.{run_app, format_app, check_app};
ghost use Rattle.app_words.specs.Commands.{rehearse_app, agree_app, host_app, view_app, serve_app};
ghost use Rattle.app_words.specs.Commands.{recall_app, part_app, key_app};

use crate::arguments::{flag_arg, number_arg, text_arg};
use crate::help::{
    AGREE_HELP, CHECK_HELP, FORMAT_HELP, HOST_HELP, KEY_HELP, PART_HELP, PROGRAM_HELP, RECALL_HELP,
    REHEARSE_HELP, RUN_HELP, SERVE_HELP, VIEW_HELP,
};
use crate::host_options::{
    ETCD, EVERY, HOST_FORGET, HOST_TURNS, HOST_UNTIL, HOST_VIEWERS, KEEP, KEYS, LISTEN, LOG, LOGIN,
    NEW_LOG, SHARED_WORLD, STANDBY, WORLD_BASE, WORLD_ETCD, WORLD_EVERY, WORLD_FORGET,
    WORLD_VIEWERS, WORLDS,
};
use crate::options::{
    FOLDER, FlagOption, INFO, KEEP_NAMES, LIST, NO_TRACE, NumberOption, OPEN, PORT, RECALL_LOG,
    RECALL_UNTIL, TURNS, TextOption, VERBOSE, VIEWERS,
};
use crate::view_options::{
    AT, BOOT, EXACTLY, GIVE, GIVE_TURNS, HOST, JOIN, KEY, VIEW_FORGET, VIEW_UNTIL, WHO, WIRE, WORLD,
};
use clap::Command;
use std::alloc::{AllocError, Global};

/// What help says of a command, and the options of the command.
struct CommandWords {
    name: &'static str,
    about: &'static str,
    after_help: &'static str,
    options: &'static [NumberOption],
    texts: &'static [TextOption],
    flags: &'static [FlagOption],
}

/// The commands that run in one process, in the order of help.
static LOCAL_COMMANDS: [CommandWords; 5] = [
    CommandWords {
        name: "run",
        about: "Run a job, and print its trace and then the scene",
        after_help: RUN_HELP,
        options: &[],
        texts: &[],
        flags: &[NO_TRACE],
    },
    CommandWords {
        name: "format",
        about: "Print a scene as it is written, one item a line",
        after_help: FORMAT_HELP,
        options: &[],
        texts: &[],
        flags: &[],
    },
    CommandWords {
        name: "check",
        about: "Print how many nodes and routes a scene has",
        after_help: CHECK_HELP,
        options: &[],
        texts: &[],
        flags: &[],
    },
    CommandWords {
        name: "rehearse",
        about: "Take a host and viewers through a schedule, and print each step's answer",
        after_help: REHEARSE_HELP,
        options: &[VIEWERS],
        texts: &[],
        flags: &[],
    },
    CommandWords {
        name: "agree",
        about: "Have a host and viewers do a job over UDP, and print trace and scene of viewer 0",
        after_help: AGREE_HELP,
        options: &[VIEWERS, TURNS],
        texts: &[],
        flags: &[],
    },
];

/// The command of a host, the first of those of several processes.
static HOST_COMMAND: CommandWords = CommandWords {
    name: "host",
    about: "Number the inputs of viewers, and send them to each, over UDP",
    after_help: HOST_HELP,
    options: &[
        PORT,
        HOST_VIEWERS,
        HOST_UNTIL,
        KEEP,
        HOST_FORGET,
        EVERY,
        STANDBY,
        HOST_TURNS,
    ],
    texts: &[LISTEN, LOG, NEW_LOG, ETCD, SHARED_WORLD, LOGIN, KEYS],
    flags: &[OPEN, VERBOSE],
};

/// The command of a viewer, the second.
static VIEW_COMMAND: CommandWords = CommandWords {
    name: "view",
    about: "Offer points to a host over UDP, apply what it numbers, and print trace and scene",
    after_help: VIEW_HELP,
    options: &[
        PORT,
        WHO,
        BOOT,
        VIEW_UNTIL,
        EXACTLY,
        TURNS,
        AT,
        GIVE,
        GIVE_TURNS,
        WIRE,
        VIEW_FORGET,
    ],
    texts: &[HOST, KEY, WORLD],
    flags: &[OPEN, JOIN, VERBOSE],
};

/// The commands of a folder and of files, in the order of help.
static FILE_COMMANDS: [CommandWords; 4] = [
    CommandWords {
        name: "serve",
        about: "Serve the worlds of a folder, over one UDP socket",
        after_help: SERVE_HELP,
        options: &[
            PORT,
            WORLD_VIEWERS,
            KEEP,
            WORLD_FORGET,
            WORLD_BASE,
            WORLD_EVERY,
        ],
        texts: &[WORLDS, LISTEN, WORLD_ETCD, LOGIN],
        flags: &[OPEN, VERBOSE],
    },
    CommandWords {
        name: "recall",
        about: "Print the inputs of a host's log as the steps of a job",
        after_help: RECALL_HELP,
        options: &[RECALL_UNTIL],
        texts: &[RECALL_LOG],
        flags: &[INFO],
    },
    CommandWords {
        name: "part",
        about: "Print the part of a text that is a scene, and what is left out on standard error",
        after_help: PART_HELP,
        options: &[],
        texts: &[KEEP_NAMES],
        flags: &[LIST],
    },
    CommandWords {
        name: "key",
        about: "Make the keys of a host and of its viewers",
        after_help: KEY_HELP,
        options: &[VIEWERS],
        texts: &[FOLDER],
        flags: &[],
    },
];

/// Returns the first commands.
fn local_commands() -> &'static [CommandWords]
    ensures { map app_with result.now
        ≡ run_app ∷ format_app ∷ check_app ∷ rehearse_app ∷ agree_app ∷ [] }
{
    &LOCAL_COMMANDS
}

/// Returns the command of a host.
fn host_command() -> &'static CommandWords
    ensures { app_with result.now ≡ host_app }
{
    &HOST_COMMAND
}

/// Returns the command of a viewer.
fn view_command() -> &'static CommandWords
    ensures { app_with result.now ≡ view_app }
{
    &VIEW_COMMAND
}

/// Returns the last commands.
fn file_commands() -> &'static [CommandWords]
    ensures { map app_with result.now ≡ serve_app ∷ recall_app ∷ part_app ∷ key_app ∷ [] }
{
    &FILE_COMMANDS
}

/// Builds a command with its options.
fn command<'a>(alloc: Global, words: &CommandWords) -> Result<Command<'a>, AllocError>
    ensures app { IfOk result (λ c. app_of c ≡ app_with words.now) }
    ensures local { IfOk result (λ c. (fields_of c).has_globals ≡ false) }
{
    let mut command = Command::new(alloc, words.name)
        .about(words.about)
        .after_help(words.after_help)
        .display_name("x3d_share")?;
    for option in words.options {
        command = command.arg(number_arg(alloc, option))?;
    }
    for text in words.texts {
        command = command.arg(text_arg(alloc, text))?;
    }
    for flag in words.flags {
        command = command.arg(flag_arg(alloc, flag))?;
    }
    Ok(command)
}

/// Builds the program without its commands.
#[tactic(auto, unfolding(crate::specs::Commands::bare_program))]
fn bare_command<'a>(alloc: Global) -> Result<Command<'a>, AllocError>
    ensures app { IfOk result (λ c. app_of c ≡ bare_program) }
    ensures local { IfOk result (λ c. (fields_of c).has_globals ≡ false) }
{
    Command::new(alloc, "x3d_share")
        .version("0.3.0")
        .propagate_version(true)
        .subcommand_required(true)
        .disable_help_subcommand(true)
        .about("Runs X3D worlds that several viewers share")
        .after_help(PROGRAM_HELP)
        .bin_name("x3d_share")
}

/// Adds one command to the program.
fn with_command<'a>(
    program: Command<'a>,
    alloc: Global,
    words: &CommandWords,
) -> Result<Command<'a>, AllocError>
    ensures app { IfOk result (λ c. app_of c
        ≡ with_command (app_of program.entry) (app_with words.now)) }
{
    program.subcommand(command(alloc, words)?)
}

/// Adds commands to the program, in turn.
fn with_commands<'a>(
    program: Command<'a>,
    alloc: Global,
    commands: &[CommandWords],
) -> Result<Command<'a>, AllocError>
    ensures { IfOk result (λ c. app_of c
        ≡ fold (λ a w. with_command a (app_with w)) (app_of program.entry) commands.now) }
{
    let mut program = program;
    for words in commands {
        program = with_command(program, alloc, words)?;
    }
    Ok(program)
}

/// Builds the program with all its commands. Fails if memory is refused.
pub fn program_command<'a>(alloc: Global) -> Result<Command<'a>, AllocError>
    ensures { IfOk result (λ c. app_of c ≡ program) }
{
    let bare = bare_command(alloc)?;
    let local = with_commands(bare, alloc, local_commands())?;
    let hosted = with_command(local, alloc, host_command())?;
    let shared = with_command(hosted, alloc, view_command())?;
    with_commands(shared, alloc, file_commands())
}
