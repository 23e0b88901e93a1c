//! The command line as `clap` is given it: subcommands, options, and what the help says of them.

ghost use Rattle.std.specs.Prelude.{◌≡◌, IfOk, false};
ghost use Rattle.clap.specs.Walk.{texts};
ghost use Rattle.clap.specs.Words.{app_of, rule_of, with_rule, with_subcommand};
ghost use Rattle.clap.specs.declared.builder.command.Command.TheViews.{out-Command as fields_of};
ghost use Rattle.command_line.specs.CommandLine.{bare_line, file_words, flag_named, line_for, option_named, subcommand_for as subcommand_for_words, subcommand_named, with_run_options as with_options_of_run, with_trace as with_trace_options};

use crate::holds;
use clap::{Arg, ArgAction, Command};
use std::alloc::{AllocError, Global};

/// What stands at the end of the help.
const AFTER_ALL: &str =
    "Exit status: 0 all threads ended normally, or the trace is legal; 1 a thread didn't, or it is illegal;
2 the command line, a file or the classes are at fault (jinit explain CODE says more); 3 memory,
a thread, a file or the output was refused.

See jinit run --help, jinit check --help, jinit needs --help, and docs/ (share/doc/jinit/).";

const AFTER_RUN: &str = "Examples:
  jinit run --mains Solo examples/solo/Solo.j
  jinit run --mains Left,Right --order 1 --trace lr.trace examples/deadlock/*.j
  jinit run --mains Left,Right --replay lr.trace examples/deadlock/*.j

Exit status: 0 all threads ended normally; 1 a thread didn't; 2 the command line, a file or the
classes are at fault; 3 memory, a thread, a file or the output was refused.
Read on in docs/TUTORIAL.md, docs/TRACES.md (traces and orders) and docs/MESSAGES.md (faults).";

const AFTER_CHECK: &str = "Examples:
  jinit check --mains Left,Right --trace lr.trace examples/deadlock/*.j
  jinit check --explain --mains Car,Car --trace examples/wrong_trace/Car.trace examples/wrong_trace/*.j

Exit status: 0 the trace is legal; 1 it is illegal; 2 the command line, a file, the classes or the
trace are at fault; 3 memory, a file or the output was refused.
Read on in docs/TRACES.md.";

const AFTER_NEEDS: &str = "Example:
  jinit needs --edition 7 examples/edition_7/*.j

Exit status: 0 written; 2 the command line, a file or the classes are at fault; 3 memory, a file or
the output was refused.
Read on in docs/INITIALIZATION.md.";

const AFTER_EXPLAIN: &str = "Examples:
  jinit explain J6
  jinit explain mains

Exit status: 0 written; 2 there is no such code; 3 memory or the output was refused.
Read on in docs/MESSAGES.md.";

/// An option with one value: its name, and for the help the name of the value, a line, and whether it is hidden.
#[tactic(auto, unfolding(crate::specs::CommandLine::option_named))]
fn option<'a>(
    alloc: Global,
    name: &'a str,
    value: &'a str,
    help: &'a str,
    is_hidden: bool,
) -> Arg<'a>
    ensures rule { rule_of result ≡ option_named name.entry.now }
    ensures local { result.global ≡ false }
{
    Arg::new(alloc, name)
        .long(name)
        .value_name(value)
        .help(help)
        .hide(is_hidden)
}

/// An option without a value.
#[tactic(auto, unfolding(crate::specs::CommandLine::flag_named))]
fn flag<'a>(alloc: Global, name: &'a str, help: &'a str, is_hidden: bool) -> Arg<'a>
    ensures rule { rule_of result ≡ flag_named name.entry.now }
    ensures local { result.global ≡ false }
{
    Arg::new(alloc, name)
        .long(name)
        .help(help)
        .action(ArgAction::SetTrue)
        .hide(is_hidden)
}

/// The words that are no option, with what the help calls them and says of them.
#[tactic(auto, unfolding(crate::specs::CommandLine::file_words))]
fn files_argument<'a>(alloc: Global, value: &'a str, help: &'a str) -> Arg<'a>
    ensures rule { rule_of result ≡ file_words }
    ensures local { result.global ≡ false }
{
    Arg::new(alloc, "files")
        .value_name(value)
        .help(help)
        .action(ArgAction::Append)
        .num_args(0..)
}

/// The command with one more argument.
fn with_argument<'a>(command: Command<'a>, argument: Arg<'a>) -> Result<Command<'a>, AllocError>
    requires argument { argument.global ≡ false }
    ensures rules { IfOk result (λ c. app_of c ≡ with_rule (app_of command.entry) (rule_of argument.entry)) }
    ensures local { IfOk result (λ c. (fields_of c).has_globals ≡ (fields_of command.entry).has_globals) }
{
    command.arg(argument)
}

/// The command with one more option that has a value, with what the help says of it.
fn with_option<'a>(
    alloc: Global,
    command: Command<'a>,
    name: &'a str,
    value: &'a str,
    help: &'a str,
    is_hidden: bool,
) -> Result<Command<'a>, AllocError>
    ensures rules { IfOk result (λ c. app_of c ≡ with_rule (app_of command.entry) (option_named name.entry.now)) }
    ensures local { IfOk result (λ c. (fields_of c).has_globals ≡ (fields_of command.entry).has_globals) }
{
    with_argument(command, option(alloc, name, value, help, is_hidden))
}

/// The command with the options of how the threads of a run go on, and how far.
#[tactic(auto, unfolding(crate::specs::CommandLine::with_run_options))]
fn with_run_options<'a>(
    alloc: Global,
    command: Command<'a>,
    is_hidden: bool,
) -> Result<Command<'a>, AllocError>
    ensures rules { IfOk result (λ c. app_of c ≡ with_options_of_run (app_of command.entry)) }
    ensures local { IfOk result (λ c. (fields_of c).has_globals ≡ (fields_of command.entry).has_globals) }
{
    let help =
        "The threads go on in this order, one event at each number; then the lowest that can";
    let command = with_option(alloc, command, "order", "N,..", help, is_hidden)?;
    let help = "The threads go on in the order of this trace's events; not with --order";
    let command = with_option(alloc, command, "replay", "TRACE", help, is_hidden)?;
    let help = "A thread that has begun so many instructions is ended; 1000000 if not given";
    let command = with_option(alloc, command, "steps", "N", help, is_hidden)?;
    let help = "A thread that looks so often at what another holds is ended; 0: never";
    with_option(alloc, command, "patience", "N", help, is_hidden)
}

/// The command with the options of main classes and their trace, and of what is explained. An option without a help is hidden.
#[tactic(auto, unfolding(crate::specs::CommandLine::with_trace))]
fn with_trace<'a>(
    alloc: Global,
    command: Command<'a>,
    trace_help: &'a str,
    explain_help: &'a str,
) -> Result<Command<'a>, AllocError>
    ensures rules { IfOk result (λ c. app_of c ≡ with_trace_options (app_of command.entry)) }
    ensures local { IfOk result (λ c. (fields_of c).has_globals ≡ (fields_of command.entry).has_globals) }
{
    let is_hidden = trace_help.is_empty();
    let help = "The main classes, as their files name them, 1 to 16: each has a thread";
    let command = with_option(alloc, command, "mains", "CLASS,..", help, is_hidden)?;
    let command = with_option(alloc, command, "trace", "FILE", trace_help, is_hidden)?;
    let is_hidden = explain_help.is_empty();
    with_argument(command, flag(alloc, "explain", explain_help, is_hidden))
}

/// What the help of a subcommand says: of the options, all of which it knows, those without words are hidden.
#[derive(Clone, Copy)]
struct Shown<'a> {
    about: &'a str,
    usage: &'a str,
    trace: &'a str,
    explain: &'a str,
    has_run_options: bool,
    has_edition: bool,
    /// What the words that are no option are called, and what they are.
    files: (&'a str, &'a str),
    /// What stands at the end.
    after: &'a str,
}

/// A subcommand.
#[tactic(auto, unfolding(crate::specs::CommandLine::subcommand_named))]
fn subcommand<'a>(alloc: Global, name: &'a str, shown: Shown<'a>) -> Result<Command<'a>, AllocError>
    ensures rules { IfOk result (λ c. app_of c ≡ subcommand_named name.entry.now) }
    ensures local { IfOk result (λ c. (fields_of c).has_globals ≡ false) }
{
    let command = Command::new(alloc, name)
        .about(shown.about)
        .override_usage(shown.usage)
        .after_help(shown.after);
    let command = with_trace(alloc, command, shown.trace, shown.explain)?;
    let command = with_run_options(alloc, command, !shown.has_run_options)?;
    let help = "JVMS edition: 7 initializes no superinterface before a class; 8 if not given";
    let command = with_option(alloc, command, "edition", "7|8", help, !shown.has_edition)?;
    let (value, help) = shown.files;
    with_argument(command, files_argument(alloc, value, help))
}

/// The program's command line without its subcommands.
#[tactic(auto, unfolding(crate::specs::CommandLine::bare_line))]
fn bare_command<'a>(alloc: Global) -> Command<'a>
    ensures { app_of result ≡ bare_line }
{
    Command::new(alloc, "jinit")
        .about("Initializes Java classes as JLS SE 8 12.4.2 demands, and tells each step")
        .version("0.1.0")
        .after_help(AFTER_ALL)
        .subcommand_required(true)
}

/// The command with one more subcommand.
fn with_command<'a>(
    command: Command<'a>,
    subcommand: Command<'a>,
) -> Result<Command<'a>, AllocError>
    requires { (fields_of subcommand).has_globals ≡ false }
    ensures { IfOk result (λ c. app_of c ≡ with_subcommand (app_of command.entry) (app_of subcommand.entry).top) }
{
    command.subcommand(subcommand)
}

/// A subcommand, with its options if the words name it: `clap` reads the others' names alone.
#[tactic(auto, unfolding(crate::specs::CommandLine::subcommand_for))]
fn subcommand_for<'a>(
    alloc: Global,
    words: &[&str],
    name: &'a str,
    shown: Shown<'a>,
) -> Result<Command<'a>, AllocError>
    ensures rules { IfOk result (λ c. app_of c ≡ subcommand_for_words (texts words.now) name.entry.now) }
    ensures local { IfOk result (λ c. (fields_of c).has_globals ≡ false) }
{
    if !holds(words, name) {
        return Ok(Command::new(alloc, name).about(shown.about));
    }
    subcommand(alloc, name, shown)
}

/// The command with the subcommand of that name.
fn with_subcommand_named<'a>(
    alloc: Global,
    command: Command<'a>,
    words: &[&str],
    name: &'a str,
    shown: Shown<'a>,
) -> Result<Command<'a>, AllocError>
    ensures { IfOk result (λ c. app_of c ≡ with_subcommand (app_of command.entry) (subcommand_for_words (texts words.now) name.entry.now).top) }
{
    let named = subcommand_for(alloc, words, name, shown)?;
    with_command(command, named)
}

/// The words that are no option, of all subcommands but `explain`.
const FILES: (&str, &str) = ("FILES", "Jasmin files, one class each; - is standard input");

/// What the help of `run` says.
fn help_of_run<'a>() -> Shown<'a> {
    Shown {
        about: "Initializes each main class on a thread of its own, with all that it needs",
        usage: "jinit run --mains <CLASS,..> [OPTIONS] [FILES]...",
        trace: "Writes every initialization step to FILE, or to standard output if it is -; check reads up to 1000000 lines and 64 MiB",
        explain: "Says in words what is at fault in the words, the files or the classes",
        has_run_options: true,
        has_edition: true,
        files: FILES,
        after: AFTER_RUN,
    }
}

/// What the help of `check` says.
fn help_of_check<'a>() -> Shown<'a> {
    Shown {
        about: "Judges whether a trace is a legal interleaving of the main classes' threads",
        usage: "jinit check --mains <CLASS,..> --trace <FILE> [OPTIONS] [FILES]...",
        trace: "The trace to judge; - is standard input",
        explain: "Says in words what is illegal, and what could have been done, or what is at fault",
        has_run_options: false,
        has_edition: true,
        files: FILES,
        after: AFTER_CHECK,
    }
}

/// What the help of `needs` says.
fn help_of_needs<'a>() -> Shown<'a> {
    Shown {
        about: "Writes for each class what is initialized before its own initializer runs",
        usage: "jinit needs [OPTIONS] [FILES]...",
        trace: "",
        explain: "Says in words what is at fault in the files or the classes",
        has_run_options: false,
        has_edition: true,
        files: FILES,
        after: AFTER_NEEDS,
    }
}

/// What the help of `explain` says.
fn help_of_explain<'a>() -> Shown<'a> {
    Shown {
        about: "Says what the code of a fault means, with an example and its repair",
        usage: "jinit explain [CODES]...",
        trace: "",
        explain: "",
        has_run_options: false,
        has_edition: false,
        files: (
            "CODES",
            "Codes of faults, as J6 or H2, or words of their lines, as mains; all are listed if none is given",
        ),
        after: AFTER_EXPLAIN,
    }
}

/// The program's command line, with the options of those subcommands alone that the words name.
#[tactic(auto, unfolding(crate::specs::CommandLine::line_for))]
pub(crate) fn command<'a>(alloc: Global, words: &[&str]) -> Result<Command<'a>, AllocError>
    ensures { IfOk result (λ c. app_of c ≡ line_for (texts words.now)) }
{
    let command = bare_command(alloc);
    let command = with_subcommand_named(alloc, command, words, "run", help_of_run())?;
    let command = with_subcommand_named(alloc, command, words, "check", help_of_check())?;
    let command = with_subcommand_named(alloc, command, words, "needs", help_of_needs())?;
    with_subcommand_named(alloc, command, words, "explain", help_of_explain())
}
