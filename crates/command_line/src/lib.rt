//! What the words of the program's command line ask for, as `clap` reads them.
//!
//! Enter by [`parse`]; `specs/CommandLine` has the subcommands with their options.
#![tactic(auto)]

ghost use Rattle.std.specs.Prelude.{◌≡◌, IfOk, false};
ghost use Rattle.clap.specs.Walk.{texts};
ghost use Rattle.clap.specs.Words.{FailsBy, first_value, found_of, subcommand_rows_of};
ghost use Rattle.command_line.specs.CommandLine.{check_by, faults_in, files_found, fits_check as fits_check_of, fits_explain as fits_explain_of, fits_needs as fits_needs_of, fits_run as fits_run_of, has_few_dashes, has_mains_or_trace, has_name, has_one_dash as has_one_dash_of, has_run_options as has_run_options_of, is_set, is_text, options_found, replaces_input as replaces_input_of, request_found, request_in, request_of, request_to, rows_in, run_words_of, text_of};

mod line;

use crate::line::command;
use clap::{ArgMatches, Error};
use std::alloc::{AllocError, Global};

/// What `jinit run` asks for: all options of the command line.
#[derive(Drop)]
pub struct Run<'a> {
    /// The text of `--mains`: the main classes, separated by commas.
    pub mains: Option<&'a str>,
    /// The text of `--trace`: the file that the trace is written to.
    pub trace: Option<&'a str>,
    /// The text of `--order`: the numbers of the threads as they go on, separated by commas.
    pub order: Option<&'a str>,
    /// The text of `--replay`: the file of the trace in whose order the threads go on.
    pub replay: Option<&'a str>,
    /// The text of `--steps`: how many instructions a thread may begin.
    pub steps: Option<&'a str>,
    /// The text of `--patience`: how often a thread looks at what another holds.
    pub patience: Option<&'a str>,
    /// The text of `--edition`: the edition of JVMS by which classes are initialized.
    pub edition: Option<&'a str>,
    /// Whether `--explain` is given: a fault is reported in words too.
    pub explains: bool,
    /// The Jasmin files, in order.
    pub files: Vec<&'a str>,
}

/// What `jinit check` asks for.
#[derive(Drop)]
pub struct Check<'a> {
    /// The text of `--mains`: the main classes, separated by commas.
    pub mains: Option<&'a str>,
    /// The text of `--trace`: the file whose trace is judged.
    pub trace: &'a str,
    /// Whether `--explain` is given: what is illegal, or a fault, is reported in words too.
    pub explains: bool,
    /// The text of `--edition`: the edition of JVMS by which classes are initialized.
    pub edition: Option<&'a str>,
    /// The Jasmin files, in order.
    pub files: Vec<&'a str>,
}

/// What `jinit needs` asks for.
#[derive(Drop)]
pub struct Needs<'a> {
    /// The text of `--edition`: the edition of JVMS by which classes are initialized.
    pub edition: Option<&'a str>,
    /// Whether `--explain` is given: a fault is reported in words too.
    pub explains: bool,
    /// The Jasmin files, in order.
    pub files: Vec<&'a str>,
}

/// What the words ask for.
#[derive(Drop)]
pub enum Asked<'a> {
    /// `jinit run`.
    Run(Run<'a>),
    /// `jinit check`.
    Check(Check<'a>),
    /// `jinit needs`.
    Needs(Needs<'a>),
    /// `jinit explain`, with these codes of faults.
    Explain(Vec<&'a str>),
    /// Nothing that can be done: an option of one subcommand with another, which doesn't take it; `check` without a trace; an order beside a
    /// trace to replay; a trace that would replace a file that is read; or more than one `-`.
    Unfit {
        /// Whether `--explain` is given.
        explains: bool,
        /// What doesn't fit, in words.
        reason: &'static str,
    },
}

/// The words that are no option.
fn files_of<'a>(alloc: Global, matches: &ArgMatches<'a>) -> Result<Vec<&'a str>, AllocError>
    ensures { IfOk result (λ files. texts files.items ≡ files_found (found_of matches.now)) }
{
    match matches.get_strs("files") {
        Some(names) => names.to_vec(alloc),
        None => Ok(Vec::new(alloc)),
    }
}

/// Whether an option without a value is given.
fn is_given(matches: &ArgMatches<'_>, name: &str) -> bool
    ensures { result ≡ is_set (first_value (found_of matches.now) name.now) }
{
    match matches.get_str(name) {
        Some(text) => text == "true",
        None => false,
    }
}

/// All options, and the words that are none.
fn options_of<'a>(alloc: Global, matches: &ArgMatches<'a>) -> Result<Run<'a>, AllocError>
    ensures { IfOk result (λ options. run_words_of options ≡ options_found (found_of matches.now)) }
{
    Ok(Run {
        mains: matches.get_str("mains"),
        trace: matches.get_str("trace"),
        order: matches.get_str("order"),
        replay: matches.get_str("replay"),
        steps: matches.get_str("steps"),
        patience: matches.get_str("patience"),
        edition: matches.get_str("edition"),
        explains: is_given(matches, "explain"),
        files: files_of(alloc, matches)?,
    })
}

/// Whether a name is among those.
fn holds(names: &[&str], name: &str) -> bool
    ensures { result ≡ has_name (texts names.now) name.now }
{
    let mut rest = names;
    while let [first, after @ ..] = rest {
        if *first == name {
            return true;
        }
        rest = after;
    }
    false
}

/// Whether an option has this text.
fn is_option(option: Option<&str>, text: &str) -> bool
    ensures { result ≡ is_text (text_of option.entry) text.now }
{
    match option {
        Some(given) => given == text,
        None => false,
    }
}

/// Whether at most one of these names is a dash.
fn holds_few_dashes(names: &[&str]) -> bool
    ensures { result ≡ has_few_dashes (texts names.now) }
{
    let mut rest = names;
    while let [first, after @ ..] = rest {
        if *first == "-" {
            return !holds(after, "-");
        }
        rest = after;
    }
    true
}

impl Run<'_> {
    /// Whether the trace would replace a file that is read.
    fn replaces_input(&self) -> bool
        ensures { result ≡ replaces_input_of (run_words_of self.now) }
    {
        match self.trace {
            Some(trace) => holds(&self.files, trace) || is_option(self.replay, trace),
            None => false,
        }
    }

    /// Whether a dash is given once at most.
    fn has_one_dash(&self) -> bool
        ensures { result ≡ has_one_dash_of (run_words_of self.now) }
    {
        if is_option(self.trace, "-") {
            return !(is_option(self.replay, "-") || holds(&self.files, "-"));
        }
        if is_option(self.replay, "-") {
            return !holds(&self.files, "-");
        }
        holds_few_dashes(&self.files)
    }

    /// Whether an option is given that says how the threads of a run go on, or how far.
    fn has_run_options(&self) -> bool
        ensures { result ≡ has_run_options_of (run_words_of self.now) }
    {
        let has_order = self.order.is_some() || self.replay.is_some();
        has_order || (self.steps.is_some() || self.patience.is_some())
    }

    /// Whether an option is given that says what is run, or which trace is judged.
    fn has_mains_or_trace(&self) -> bool
        ensures { result ≡ has_mains_or_trace (run_words_of self.now) }
    {
        self.mains.is_some() || self.trace.is_some()
    }

    /// Whether `run` takes them.
    fn fits_run(&self) -> bool
        ensures { result ≡ fits_run_of (run_words_of self.now) }
    {
        let has_two_orders = self.order.is_some() && self.replay.is_some();
        !has_two_orders && (!self.replaces_input() && self.has_one_dash())
    }

    /// Whether `check` takes them.
    fn fits_check(&self) -> bool
        ensures { result ≡ fits_check_of (run_words_of self.now) }
    {
        !self.has_run_options() && self.has_one_dash()
    }

    /// Whether `needs` takes them.
    fn fits_needs(&self) -> bool
        ensures { result ≡ fits_needs_of (run_words_of self.now) }
    {
        let has_others = self.has_mains_or_trace();
        !self.has_run_options() && (!has_others && holds_few_dashes(&self.files))
    }

    /// Whether `explain` takes them.
    fn fits_explain(&self) -> bool
        ensures { result ≡ fits_explain_of (run_words_of self.now) }
    {
        let has_others = self.edition.is_some() || self.explains;
        !self.has_run_options() && (!self.has_mains_or_trace() && !has_others)
    }

    /// What doesn't fit, in words.
    fn misfit(&self, name: &str) -> &'static str {
        if name == "explain" {
            return "explain takes codes, and no options";
        }
        if name == "needs" && (self.has_run_options() || self.has_mains_or_trace()) {
            return "needs takes --edition and --explain, and no other option";
        }
        if name == "check" && self.has_run_options() {
            return "check takes no --order, no --replay, no --steps and no --patience";
        }
        if name == "check" && self.trace.is_none() {
            return "check judges the trace that --trace names, and there is no --trace";
        }
        if self.order.is_some() && self.replay.is_some() {
            return "--order and --replay both say in which order the threads go on";
        }
        if self.has_one_dash() {
            return REPLACES_INPUT;
        }
        "`-` is given more than once: it is standard input among the files and as a trace that is read, and standard output as a trace that is written"
    }
}

/// What doesn't fit where the trace would replace a file that is read.
pub const REPLACES_INPUT: &str = "the trace would replace a file that is read";

/// What is asked for of `check`.
fn check_of(options: Run<'_>) -> Asked<'_>
    ensures { request_of result ≡ check_by (run_words_of options.entry) }
{
    let Some(trace) = options.trace else {
        return Asked::Unfit {
            explains: options.explains,
            reason: options.misfit("check"),
        };
    };
    Asked::Check(Check {
        mains: options.mains,
        trace,
        explains: options.explains,
        edition: options.edition,
        files: options.files,
    })
}

/// What is asked for of the subcommand of that name, with these options and files.
fn asked_of<'a>(name: &str, options: Run<'a>) -> Asked<'a>
    ensures { request_of result ≡ request_to name.now (run_words_of options.entry) }
{
    if name == "run" && options.fits_run() {
        return Asked::Run(options);
    }
    if name == "check" && options.fits_check() {
        return check_of(options);
    }
    if name == "needs" && options.fits_needs() {
        return Asked::Needs(Needs {
            edition: options.edition,
            explains: options.explains,
            files: options.files,
        });
    }
    if name == "explain" && options.fits_explain() {
        return Asked::Explain(options.files);
    }
    Asked::Unfit {
        explains: options.explains,
        reason: options.misfit(name),
    }
}

/// What `clap` finds in the words.
fn matches_of<'a>(alloc: Global, words: &'a [&'a str]) -> Result<ArgMatches<'a>, Error>
    ensures found { IfOk result (λ m. subcommand_rows_of m ≡ rows_in (texts words.entry.now)) }
    ensures fails { FailsBy (faults_in (texts words.entry.now)) result }
{
    command(alloc, words)?.try_get_matches_from(words)
}

/// What the words ask for; the first word is the program's name.
///
/// Subcommand, options and files are those that `clap` finds in the words: `run`, `check`, `needs` and `explain` with any number of files
/// (of `explain`: codes), and with the options `--mains`, `--trace`, `--explain`, `--order`, `--replay`, `--steps`, `--patience` and
/// `--edition`. Of these `run` takes all, but `--order` or `--replay` alone, `check` all but `--order`, `--replay`, `--steps` and
/// `--patience`, and `--trace` always, `needs` `--edition` and `--explain`, and `explain` none. The trace of `run` has the name of none of
/// the files and not that of the trace to replay, and a `-` is given once at most, among the files and as a trace.
///
/// # Errors
///
/// The words are no words of that command line, or ask for help or the version: the error's text says which, and
/// its kind is the one that `clap` gives. Being out of memory is a kind of its own there.
pub fn parse<'a>(alloc: Global, words: &'a [&'a str]) -> Result<Asked<'a>, Error>
    ensures asked { IfOk result (λ asked. request_of asked ≡ request_in (texts words.entry.now)) }
    ensures fails { FailsBy (faults_in (texts words.entry.now)) result }
{
    let matches = matches_of(alloc, words)?;
    match matches.subcommand() {
        Some((name, found)) => {
            let options = options_of(alloc, found)?;
            Ok(asked_of(name, options))
        }
        None => Ok(Asked::Unfit {
            explains: false,
            reason: "",
        }),
    }
}
