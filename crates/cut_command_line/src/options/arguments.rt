//! The words, options and flags of commands.

ghost use Rattle.std.specs.Prelude.{◌≡◌, false};
ghost use Rattle.clap.specs.Words.{rule_of};
ghost use Rattle.cut_command_line.specs.options.Options.{files_rule, flag_rule, option_rule, plan_rule, word_rule};
ghost use Rattle.cut_command_line.specs.options.inside.Options.{argument_rule, count_rule, piece_rule, workers_rule};

use clap::{Arg, ArgAction};
use std::alloc::Global;

/// What the help says of the file of a plan.
pub(crate) const PLAN_HELP: &str =
    "The file that the plan is read from, in place of standard input";

/// An argument of a command.
#[derive(Clone, Copy)]
pub(crate) enum Argument<'a> {
    /// A word that has to be given.
    Word {
        name: &'a str,
        value_name: &'a str,
        help: &'a str,
    },
    /// The words that name the files of checkpoints.
    Files,
    /// The word that names the file of a plan, which may be left out.
    Plan,
    /// An option with a value.
    Value {
        name: &'a str,
        value_name: &'a str,
        help: &'a str,
    },
    /// An option that says how many of something a server has.
    Count {
        name: &'a str,
        help: &'a str,
    },
    /// The option that says how many trials are run as one piece.
    Piece,
    /// The option that says how many threads work on a study.
    Workers,
    /// A flag.
    Flag {
        name: &'a str,
        help: &'a str,
    },
}

impl<'a> Argument<'a> {
    /// The argument, as clap is given it.
    pub(crate) fn in_clap(&self, alloc: Global) -> Arg<'a>
        ensures rule { rule_of result ≡ argument_rule self.entry.now }
        ensures local { result.global ≡ false }
    {
        match *self {
            Argument::Word {
                name,
                value_name,
                help,
            } => needed_word(alloc, name, value_name, help),
            Argument::Files => files_word(alloc),
            Argument::Plan => plan_word(alloc),
            Argument::Value {
                name,
                value_name,
                help,
            } => value_option(alloc, name, value_name, help),
            Argument::Count { name, help } => count_option(alloc, name, help),
            Argument::Piece => piece_option(alloc),
            Argument::Workers => workers_option(alloc),
            Argument::Flag { name, help } => flag(alloc, name, help),
        }
    }
}

/// A word that has to be given.
fn needed_word<'a>(alloc: Global, name: &'a str, value_name: &'a str, help: &'a str) -> Arg<'a>
    ensures rule { rule_of result ≡ word_rule name.entry.now }
    ensures local { result.global ≡ false }
{
    Arg::new(alloc, name)
        .value_name(value_name)
        .required(true)
        .help(help)
}

/// An option with a value.
fn value_option<'a>(alloc: Global, name: &'a str, value_name: &'a str, help: &'a str) -> Arg<'a>
    ensures rule { rule_of result ≡ option_rule name.entry.now }
    ensures local { result.global ≡ false }
{
    Arg::new(alloc, name)
        .long(name)
        .value_name(value_name)
        .help(help)
}

/// A flag.
fn flag<'a>(alloc: Global, name: &'a str, help: &'a str) -> Arg<'a>
    ensures rule { rule_of result ≡ flag_rule name.entry.now }
    ensures local { result.global ≡ false }
{
    Arg::new(alloc, name)
        .long(name)
        .action(ArgAction::SetTrue)
        .help(help)
}

/// An option that says how many of something a server has.
fn count_option<'a>(alloc: Global, name: &'a str, help: &'a str) -> Arg<'a>
    ensures rule { rule_of result ≡ count_rule name.entry.now }
    ensures local { result.global ≡ false }
{
    Arg::new(alloc, name)
        .long(name)
        .value_name("COUNT")
        .value_parser(clap::value_parser!(u32).range(1..=64))
        .required(true)
        .help(help)
}

/// The option that says how many trials are run as one piece.
fn piece_option<'a>(alloc: Global) -> Arg<'a>
    ensures rule { rule_of result ≡ piece_rule }
    ensures local { result.global ≡ false }
{
    Arg::new(alloc, "piece")
        .long("piece")
        .value_name("TRIALS")
        .value_parser(clap::value_parser!(u32).range(1..=1_000_000))
        .default_value("16")
        .help("How many trials are run as one piece, from 1 to 1000000")
}

/// The option that says how many threads work on a study.
fn workers_option<'a>(alloc: Global) -> Arg<'a>
    ensures rule { rule_of result ≡ workers_rule }
    ensures local { result.global ≡ false }
{
    Arg::new(alloc, "workers")
        .long("workers")
        .value_name("COUNT")
        .value_parser(clap::value_parser!(u32).range(1..=64))
        .default_value("1")
        .help("How many threads work on the study, from 1 to 64")
}

/// The word that names the file of a plan.
fn plan_word<'a>(alloc: Global) -> Arg<'a>
    ensures rule { rule_of result ≡ plan_rule }
    ensures local { result.global ≡ false }
{
    Arg::new(alloc, "plan").value_name("PLAN").help(PLAN_HELP)
}

/// The words that name the files of checkpoints, also with options between them. Their number is not limited here,
/// since clap would count only those that stand side by side.
fn files_word<'a>(alloc: Global) -> Arg<'a>
    ensures rule { rule_of result ≡ files_rule }
    ensures local { result.global ≡ false }
{
    Arg::new(alloc, "old")
        .num_args(1..)
        .action(ArgAction::Append)
        .value_name("OLD")
        .required(true)
        .help("The checkpoints that are joined, at most 1000, which are only read")
}
