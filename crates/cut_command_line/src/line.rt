ghost use Rattle.std.specs.Prelude.{◌≡◌, ℕ, [], codes, map, string_bytes, IfOk, IfErr, IfSome, IfNone};
ghost use Rattle.clap.specs.Words.{app_of, fault_of, found_of, rows_of, subcommand_rows_of};
ghost use Rattle.cut_command_line.specs.options.Options.{program_app};
ghost use Rattle.cut_command_line.specs.Line.{EndsLine, GivesFlag, GivesNumber, GivesPlan, IsSizedJob};
ghost use Rattle.cut_command_line.specs.inside.Line.{GivesJob, IsJobOf};
ghost use Rattle.cut_command_line.specs.Line.{NamesJob, status_of_kind};
ghost use Rattle.cut_command_line.specs.declared.job.Job.{Job};

use crate::job::{AskOptions, Job, MigrateOptions, RunOptions, ServeOptions};
use crate::machines::{TOO_MANY_FILES, WRONG_SHARE, join_job, share_job};
use crate::options::{
    JOIN_USAGE, LARGEST_PIECE, MOST_OF_EACH, MOST_WORKERS, SHARE_USAGE, program_commands,
};
use clap::error::ErrorKind;
use clap::{ArgMatches, Command, Error};
use std::alloc::{AllocError, Global};
use std::convert::AsStr;

/// A command line that names no job: the status with which the program ends, and the text that it
/// prints, on standard output at status 0, as for help, and else on standard error.
#[derive(Debug, Drop)]
pub struct LineFault {
    /// 0 for help, 2 for a mistake, 5 if memory ran out.
    pub status: u8,
    /// What is printed, as clap writes it; empty if memory ran out, be it for the text alone.
    pub text: String,
}

/// Reads a command line, whose first word is the program's name. There is a job only where clap finds no
/// fault in the words, and else exactly the status of what it found.
pub fn parse_line<'a, S: AsStr>(alloc: Global, words: &'a [S]) -> Result<Job<'a>, LineFault>
    ensures ok { IfOk result (λ job. NamesJob (map S.text words.now) job) }
    ensures sized { IfOk result (λ job. IsSizedJob job) }
    ensures faultless { IfOk result (λ _. fault_of program_app (map S.text words.now) ≡ []) }
    ensures err { IfErr result (λ e. EndsLine (map S.text words.now) e.status (string_bytes e.text)) }
{
    match program_commands(alloc) {
        Ok(mut command) => job_by(alloc, &mut command, words),
        Err(_) => Err(line_fault(alloc, ErrorKind::OutOfMemory, None)),
    }
}

/// Reads a command line by the program's commands.
fn job_by<'a, S: AsStr>(
    alloc: Global,
    command: &mut Command<'a>,
    words: &'a [S],
) -> Result<Job<'a>, LineFault>
    requires { app_of command.old ≡ program_app }
    ensures ok { IfOk result (λ job. NamesJob (map S.text words.now) job) }
    ensures sized { IfOk result (λ job. IsSizedJob job) }
    ensures faultless { IfOk result (λ _. fault_of program_app (map S.text words.now) ≡ []) }
    ensures err { IfErr result (λ e. EndsLine (map S.text words.now) e.status (string_bytes e.text)) }
{
    let matches = match command.try_get_matches_from_mut(words) {
        Ok(matches) => matches,
        Err(error) => return Err(line_fault(alloc, error.kind(), Some(&error))),
    };
    match job_of(alloc, &matches) {
        Ok(Some(job)) => Ok(job),
        Ok(None) => Err(wrong_value(alloc, &matches)),
        Err(_) => Err(line_fault(alloc, ErrorKind::OutOfMemory, None)),
    }
}

/// The fault of a command line in which clap found nothing, but a value that is none: a share, or one file too many.
fn wrong_value(alloc: Global, matches: &ArgMatches) -> LineFault
    ensures status { result.status ≡ status_of_kind ErrorKind.ValueValidation }
    ensures text { ErrorKind.ValueValidation ≡ ErrorKind.OutOfMemory → string_bytes result.text ≡ [] }
{
    let (name, usage, wrong) = match matches.subcommand_name() {
        Some("join") => ("join", JOIN_USAGE, TOO_MANY_FILES),
        _ => ("share", SHARE_USAGE, WRONG_SHARE),
    };
    let mut command = Command::new(alloc, name).override_usage(usage);
    let error = command.error(ErrorKind::ValueValidation, wrong).ok();
    line_fault(alloc, ErrorKind::ValueValidation, error.as_ref())
}

/// The job that the matches of a command line name.
fn job_of<'a>(alloc: Global, matches: &ArgMatches<'a>) -> Result<Option<Job<'a>>, AllocError>
    ensures some { IfOk result (λ found. IfSome found (λ job. IsJobOf (subcommand_rows_of matches.now) job)) }
    ensures sized { IfOk result (λ found. IfSome found (λ job. IsSizedJob job)) }
    ensures none { IfOk result (λ found. IfNone found
        ((job : Job) → IsJobOf (subcommand_rows_of matches.now) job → ⊥)) }
{
    let Some((name, given)) = matches.subcommand() else {
        return Ok(None);
    };
    match name {
        "join" => join_job(alloc, given),
        _ => Ok(named_job(name, given)),
    }
}

/// The job of a command other than `join`, by its name, if there is one.
fn named_job<'a>(name: &str, given: &ArgMatches<'a>) -> Option<Job<'a>>
    requires { name.now ≡ codes "join" → ⊥ }
    ensures gives { GivesJob name.now (rows_of (found_of given.now)) result }
    ensures sized { IfSome result (λ job. IsSizedJob job) }
{
    match name {
        "run" => run_job(given),
        "check" => Some(Job::Check {
            plan: plan_given(given),
        }),
        "explain" => Some(Job::Explain {
            plan: plan_given(given),
        }),
        "canonical" => Some(Job::Canonical {
            plan: plan_given(given),
        }),
        "status" => status_job(given),
        "serve" => serve_job(given),
        "ask" => ask_job(given),
        "migrate" => migrate_job(given),
        "share" => share_job(given),
        _ => None,
    }
}

/// The run that the matches of `run` give.
fn run_job<'a>(given: &ArgMatches<'a>) -> Option<Job<'a>>
    ensures gives { GivesJob (codes "run") (rows_of (found_of given.now)) result }
    ensures sized { IfSome result (λ job. IsSizedJob job) }
{
    let piece = number_given(given, "piece", LARGEST_PIECE)?;
    let workers = number_given(given, "workers", MOST_WORKERS)?;
    Some(Job::Run(RunOptions {
        piece,
        workers,
        checkpoint: given.get_str("checkpoint"),
        progress: flag_given(given, "progress"),
        plan: plan_given(given),
    }))
}

/// The report on a checkpoint that the matches of `status` give.
fn status_job<'a>(given: &ArgMatches<'a>) -> Option<Job<'a>>
    ensures gives { GivesJob (codes "status") (rows_of (found_of given.now)) result }
    ensures sized { IfSome result (λ job. IsSizedJob job) }
{
    let file = given.get_str("file")?;
    Some(Job::Status { file })
}

/// The server that the matches of `serve` give.
fn serve_job<'a>(given: &ArgMatches<'a>) -> Option<Job<'a>>
    ensures gives { GivesJob (codes "serve") (rows_of (found_of given.now)) result }
    ensures sized { IfSome result (λ job. IsSizedJob job) }
{
    let socket = given.get_str("socket")?;
    let workers = number_given(given, "workers", MOST_OF_EACH)?;
    let sessions = number_given(given, "sessions", MOST_OF_EACH)?;
    let studies = number_given(given, "studies", MOST_OF_EACH)?;
    Some(Job::Serve(ServeOptions {
        socket,
        workers,
        sessions,
        studies,
        folder: given.get_str("dir"),
    }))
}

/// The question that the matches of `ask` give.
fn ask_job<'a>(given: &ArgMatches<'a>) -> Option<Job<'a>>
    ensures gives { GivesJob (codes "ask") (rows_of (found_of given.now)) result }
    ensures sized { IfSome result (λ job. IsSizedJob job) }
{
    let socket = given.get_str("socket")?;
    Some(Job::Ask(AskOptions {
        socket,
        plan: plan_given(given),
    }))
}

/// The migration that the matches of `migrate` give.
fn migrate_job<'a>(given: &ArgMatches<'a>) -> Option<Job<'a>>
    ensures gives { GivesJob (codes "migrate") (rows_of (found_of given.now)) result }
    ensures sized { IfSome result (λ job. IsSizedJob job) }
{
    let old = given.get_str("old")?;
    let new = given.get_str("new")?;
    Some(Job::Migrate(MigrateOptions {
        old,
        new,
        plan: plan_given(given),
    }))
}

/// The number, from 1 to a greatest one, that the matches give for an option.
pub(crate) fn number_given(given: &ArgMatches, option: &str, most: u32) -> Option<u32>
    ensures some { IfSome result (λ n. GivesNumber option.now most (rows_of (found_of given.now)) n) }
    ensures none { IfNone result
        ((n : ℕ) → GivesNumber option.now most (rows_of (found_of given.now)) n → ⊥) }
{
    let number = given.get_one::<u32>(option)?;
    if number < 1 || number > most {
        return None;
    }
    Some(number)
}

/// Whether the matches give a flag.
pub(crate) fn flag_given(given: &ArgMatches, flag: &str) -> bool
    ensures { GivesFlag flag.now (rows_of (found_of given.now)) result }
{
    given.get_flag(flag)
}

/// The file of the plan that the matches give, if they give one.
pub(crate) fn plan_given<'a>(given: &ArgMatches<'a>) -> Option<&'a str>
    ensures { GivesPlan (rows_of (found_of given.now)) result }
{
    given.get_str("plan")
}

/// The fault of a command line in which clap found this, with clap's text if it has one. If memory ran out, the fault
/// has none.
fn line_fault(alloc: Global, kind: ErrorKind, error: Option<&Error>) -> LineFault
    ensures status { result.status ≡ status_of_kind kind }
    ensures text { kind ≡ ErrorKind.OutOfMemory → string_bytes result.text ≡ [] }
{
    let text = match kind {
        ErrorKind::OutOfMemory => String::new(alloc),
        _ => text_of(alloc, kind, error),
    };
    LineFault {
        status: status_of_kind(kind),
        text,
    }
}

/// What clap says of a command line in which it found this, if memory suffices for it.
fn text_of(alloc: Global, kind: ErrorKind, error: Option<&Error>) -> String {
    let text = match error {
        Some(error) => error.to_string(alloc),
        None => kind.to_string(alloc),
    };
    text.unwrap_or(String::new(alloc))
}

/// The status with which the program ends where clap found this.
fn status_of_kind(kind: ErrorKind) -> u8
    ensures { result ≡ status_of_kind kind }
{
    match kind {
        ErrorKind::OutOfMemory => 5,
        ErrorKind::DisplayHelp | ErrorKind::DisplayVersion => 0,
        _ => 2,
    }
}
