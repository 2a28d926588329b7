//! A join of checkpoints, with or without the name of a refused one on the errors.
ghost use Rattle.std.specs.Prelude.{◌≡◌, ◌≤◌, ◌∷◌, ◌++◌, ℕ, Option, [], Some, length, map};
ghost use Rattle.std.specs.List.{flat_map};
ghost use Rattle.std.specs.Str.{chars};
ghost use Rattle.cut_machines.specs.JoinCommand.{EndsJoin};
ghost use Rattle.cut_jobs.specs.Jobs.{PrintsFileIf, PrintsRefused, TellsFileIf, file_line};
ghost use Rattle.cut_jobs.specs.Quoted.{quoted_char};
ghost use Rattle.cut_jobs.specs.inside.Printing.{WritesWhole, file_end, file_head};
ghost use Rattle.cut_jobs.specs.Sending.{IsSent};

use crate::program::report;
use crate::quoted::quoted_char;
use arrayvec::ArrayString;
use cut_command_line::JoinOptions;
use cut_commands::CliFault;
use cut_files::Files;
use cut_machines::{Joined, JoinedFiles, join};
use cut_wires::{Wire, send_all};
use itoa::Buffer;
use std::alloc::Global;

/// Joins checkpoints, and says on the errors which old one is refused, if that is asked for.
#[tactic(auto, using(crate::proofs::RefusedFiles::file_within))]
pub(crate) fn run_join<F, W, E>(
    files: &mut F,
    alloc: Global,
    options: &JoinOptions<'_>,
    wire: &mut W,
    errors: &mut E,
) -> Result<(), CliFault>
where
    F: Files,
    W: Wire,
    E: Wire,
    ensures ends { (refused : Option ℕ) × EndsJoin options.now.new.now (map (λ s. s.now) options.now.old.items)
        options.now.plan (F.log files.old) (F.log files.new) (W.log wire.old) (W.log wire.new) result refused }
    ensures prints { PrintsFileIf options.now.which options.now.old.items result (E.log errors.old) (E.log errors.new) }
    ensures tells { TellsFileIf options.now.which (map (λ s. s.now) options.now.old.items)
        (EndsJoin options.now.new.now (map (λ s. s.now) options.now.old.items) options.now.plan
        (F.log files.old) (F.log files.new) (W.log wire.old) (W.log wire.new) result)
        (E.log errors.old) (E.log errors.new) }
{
    let old = options.old.as_slice();
    let paths = JoinedFiles {
        from: old,
        to: options.new,
        plan: options.plan,
    };
    let Joined { refused, ended } = join(files, alloc, wire, paths);
    if options.which {
        if let Some(place) = refused {
            report_refused(place, old, errors);
        }
    }
    ended
}

/// Reports on `errors` which file is refused, by its place from 1. This takes no memory.
fn report_refused<E: Wire>(place: usize, files: &[&str], errors: &mut E)
    requires some { 1 ≤ place }
    requires few { place ≤ length files.now }
    ensures { PrintsRefused (map (λ s. s.now) files.now) (Some place) (E.log errors.old) (E.log errors.new) }
{
    report_file(place, files[place - 1], errors);
}

/// Reports on `errors` that the file of this place and path is refused.
fn report_file<E: Wire>(place: usize, path: &str, errors: &mut E)
    ensures { IsSent (file_line place path.now) (E.log errors.old) (E.log errors.new) }
{
    let head = file_head(place);
    match send_all(errors, head.as_bytes()) {
        Ok(()) => report_path(path, errors),
        Err(_) => {}
    }
}

/// Writes the rest of the line on `errors`: the path after its opening quote.
fn report_path<E: Wire>(path: &str, errors: &mut E)
    ensures { IsSent (flat_map quoted_char (chars path.now) ++ file_end) (E.log errors.old) (E.log errors.new) }
{
    if send_quoted(path, errors) {
        report(b"\"\n", errors);
    }
}

/// Sends the characters of a path as they stand between quotes. Returns whether all were sent.
fn send_quoted<E: Wire>(path: &str, errors: &mut E) -> bool
    ensures { WritesWhole result (flat_map quoted_char (chars path.now)) (E.log errors.old) (E.log errors.new) }
{
    for character in path.chars() {
        let piece = quoted_char(character);
        match send_all(errors, piece.as_bytes()) {
            Ok(()) => {}
            Err(_) => return false,
        }
    }
    true
}

/// What comes before the path.
fn file_head(place: usize) -> ArrayString<40>
    ensures { result.bytes ≡ file_head place }
{
    let mut head = ArrayString::new();
    let mut digits = Buffer::new();
    head.push_str("cutlab: file ");
    head.push_str(digits.format(place as u64));
    head.push_str(": \"");
    head
}
