//! The program, over its words and wires.
ghost use Rattle.std.specs.Prelude.{map, string_bytes, Err};
ghost use Rattle.cut_jobs.specs.Program.{EndsProgram, ReportsEnd, ReportsLine, ReportsUnread};
ghost use Rattle.cut_jobs.specs.Paths.{paths_of};
ghost use Rattle.cut_jobs.specs.Sending.{IsSent};

use crate::Devices;
use crate::jobs::{System, answer};
use cut_command_line::{LineFault, parse_line};
use cut_commands::CliFault;
use cut_files::Files;
use cut_journal::JournalFault;
use cut_sockets::Sockets;
use cut_wires::{Wire, send_all};
use std::io::ErrorKind;
use std::sync::Wait;
use std::thread::Threads;
use std::time::Clock;

/// The line of a word that is not UTF-8.
const UNREADABLE_LINE: &[u8] = b"error: a word of the command line is not UTF-8\n";

/// The program: it does what the words ask for, the first of which is its own name, and returns the status with which
/// it ends.
///
/// A command reads its plan from `wire`, or from a file that is named, and writes its answer to `wire`; its fault is
/// one line on `errors`, from which nothing is read, after the lines of progress, or that of a refused file, if these
/// are asked for. Help goes to `wire`, what is wrong with the words to `errors`, both as clap writes them. The files of
/// plans and checkpoints, and the sockets of servers that are asked, are those of `devices`. The files and the socket of
/// a server that is run are the system's.
pub fn run_words<F, S, R, W, E>(
    devices: &mut Devices<F, S>,
    system: &System<'_, R>,
    words: &[String],
    wire: &mut W,
    errors: &mut E,
) -> u8
where
    F: Files,
    S: Sockets,
    R: Threads + Wait + Clock + Sync,
    W: Wire,
    E: Wire + Send,
    ensures { EndsProgram (map string_bytes words.now) (paths_of F.log S.log devices.old)
        (paths_of F.log S.log devices.new) (W.log wire.old) (W.log wire.new) (E.log errors.old) (E.log errors.new)
        result }
{
    match parse_line(system.host.alloc(), words) {
        Ok(job) => {
            let ended = answer(devices, system, job, wire, errors);
            report_status(ended, errors)
        }
        Err(fault) => report_line_fault(&fault, wire, errors),
    }
}

/// Reports a command's fault on `errors` and returns the exit status.
fn report_status<E: Wire>(ended: Result<(), CliFault>, errors: &mut E) -> u8
    ensures { ReportsEnd ended (E.log errors.old) (E.log errors.new) result }
{
    match ended {
        Ok(()) => 0,
        Err(fault) => end_fault(&fault, errors),
    }
}

/// Reports a fault by its line and returns its exit status. This takes no memory.
fn end_fault<E: Wire>(fault: &CliFault, errors: &mut E) -> u8
    ensures { ReportsEnd (Err fault.now) (E.log errors.old) (E.log errors.new) result }
{
    let mut line = fault.text();
    line.push_str("\n");
    report(line.as_bytes(), errors);
    fault.status()
}

/// Ends where the words name no job: help goes to the output, and a mistake to the errors.
fn report_line_fault<W: Wire, E: Wire>(fault: &LineFault, wire: &mut W, errors: &mut E) -> u8
    ensures { ReportsLine fault.now.status (string_bytes fault.now.text)
        (W.log wire.old) (W.log wire.new) (E.log errors.old) (E.log errors.new) result }
{
    let text = fault.text.as_bytes();
    if text.is_empty() {
        return end_fault(&CliFault::Memory, errors);
    }
    if fault.status == 0 {
        return match send_all(wire, text) {
            Ok(()) => 0,
            Err(fault) => end_fault(&CliFault::Write(fault), errors),
        };
    }
    report(text, errors);
    fault.status
}

/// Ends if the words can't be read: one of them is not UTF-8, or memory for them was refused.
pub fn end_unread<E: Wire>(kind: ErrorKind, errors: &mut E) -> u8
    ensures { ReportsUnread kind (E.log errors.old) (E.log errors.new) result }
{
    match kind {
        ErrorKind::InvalidData => {
            report(UNREADABLE_LINE, errors);
            2
        }
        _ => end_fault(&CliFault::Memory, errors),
    }
}

/// Ends where a file that the program needs before anything else did not open.
pub fn end_unopened<E: Wire>(errors: &mut E) -> u8
    ensures { ReportsEnd (Err (CliFault.Journal JournalFault.Disk)) (E.log errors.old) (E.log errors.new) result }
{
    end_fault(&CliFault::Journal(JournalFault::Disk), errors)
}

/// Writes a text, as far as the wire takes it.
pub(crate) fn report<E: Wire>(text: &[u8], errors: &mut E)
    ensures { IsSent text.now (E.log errors.old) (E.log errors.new) }
{
    let _ = send_all(errors, text);
}
