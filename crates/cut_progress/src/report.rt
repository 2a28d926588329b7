ghost use Rattle.cut_wires.specs.Log.{SendsAll};
ghost use Rattle.cut_progress.specs.Lines.{line_text};
ghost use Rattle.cut_progress.specs.Printed.{HasPrinted};

use crate::{Progress, ProgressLine};
use cut_wires::{Sent, Wire, send_all};
use std::sync::Wait;
use std::thread::{Threads, join_mut};
use std::time::{Clock, Instant};

/// Does some work in this thread, and prints the progress of the study in it on a wire meanwhile, from a thread of its
/// own: a line each second from its beginning on, and one at its end.
///
/// If no thread can be made, only the last line is printed. Work in which no study begins has none, and none comes
/// after a write that failed, or once the clock can't be read. This takes no memory of its own.
pub fn report_while<E, R, F, T>(rt: &R, progress: &Progress, errors: &mut E, work: &mut F) -> T
where
    E: Wire + Send,
    R: Threads + Wait + Clock + Sync,
    F: FnMut() -> T,
    requires { F.pre work.old }
    ensures work { F.step work.old result work.new }
    ensures lines { HasPrinted (E.log errors.old) (E.log errors.new) }
{
    let mut print = ||
        ensures { HasPrinted (E.log errors.entry.now) (E.log errors.exit.now) }
    { print_lines(rt, progress, errors) };
    let mut work_to_the_end = || -> T
        requires { F.pre work.now }
        ensures { F.step work.entry.now result work.exit.now }
    {
        let result = work();
        progress.end(rt);
        result
    };
    let (_, result) = join_mut(rt, &mut print, &mut work_to_the_end);
    result
}

/// Prints a line each second from the beginning of a study on, and one at its end.
pub(crate) fn print_lines<E, R>(rt: &R, progress: &Progress, wire: &mut E)
where
    E: Wire,
    R: Wait + Clock,
    ensures { HasPrinted (E.log wire.old) (E.log wire.new) }
{
    let Some(mut counts) = progress.wait_for_begin(rt) else {
        return;
    };
    let Ok(begun) = Instant::now(rt) else {
        return;
    };
    'lines: for _ in rt.forever() {
        counts = counts.then(progress.wait_a_second(rt));
        let Ok(time) = begun.elapsed(rt) else {
            return;
        };
        let Ok(()) = print_line(&counts.line(time.as_secs()), wire) else {
            return;
        };
        if counts.has_ended() {
            return;
        }
    }
    unreachable!()
}

/// Prints a line.
fn print_line<E: Wire>(line: &ProgressLine, wire: &mut E) -> Result<(), Sent>
    ensures { SendsAll result (line_text line.now) (E.log wire.old) (E.log wire.new) }
{
    let text = line.text();
    send_all(wire, text.as_bytes())
}
