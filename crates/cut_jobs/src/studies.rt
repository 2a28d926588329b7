//! Studies, and shares of them, that workers run, and those whose progress is printed on the errors.
ghost use Rattle.std.specs.Prelude.{◌≡◌};
ghost use Rattle.cut_commands.specs.Study.{EndsRun};
ghost use Rattle.cut_jobs.specs.Jobs.{EndsShareOf};
ghost use Rattle.cut_progress.specs.Printed.{HasPrinted};

use crate::jobs::System;
use cut_command_line::{RunOptions, ShareOptions};
use cut_commands::{CliFault, StudyWork, Work, run};
use cut_files::Files;
use cut_machines::{ShareWork, share};
use cut_progress::{Progress, report_while};
use cut_shares::share::Share;
use cut_wires::Wire;
use std::sync::Wait;
use std::thread::Threads;
use std::time::Clock;

/// Runs a study, and prints its progress on the errors.
pub(crate) fn run_with_progress<F, W, E, R>(
    files: &mut F,
    system: &System<'_, R>,
    options: &RunOptions<'_>,
    wire: &mut W,
    errors: &mut E,
) -> Result<(), CliFault>
where
    F: Files,
    W: Wire,
    E: Wire + Send,
    R: Threads + Wait + Clock + Sync,
    ensures ends { EndsRun options.now.checkpoint options.now.plan (F.log files.old) (F.log files.new)
        (W.log wire.old) (W.log wire.new) result }
    ensures prints { HasPrinted (E.log errors.old) (E.log errors.new) }
{
    let (rt, alloc) = (system.rt, system.host.alloc());
    let progress = Progress::new();
    let mut work = || -> Result<(), CliFault>
        ensures { EndsRun options.entry.now.checkpoint options.entry.now.plan (F.log files.entry.now)
            (F.log files.exit.now) (W.log wire.entry.now) (W.log wire.exit.now) result }
    { run(files, rt, alloc, wire, study_of(options, &progress)) };
    report_while(rt, &progress, errors, &mut work)
}

/// The study of a run, whose workers pass a gate.
pub(crate) fn study_of<'a, G>(options: &RunOptions<'a>, gate: &'a G) -> StudyWork<'a, G>
where
    ensures files { (result.checkpoint ≡ options.now.checkpoint) × (result.plan ≡ options.now.plan) }
    ensures work { (result.work.piece_size ≡ options.now.piece) × (result.work.workers ≡ options.now.workers)
        × (result.work.gate ≡ gate.entry) }
{
    StudyWork {
        work: Work {
            piece_size: options.piece,
            workers: options.workers,
            gate,
        },
        checkpoint: options.checkpoint,
        plan: options.plan,
    }
}

/// Runs a share of a study, and prints its progress on the errors.
pub(crate) fn share_with_progress<F, W, E, R>(
    files: &mut F,
    system: &System<'_, R>,
    options: &ShareOptions<'_>,
    wire: &mut W,
    errors: &mut E,
) -> Result<(), CliFault>
where
    F: Files,
    W: Wire,
    E: Wire + Send,
    R: Threads + Wait + Clock + Sync,
    ensures ends { EndsShareOf options.now (F.log files.old) (F.log files.new) (W.log wire.old) (W.log wire.new) result }
    ensures prints { HasPrinted (E.log errors.old) (E.log errors.new) }
{
    let (rt, alloc) = (system.rt, system.host.alloc());
    let progress = Progress::new();
    let mut work = || -> Result<(), CliFault>
        ensures { EndsShareOf options.entry.now (F.log files.entry.now) (F.log files.exit.now)
            (W.log wire.entry.now) (W.log wire.exit.now) result }
    { share(files, rt, alloc, wire, share_of(options, &progress)) };
    report_while(rt, &progress, errors, &mut work)
}

/// The share that is asked for, whose workers pass a gate.
pub(crate) fn share_of<'a, G>(options: &ShareOptions<'a>, gate: &'a G) -> ShareWork<'a, G>
where
    ensures files { (result.file ≡ options.now.file) × (result.plan ≡ options.now.plan) }
    ensures share { (result.share.index ≡ options.now.index) × (result.share.shares ≡ options.now.shares)
        × (result.share.block_size ≡ options.now.piece) }
    ensures work { (result.workers ≡ options.now.workers) × (result.gate ≡ gate.entry) }
{
    ShareWork {
        share: Share {
            index: options.index,
            shares: options.shares,
            block_size: options.piece,
        },
        workers: options.workers,
        gate,
        file: options.file,
        plan: options.plan,
    }
}
