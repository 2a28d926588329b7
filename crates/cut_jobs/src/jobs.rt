//! What each job does.
ghost use Rattle.cut_server.specs.Serve.{EndsServing};
ghost use Rattle.cut_jobs.specs.Jobs.{EndsJob, PrintsOn, TellsRefused};
ghost use Rattle.cut_jobs.specs.Paths.{paths_of};

use crate::Devices;
use crate::joins::run_join;
use crate::studies::{run_with_progress, share_of, share_with_progress, study_of};
use cut_command_line::{Job, ServeOptions};
use cut_commands::{
    CliFault, MigratedFiles, PlanSource, ask, canonical_from, check_from, explain_from, migrate,
    run, status,
};
use cut_files::Files;
use cut_machines::share;
use cut_outcome::OpenGate;
use cut_server::{Capacity, SocketServer, serve_at};
use cut_sockets::Sockets;
use cut_wires::Wire;
use std::sync::Wait;
use std::thread::Threads;
use std::time::Clock;

/// The system that the program runs on.
#[derive(Drop)]
pub struct System<'a, R> {
    /// What has its memory and its clocks, and the files and the socket of a server.
    pub host: &'a HostRuntime,
    /// What makes its threads.
    pub rt: &'a R,
}

/// Does a job over files, sockets and a wire. The files of checkpoints are opened before anything is read. Progress, and
/// which file is refused, is printed on the errors if it is asked for.
pub(crate) fn answer<F, S, W, E, R>(
    devices: &mut Devices<F, S>,
    system: &System<'_, R>,
    job: Job,
    wire: &mut W,
    errors: &mut E,
) -> Result<(), CliFault>
where
    F: Files,
    S: Sockets,
    W: Wire,
    E: Wire + Send,
    R: Threads + Wait + Clock + Sync,
    ensures ends { EndsJob job.entry (paths_of F.log S.log devices.old) (paths_of F.log S.log devices.new)
        (W.log wire.old) (W.log wire.new) result }
    ensures prints { PrintsOn job.entry result (E.log errors.old) (E.log errors.new) }
    ensures tells { TellsRefused job.entry (F.log devices.old.files) (F.log devices.new.files)
        (W.log wire.old) (W.log wire.new) result (E.log errors.old) (E.log errors.new) }
{
    let alloc = system.host.alloc();
    match job {
        Job::Run(options) if options.progress => {
            run_with_progress(&mut devices.files, system, &options, wire, errors)
        }
        Job::Run(options) => {
            let study = study_of(&options, &OpenGate);
            run(&mut devices.files, system.rt, alloc, wire, study)
        }
        Job::Share(options) if options.progress => {
            share_with_progress(&mut devices.files, system, &options, wire, errors)
        }
        Job::Share(options) => {
            let work = share_of(&options, &OpenGate);
            share(&mut devices.files, system.rt, alloc, wire, work)
        }
        Job::Join(options) => run_join(&mut devices.files, alloc, &options, wire, errors),
        Job::Check { plan } => check_from(alloc, PlanSource::of(&devices.files, plan), wire),
        Job::Explain { plan } => {
            let source = PlanSource::of(&devices.files, plan);
            explain_from(alloc, system.host, source, wire)
        }
        Job::Canonical { plan } => {
            let source = PlanSource::of(&devices.files, plan);
            canonical_from(alloc, source, wire)
        }
        Job::Status { file } => status(&devices.files, alloc, wire, file),
        Job::Serve(options) => serve(system, &options, wire),
        Job::Ask(options) => {
            let source = PlanSource::of(&devices.files, options.plan);
            ask(&mut devices.sockets, alloc, source, wire, options.socket)
        }
        Job::Migrate(options) => {
            let paths = MigratedFiles {
                from: options.old,
                to: options.new,
                plan: options.plan,
            };
            migrate(&mut devices.files, alloc, wire, paths)
        }
    }
}

/// Serves clients at a socket, as a server of these options.
fn serve<W, R>(
    system: &System<'_, R>,
    options: &ServeOptions<'_>,
    wire: &mut W,
) -> Result<(), CliFault>
where
    W: Wire,
    R: Threads + Wait + Sync,
    ensures { EndsServing options.now.studies result (W.log wire.old) (W.log wire.new) }
{
    let capacity = Capacity {
        workers: options.workers,
        sessions: options.sessions,
        studies: options.studies,
    };
    let server = SocketServer {
        socket: options.socket,
        folder: options.folder,
        capacity,
    };
    let System { host, rt } = system;
    match serve_at(host, rt, server, wire) {
        Ok(_report) => Ok(()),
        Err(fault) => Err(fault),
    }
}
