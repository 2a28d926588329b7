//! cutlab: how often processes of a cluster propose a membership change that misses failed members,
//! for the parameters K, H and L of Rapid's cut detection.
#![tactic(auto)]

mod stand_ins;

use crate::stand_ins::StandIns;
use cut_files::SystemFiles;
use cut_jobs::{Devices, System, end_unopened, end_unread, run_words};
use cut_sockets::SystemSockets;
use cut_wires::StreamWire;
use std::alloc::Global;
use std::env::Env;
use std::process::ExitCode;
use std::{env, io};

fn main(rt: HostRuntime) -> ExitCode {
    let mut errors = StreamWire::new(io::empty(), rt.stderr());
    let Ok(_stand_ins) = StandIns::open(&rt) else {
        return ExitCode::from(end_unopened(&mut errors));
    };
    let words = match words_of(&rt) {
        Ok(words) => words,
        Err(error) => return ExitCode::from(end_unread(error.kind(), &mut errors)),
    };
    let mut wire = StreamWire::new(rt.stdin(), rt.stdout());
    let mut devices = Devices {
        files: SystemFiles::of(&rt),
        sockets: SystemSockets::of(&rt),
    };
    let system = System { host: &rt, rt: &rt };
    ExitCode::from(run_words(&mut devices, &system, &words, &mut wire, &mut errors))
}

/// The words of the command line, the program's name first.
fn words_of(rt: &(impl Env + Alloc<A = Global>)) -> io::Result<Vec<String>> {
    let words = env::args(rt)?.collect(rt.alloc())?;
    Ok(words)
}
