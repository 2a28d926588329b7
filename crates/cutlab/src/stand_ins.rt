use std::fs::{File, OpenOptions};
use std::io;
use std::os::fd::AsFd;

/// What stands in for the standard streams that are closed where the program begins: `/dev/null`, opened for reading and
/// writing. A file that is opened gets the lowest number that is free. Without these, a checkpoint would get that of a
/// closed stream, and what is printed there would be written over it.
#[derive(Drop)]
pub(crate) struct StandIns {
    input: Option<File>,
    output: Option<File>,
    errors: Option<File>,
}

impl StandIns {
    /// Opens `/dev/null` for each closed stream, in the order of their numbers, before any other file is opened.
    pub(crate) fn open(rt: &HostRuntime) -> io::Result<StandIns> {
        let input = stand_in(rt, &rt.stdin())?;
        let output = stand_in(rt, &rt.stdout())?;
        let errors = stand_in(rt, &rt.stderr())?;
        Ok(StandIns {
            input,
            output,
            errors,
        })
    }
}

/// What stands in for a stream, if it is closed: it has no number then that could be duplicated.
fn stand_in<S: AsFd>(rt: &HostRuntime, stream: &S) -> io::Result<Option<File>> {
    if stream.as_fd().try_clone_to_owned().is_ok() {
        return Ok(None);
    }
    let null = OpenOptions::new()
        .read(true)
        .write(true)
        .open(rt, "/dev/null")?;
    Ok(Some(null))
}
