use cut_disks::{RawFile, SystemFile};
use std::alloc::Allocator;
use std::fs::{self, File, Files, Metadata, OpenOptions};
use std::io::{self, ErrorKind};
use std::test::Fail;

const FOLDER: &str = "cut_system_files_test";

const FILE: &str = "cut_system_files_test/file";

// A device, which can't be synced.
const DEVICE: &str = "/dev/null";

// The system, but for one path: if that is to be opened, the device is.
#[derive(Clone, Copy)]
struct Swapping<'a> {
    host: &'a HostRuntime,
    swapped: &'a str,
}

impl Files for Swapping<'_> {
    type File = File;

    type Dir = <HostRuntime as Files>::Dir;

    fn open_file(&self, how: &OpenOptions, path: &str) -> io::Result<File> {
        if path == self.swapped {
            return fs::open(self.host, DEVICE);
        }
        self.host.open_file(how, path)
    }

    fn open_dir(&self, _path: &str) -> io::Result<Self::Dir> {
        Err(ErrorKind::Unsupported.into())
    }

    fn metadata(&self, path: &str) -> io::Result<Metadata> {
        self.host.metadata(path)
    }

    fn symlink_metadata(&self, _path: &str) -> io::Result<Metadata> {
        Err(ErrorKind::Unsupported.into())
    }

    fn copy(&self, _from: &str, _to: &str) -> io::Result<u64> {
        Err(ErrorKind::Unsupported.into())
    }

    fn rename(&self, _from: &str, _to: &str) -> io::Result<()> {
        Err(ErrorKind::Unsupported.into())
    }

    fn remove_file(&self, _path: &str) -> io::Result<()> {
        Err(ErrorKind::Unsupported.into())
    }

    fn create_dir(&self, _path: &str) -> io::Result<()> {
        Err(ErrorKind::Unsupported.into())
    }

    fn remove_dir(&self, _path: &str) -> io::Result<()> {
        Err(ErrorKind::Unsupported.into())
    }

    fn remove_dir_all<B: Allocator>(&self, _alloc: B, _path: &str) -> io::Result<()> {
        Err(ErrorKind::Unsupported.into())
    }
}

// What is in place of the file, or of its folder: whether it is then a regular file, and can be synced, and its folder.
type Row = (&'static str, bool, bool, bool);

const SWAPPED: [Row; 3] = [
    (DEVICE, true, true, true),
    (FILE, false, false, true),
    (FOLDER, true, true, false),
];

// Whether a file answers as a row says.
fn answers_so(file: &mut SystemFile, (_, is_regular, is_synced, is_folder_synced): Row) -> bool {
    matches!(file.is_regular(), Ok(found) if found == is_regular)
        && file.sync_all().is_ok() == is_synced
        && file.sync_folder().is_ok() == is_folder_synced
}

#[test]
fn a_file_of_the_system_has_the_folder_of_its_path(rt: HostRuntime) -> Result<(), Fail> {
    let _ = fs::remove_dir_all(&rt, FOLDER);
    fs::create_dir(&rt, FOLDER)?;
    for row in SWAPPED {
        let system = Swapping {
            host: &rt,
            swapped: row.0,
        };
        assert!(rt;
            answers_so(&mut SystemFile::open(&system, FILE)?, row),
            "{}",
            row.0
        );
        assert!(rt;
            answers_so(&mut SystemFile::open_existing(&system, FILE)?, row),
            "{}",
            row.0
        );
    }
    Ok(fs::remove_dir_all(&rt, FOLDER)?)
}
