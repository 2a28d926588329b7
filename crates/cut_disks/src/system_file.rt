ghost use Rattle.std.specs.Prelude.{◌≡◌};
ghost use Rattle.std.specs.Path.{path_bytes, path_parent};
ghost use Rattle.cut_disks.specs.Folders.{folder_text};

use crate::{DiskFault, FileDisk, RawFile};
use std::fs::{self, File, Files, OpenOptions};
use std::io::{self, ErrorKind};
use std::os::unix::fs::FileExt;
use std::path::Path;

/// A file of the system, and its folder. Each call is passed on to the system's call of the same name.
///
/// That it is this call has to be trusted. The library's contracts say nothing of a file's calls, so each ghost member
/// below holds of any two values, and a body that did nothing would be proved as well. Each body is one line, and so is
/// what `open` adds: the flags by which a file is opened, and the path of its folder. Tests on real files cover them.
#[derive(Drop)]
pub struct SystemFile {
    file: File,
    folder: File,
}

impl SystemFile {
    /// Opens a file and its folder, and creates the file if there is none. What stands at the path is checked first.
    pub fn open<R: Files<File = File>>(rt: &R, path: &str) -> io::Result<SystemFile> {
        match check_regular(rt, path) {
            Err(error) if error.kind() != ErrorKind::NotFound => return Err(error),
            _ => {}
        }
        let file = OpenOptions::new()
            .read(true)
            .write(true)
            .create(true)
            .truncate(false)
            .open(rt, path)?;
        SystemFile::in_folder(rt, file, path)
    }

    /// Opens an existing file, for reading alone, and its folder.
    pub fn open_existing<R: Files<File = File>>(rt: &R, path: &str) -> io::Result<SystemFile> {
        let file = open_regular(rt, path)?;
        SystemFile::in_folder(rt, file, path)
    }

    /// A file that was opened at a path, and its folder, which is opened.
    fn in_folder<R: Files<File = File>>(rt: &R, file: File, path: &str) -> io::Result<SystemFile> {
        let folder = fs::open(rt, folder_of(path))?;
        Ok(SystemFile { file, folder })
    }
}

impl FileDisk {
    /// Opens the regular file at a path, or creates an empty one, and holds the lock on it (`File::try_lock`) until the
    /// disk is dropped.
    ///
    /// Its folder is synced each time (`File::sync_all` of the folder), so that the entry is durable even if an earlier
    /// call created the file and was killed before it synced the folder. It fails if something else than a regular file
    /// stands there, if the file can't be read and written, if another program holds the lock, and if the folder can't
    /// be synced. A call that fails may leave a new, empty file; a file that was there is not changed.
    ///
    /// No clause says this, as none can for a `SystemFile`. But the fields of a disk are private to the module of
    /// `over`, so every disk here is made by that call, whose clause `ready` holds for each file.
    pub fn open(rt: &HostRuntime, path: &str) -> Result<FileDisk, DiskFault> {
        match SystemFile::open(rt, path) {
            Ok(file) => FileDisk::over(file),
            Err(_) => Err(DiskFault),
        }
    }

    /// Opens an existing regular file for reading alone, and holds the lock on it, as `open` does. No file is created,
    /// and the file need not be writable: each write of the disk fails.
    pub fn open_existing(rt: &HostRuntime, path: &str) -> Result<FileDisk, DiskFault> {
        match SystemFile::open_existing(rt, path) {
            Ok(file) => FileDisk::over(file),
            Err(_) => Err(DiskFault),
        }
    }
}

/// Opens the regular file at a path for reading alone. What stands there is checked first, since opening a pipe would
/// wait for a writer.
pub fn open_regular<R: Files<File = File>>(rt: &R, path: &str) -> io::Result<File> {
    check_regular(rt, path)?;
    fs::open(rt, path)
}

/// Fails unless a regular file stands at the path.
fn check_regular<R: Files>(rt: &R, path: &str) -> io::Result<()> {
    if rt.metadata(path)?.is_file() {
        Ok(())
    } else {
        Err(ErrorKind::Unsupported.into())
    }
}

/// The folder in which a file has its entry.
pub fn folder_of(path: &str) -> Path<'_>
    ensures { path_bytes result ≡ folder_text (path_parent path.now) }
{
    match Path::new(path).parent() {
        Some(folder) if !folder.as_str().is_empty() => folder,
        _ => Path::new("."),
    }
}

impl RawFile for SystemFile {
    ghost use Rattle.std.specs.Prelude.{⊤};

    ghost kind_reported = { λ _ _ _. ⊤ };

    ghost locked = { λ _ _. ⊤ };

    ghost synced_folder = { λ _ _. ⊤ };

    ghost length_reported = { λ _ _ _. ⊤ };

    ghost was_read = { λ _ _ _ _. ⊤ };

    ghost wrote = { λ _ _ _ _. ⊤ };

    ghost synced_all = { λ _ _. ⊤ };

    fn is_regular(&mut self) -> io::Result<bool> {
        Ok(self.file.metadata()?.is_file())
    }

    fn try_lock(&mut self) -> io::Result<()> {
        self.file.try_lock()?;
        Ok(())
    }

    fn sync_folder(&mut self) -> io::Result<()> {
        self.folder.sync_all()
    }

    fn length(&mut self) -> io::Result<u64> {
        Ok(self.file.metadata()?.len())
    }

    fn read_exact_at(&mut self, into: &mut [u8], at: u64) -> io::Result<()> {
        self.file.read_exact_at(into, at)
    }

    fn write_all_at(&mut self, put: &[u8], at: u64) -> io::Result<()> {
        self.file.write_all_at(put, at)
    }

    fn sync_all(&mut self) -> io::Result<()> {
        self.file.sync_all()
    }
}
