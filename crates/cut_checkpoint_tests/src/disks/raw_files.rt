use cut_disks::{Disk, DiskFault, FileDisk, RawFile, folder_of};
use std::io::{self, ErrorKind};
use std::test::Fail;

// A call of the system.
#[derive(Clone, Copy, PartialEq, Eq)]
enum Call {
    Kind,
    Lock,
    Folder,
    Length,
    Read(u64),
    Write(u64),
    SyncAll,
}

// A file that notes the calls that are made of it, the one that fails too.
#[derive(Drop)]
struct Noted<'a> {
    calls: &'a mut Vec<Call>,
    is_regular: bool,
    fails: Option<Call>,
}

impl Noted<'_> {
    fn note(&mut self, call: Call) -> io::Result<()> {
        if self.calls.push(call).is_err() || self.fails == Some(call) {
            return Err(ErrorKind::Other.into());
        }
        Ok(())
    }
}

impl RawFile for Noted<'_> {
    ghost use Rattle.std.specs.Prelude.{⊤};

    ghost kind_reported = { λ _ _ _. ⊤ };

    ghost locked = { λ _ _. ⊤ };

    ghost synced_folder = { λ _ _. ⊤ };

    ghost length_reported = { λ _ _ _. ⊤ };

    ghost was_read = { λ _ _ _ _. ⊤ };

    ghost wrote = { λ _ _ _ _. ⊤ };

    ghost synced_all = { λ _ _. ⊤ };

    fn is_regular(&mut self) -> io::Result<bool> {
        self.note(Call::Kind)?;
        Ok(self.is_regular)
    }

    fn try_lock(&mut self) -> io::Result<()> {
        self.note(Call::Lock)
    }

    fn sync_folder(&mut self) -> io::Result<()> {
        self.note(Call::Folder)
    }

    fn length(&mut self) -> io::Result<u64> {
        self.note(Call::Length)?;
        Ok(4)
    }

    fn read_exact_at(&mut self, _into: &mut [u8], at: u64) -> io::Result<()> {
        self.note(Call::Read(at))
    }

    fn write_all_at(&mut self, _put: &[u8], at: u64) -> io::Result<()> {
        self.note(Call::Write(at))
    }

    fn sync_all(&mut self) -> io::Result<()> {
        self.note(Call::SyncAll)
    }
}

// Whether a file is a regular one, which call of it fails, and how many calls its opening makes.
type Row = (bool, Option<Call>, usize);

const OPENINGS: [Row; 5] = [
    (true, None, 3),
    (true, Some(Call::Folder), 3),
    (true, Some(Call::Lock), 2),
    (true, Some(Call::Kind), 1),
    (false, None, 1),
];

// Whether a file is opened by as many of the three calls, and one that is no regular one, or fails, is refused.
fn is_opening(calls: &mut Vec<Call>, (is_regular, fails, count): Row) -> bool {
    calls.clear();
    let file = Noted {
        calls: &mut *calls,
        is_regular,
        fails,
    };
    let is_open = FileDisk::over(file).is_ok();
    let all = [Call::Kind, Call::Lock, Call::Folder];
    is_open == (is_regular && fails.is_none()) && Some(calls.as_slice()) == all.get(..count)
}

#[test]
fn a_file_is_opened_with_its_folder(rt: HostRuntime) {
    for row in OPENINGS {
        assert!(rt; is_opening(&mut Vec::new(rt.alloc()), row));
    }
}

// Whether a call of each kind succeeds, and a second sync too.
fn calls_succeed(disk: &mut FileDisk<Noted<'_>>) -> Result<bool, DiskFault> {
    let length = disk.length()?;
    disk.read(1, &mut [0; 3])?;
    disk.write_at(2, b"xyz")?;
    disk.sync()?;
    disk.sync()?;
    Ok(length == 4 && disk.failures() == 0)
}

#[test]
fn each_call_of_a_file_is_one_of_the_system(rt: HostRuntime) -> Result<(), Fail> {
    let mut calls = Vec::new(rt.alloc());
    let file = Noted {
        calls: &mut calls,
        is_regular: true,
        fails: None,
    };
    assert!(rt; calls_succeed(&mut FileDisk::over(file)?)?);
    let all = [
        Call::Kind,
        Call::Lock,
        Call::Folder,
        Call::Length,
        Call::Read(1),
        Call::Write(2),
        Call::SyncAll,
        Call::SyncAll,
    ];
    assert!(rt; calls.as_slice() == all.as_slice());
    Ok(())
}

// Whether a sync that fails is reported, and counted.
fn sync_fails(disk: &mut FileDisk<Noted<'_>>) -> bool {
    disk.sync() == Err(DiskFault) && disk.failures() == 1
}

#[test]
fn a_sync_of_a_file_fails(rt: HostRuntime) -> Result<(), Fail> {
    let mut calls = Vec::new(rt.alloc());
    let file = Noted {
        calls: &mut calls,
        is_regular: true,
        fails: Some(Call::SyncAll),
    };
    assert!(rt; sync_fails(&mut FileDisk::over(file)?));
    Ok(())
}

#[test]
fn the_folder_of_a_file(rt: HostRuntime) {
    for (path, folder) in [
        ("a/b/c", "a/b"),
        ("a", "."),
        ("/a", "/"),
        ("./a", "."),
        ("/", "."),
    ] {
        assert!(rt; folder_of(path).as_str() == folder);
    }
}
