ghost use Rattle.std.specs.Prelude.{◌≡◌, true, not, is_some, None, string_bytes, IfOk};
ghost use Rattle.cut_journal.specs.Trust.{IsTrueStore};
ghost use Rattle.cut_server.specs.inside.Shelf.{file_path};

use cut_book::{Shelf, ShelfFault};
use cut_disks::FileDisk;
use cut_journal::digest_of;
use cut_plan::Plan;
use std::alloc::{AllocError, Global};

/// Where a server keeps its studies: each in a file of a folder, if there is one.
///
/// The file is named by the SHA-256 of the plan's canonical text, so that a server which was ended goes on with a study
/// if it was once its plan comes again.
#[derive(Clone, Copy)]
pub struct FolderShelf<'a> {
    /// What opens the files.
    pub host: &'a HostRuntime,
    /// The folder.
    pub folder: Option<&'a str>,
}

impl Shelf<FileDisk> for FolderShelf<'_> {
    ghost is_true = { λ s. not (is_some s.folder) };

    ghost gives = { λ s _ given. IfOk given (λ disk. is_some disk ≡ is_some s.folder) };

    fn open(&self, alloc: Global, plan: &Plan) -> Result<Option<FileDisk>, ShelfFault>
        ensures trusted { not (is_some self.now.folder) ≡ true →
            IfOk result (λ disk. IsTrueStore (λ d. record { state = None; failed = d.failures })
            plan.now disk) }
        ensures kept { IfOk result (λ disk. is_some disk ≡ is_some self.now.folder) }
    {
        let Some(folder) = self.folder else {
            return Ok(None);
        };
        let Ok(path) = path_of(alloc, folder, plan) else {
            return Err(ShelfFault::Memory);
        };
        match FileDisk::open(self.host, path.as_str()) {
            Ok(disk) => Ok(Some(disk)),
            Err(_) => Err(ShelfFault::Open),
        }
    }
}

/// The path of the file in which the study of a plan is kept.
pub(crate) fn path_of(alloc: Global, folder: &str, plan: &Plan) -> Result<String, AllocError>
    ensures { IfOk result (λ path. string_bytes path ≡ file_path folder.now plan.now) }
{
    let text = plan.canonical(alloc)?;
    let digits = hex::encode(alloc, digest_of(text.as_slice()))?;
    let mut path = String::from_str(alloc, folder)?;
    path.push_str("/")?;
    path.push_str(digits.as_str())?;
    path.push_str(".cut")?;
    Ok(path)
}
