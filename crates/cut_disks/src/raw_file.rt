ghost use Rattle.std.specs.Prelude.{ℕ, List, Bool, IfOk, OnOk};

use std::io;

/// The calls of the system on an open file and on its folder.
///
/// Each ghost member says what one successful call did, between the value before it and the value after it. Nothing
/// else is known of them. So a clause that says one of them of two values says that this call was made, once, and no
/// other.
pub trait RawFile {
    /// The kind of the file was returned: whether it is a regular one.
    ghost kind_reported: { Self → Bool → Self → Type 0 };

    /// The lock on the file was taken.
    ghost locked: { Self → Self → Type 0 };

    /// The folder was synced.
    ghost synced_folder: { Self → Self → Type 0 };

    /// The length was returned.
    ghost length_reported: { Self → ℕ → Self → Type 0 };

    /// These bytes were read, all of them, from this place on.
    ghost was_read: { Self → ℕ → List ℕ → Self → Type 0 };

    /// These bytes were written, all of them, from this place on.
    ghost wrote: { Self → ℕ → List ℕ → Self → Type 0 };

    /// The bytes and the length were synced.
    ghost synced_all: { Self → Self → Type 0 };

    /// Whether it is a regular file.
    fn is_regular(&mut self) -> io::Result<bool>
        ensures { IfOk result (λ is_regular. kind_reported self.old is_regular self.new) };

    /// Takes the lock on the file, unless it is held.
    fn try_lock(&mut self) -> io::Result<()>
        ensures { OnOk result (locked self.old self.new) };

    /// Makes the file's entry in its folder durable.
    fn sync_folder(&mut self) -> io::Result<()>
        ensures { OnOk result (synced_folder self.old self.new) };

    /// How many bytes there are.
    fn length(&mut self) -> io::Result<u64>
        ensures { IfOk result (λ n. length_reported self.old n self.new) };

    /// Fills `into` with the bytes from `at` on.
    fn read_exact_at(&mut self, into: &mut [u8], at: u64) -> io::Result<()>
        ensures { OnOk result (was_read self.old at into.new self.new) };

    /// Writes all bytes from `at` on.
    fn write_all_at(&mut self, put: &[u8], at: u64) -> io::Result<()>
        ensures { OnOk result (wrote self.old at put.now self.new) };

    /// Makes the bytes and the length durable.
    fn sync_all(&mut self) -> io::Result<()>
        ensures { OnOk result (synced_all self.old self.new) };
}
