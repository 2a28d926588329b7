use cut_lists::Items;

/// The bytes of a write. Contracts see their list.
pub type Written = Items<u8>;

/// A call of a disk in memory that changed something.
#[derive(Debug, Drop)]
pub enum DiskCall {
    /// These bytes were written, beginning at a place.
    Write {
        /// The place of the first of them.
        at: u64,
        /// The bytes.
        put: Written,
    },
    /// A write of the places `at..stop` failed after it was begun, and left them as they were.
    Torn {
        /// The first place.
        at: u64,
        /// The place after the last.
        stop: u64,
    },
    /// A sync succeeded.
    Sync,
}
