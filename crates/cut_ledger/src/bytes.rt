use cut_lists::Items;

/// Some bytes. Contracts see a list.
pub type Bytes = Items<u8>;
