use cut_lists::Items;

/// The bytes that a message carries. Contracts see a list.
pub type Payload = Items<u8>;
