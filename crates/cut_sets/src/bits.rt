//! A list of bits of a fixed length, packed in words.
//!
//! A [`BitList`] is made with all of its bits, none of them set. Contracts see a list of `bool`.

mod bit_list;

pub use bit_list::BitList;
