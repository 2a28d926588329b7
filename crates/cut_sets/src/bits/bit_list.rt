ghost use Rattle.std.specs.Prelude.{◌≡◌, ◌<◌, true, false, length, slice_get, slice_set, replicate, IfOk};

use std::alloc::{AllocError, Global};
use std::marker::Model;

/// How many bits a word has.
const WORD_BITS: u64 = 64;

/// A list of bits of a fixed length, each of which can be set. Contracts see a list of `bool`.
#[derive(Debug, Drop)]
pub struct BitList {
    words: Vec<u64>,
    len: u64,
}

impl Model for BitList {
    ghost use Rattle.std.specs.Prelude.{List, Bool, vec_len};
    ghost use Rattle.cut_sets.specs.bits.inside.Bits.{bits_of, IsBitList};

    ghost Value = { List Bool };

    ghost view = { λ b. bits_of b.words.items b.len };

    ghost invariant = { λ b. IsBitList (vec_len b.words) b.len };
}

impl BitList {
    /// A list of `len` bits, none of them set. It takes eight bytes for each 64 bits, rounded up.
    pub fn new(alloc: Global, len: u64) -> Result<BitList, AllocError>
        ensures { IfOk result (λ bits. bits ≡ replicate len false) }
    {
        let words = vec![in alloc; 0; len.div_ceil(WORD_BITS) as usize]?;
        Ok(BitList { words, len })
    }

    /// How many bits the list has.
    pub fn len(&self) -> u64
        ensures { result ≡ length self.now }
    {
        self.len
    }

    /// The bit at a place, counted from 0, or `None` past the end.
    pub fn get(&self, place: u64) -> Option<bool>
        ensures { result ≡ slice_get self.now place }
    {
        if place >= self.len {
            return None;
        }
        let word = self.words[(place / WORD_BITS) as usize];
        Some(word >> (place % WORD_BITS) & 1 == 1)
    }

    /// Sets the bit at a place, counted from 0. Takes no memory.
    pub fn set(&mut self, place: u64)
        requires { place < length self.old }
        ensures { self.new ≡ slice_set self.old place true }
    {
        let at = (place / WORD_BITS) as usize;
        self.words[at] = self.words[at] | (1 << (place % WORD_BITS));
    }
}
