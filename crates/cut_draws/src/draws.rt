ghost use Rattle.std.specs.Prelude.{◌≡◌, ◌+◌, ◌^◌, ◌<◌};
ghost use Rattle.cut_draws.specs.Source.{source_of, key_at};

use rand_chacha::ChaCha8Rng;
use rand_core::SeedableRng;
use rand_core::utils::NextWord;
use std::marker::Model;

/// How many words a block has.
const BLOCK: u64 = 16;
/// How many words the generator computes at once, from the start of a block.
const COMPUTED: u64 = 64;

/// The draws of one trial. Contracts see the key and the stream of the words. The generator's position is not seen,
/// since a draw depends only on its place.
#[derive(Debug, Drop)]
pub struct Draws {
    words: ChaCha8Rng,
    /// Where the generator stands.
    here: u64,
    /// The end of the words that the generator has computed.
    end: u64,
}

impl Model for Draws {
    ghost use Rattle.cut_draws.specs.Source.{Source};

    ghost Value = { Source };

    ghost view = { λ d. record { key = d.words.key; stream = d.words.stream } };

    ghost use Rattle.std.specs.Prelude.{◌≡◌};

    ghost invariant = { λ d. d.words.word_pos ≡ d.here };
}

impl Draws {
    /// The draws of a trial, from the plan's seed: the seed is the cipher's key, the trial's number its
    /// stream (this project's profile).
    pub fn new(seed: [u8; 32], trial: u32) -> Draws
        ensures { result ≡ source_of seed trial }
    {
        let mut words = ChaCha8Rng::from_seed(seed);
        words.set_stream(u64::from(trial));
        Draws {
            words,
            here: 0,
            end: 0,
        }
    }

    /// The key at a place below 2^32: the word there, as the high half, and the next word (words as in
    /// RFC 8439, with 8 rounds). Places that follow one another cost no search.
    #[inline(always)]
    pub fn key(&mut self, place: u64) -> u64
        requires { place < 2 ^ 32 }
        ensures value { result ≡ key_at self.old place }
        ensures same { self.new ≡ self.old }
    {
        if place != self.here || place >= self.end {
            self.end = seek(&mut self.words, self.here, self.end, place);
        }
        self.here = place + 2;
        let high = u64::from(self.words.next_word());
        let low = u64::from(self.words.next_word());
        high * 4_294_967_296 + low
    }
}

/// Moves a generator to `place`, and returns the end of the words that it has computed then. Words that it has computed
/// are skipped step by step. `end` and the returned value are hints for speed alone and change no key.
#[inline(never)]
fn seek(words: &mut ChaCha8Rng, here: u64, end: u64, place: u64) -> u64
    requires here { words.old.word_pos ≡ here }
    requires place { place < 2 ^ 32 }
    ensures { words.new ≡ record words.old { word_pos = place } }
{
    if here <= place && place < end {
        skip(words, place - here);
        return end;
    }
    words.set_word_pos(u128::from(place));
    place / BLOCK * BLOCK + COMPUTED
}

/// Skips some words of a generator.
#[inline]
fn skip(words: &mut ChaCha8Rng, count: u64)
    requires { words.old.word_pos + count < 2 ^ 68 }
    ensures { words.new ≡ record words.old { word_pos = words.old.word_pos + count } }
{
    for _i in 0..count {
        words.next_word();
    }
}
