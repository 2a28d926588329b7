ghost use Rattle.std.specs.Prelude.{◌≡◌, ◌+◌, ◌*◌, ◌/◌, ◌%◌, ◌^◌, ◌<◌, ◌≤◌, [], ◌++◌, map, All, OnOk};
ghost use Rattle.std.specs.Prelude.{OnErr, length};
ghost use Rattle.cut_draws.specs.Source.{source_of, word_of};
ghost use Rattle.cut_arrivals.specs.blocks.inside.States.{AreFirstStates};
ghost use Rattle.cut_arrivals.specs.blocks.Images.{eight, image_at, place_in, least_image};

use crate::blocks::images::{Eight, NEVER, images_of, lesser_of};
use crate::blocks::rounds::{States, eight_rounds, sum, with_blocks};
use rand_core::utils::read_u32;
use std::alloc::AllocError;
use std::marker::Model;
use std::simd::u32x4;

/// How many blocks one copy's keys are after those of the copy before.
const COPY: u32 = 1 << 24;

/// The rows of four receivers: where the keys of the first copy begin in each, and how many copies there are.
#[derive(Clone, Copy)]
struct Rows {
    first: u32x4,
    copies: u32,
    ghost few: { copies ≤ 4 },
    ghost four: { length first ≡ 4 },
    ghost within: { All (λ row. row < 2 ^ 27) first },
}

/// The blocks of one trial's keys. Contracts see the key and the stream of the cipher, as those of
/// [`Draws`](cut_draws::Draws) do.
#[derive(Debug, Drop)]
pub struct Blocks {
    key: [u32; 8],
    stream: u64,
}

impl Model for Blocks {
    ghost use Rattle.cut_draws.specs.Source.{Source};

    ghost Value = { Source };

    ghost view = { λ b. record { key = b.key; stream = b.stream } };
}

impl Blocks {
    /// The blocks of a trial: the plan's seed is the cipher's key, the trial's number its stream (this project's
    /// profile).
    pub fn new(seed: [u8; 32], trial: u32) -> Blocks
        ensures { result ≡ source_of seed trial }
    {
        let key = [
            read_u32(&seed, 0),
            read_u32(&seed, 1),
            read_u32(&seed, 2),
            read_u32(&seed, 3),
            read_u32(&seed, 4),
            read_u32(&seed, 5),
            read_u32(&seed, 6),
            read_u32(&seed, 7),
        ];
        Blocks {
            key,
            stream: u64::from(trial),
        }
    }

    /// Draws images for four receivers, in whose rows the keys of the first copy begin: for each of these blocks, so
    /// far from a row's beginning, and for each of its eight keys the least image over the copies, or [`NEVER`] if
    /// there are none. What stood in `images` is gone, also if memory runs out.
    pub fn draw(
        &self,
        images: &mut Vec<[u32x4; 8]>,
        copies: u32,
        rows: u32x4,
        blocks: &[u32],
    ) -> Result<(), AllocError>
        requires copies { copies ≤ 4 }
        requires rows { All (λ row. row < 2 ^ 27) rows }
        requires blocks { All (λ block. block < 2 ^ 13) blocks.now }
        ensures images { OnOk result
            (images.new.items ≡ map (λ block. eight (least_image self.now copies block) rows) blocks.now) }
        ensures err { OnErr result (images.new.items ≡ []) }
    {
        images.clear();
        self.draw_more(images, copies, rows, blocks)
    }

    /// Draws the same as [`draw`](Blocks::draw), after what stands in `images` already, of which nothing changes, also
    /// if memory runs out.
    pub fn draw_more(
        &self,
        images: &mut Vec<[u32x4; 8]>,
        copies: u32,
        rows: u32x4,
        blocks: &[u32],
    ) -> Result<(), AllocError>
        requires copies { copies ≤ 4 }
        requires rows { All (λ row. row < 2 ^ 27) rows }
        requires blocks { All (λ block. block < 2 ^ 13) blocks.now }
        ensures images { OnOk result (images.new.items
            ≡ images.old.items ++ map (λ block. eight (least_image self.now copies block) rows) blocks.now) }
        ensures err { OnErr result (images.new.items ≡ images.old.items) }
    {
        images.reserve(blocks.len())?;
        let states = self.first_states();
        let all = Rows {
            first: rows,
            copies,
        };
        for block in blocks {
            images.push_reserved(self.least(states, all, *block));
        }
        Ok(())
    }

    /// The least images of one block.
    #[inline(always)]
    fn least(&self, states: States, rows: Rows, block: u32) -> Eight
        requires states { AreFirstStates self.now states }
        requires block { block < 2 ^ 13 }
        ensures { result ≡ eight (least_image self.now rows.copies block) rows.first }
    {
        let mut least = [u32x4::splat(NEVER); 8];
        for copy in 0..rows.copies {
            let images = self.images(states, moved(rows.first, block + copy * COPY));
            let both = lesser_of(least, images);
            least = both;
        }
        least
    }

    /// The images of the keys of a block for each receiver.
    #[inline(always)]
    fn images(&self, states: States, blocks: u32x4) -> Eight
        requires { AreFirstStates self.now states }
        ensures { result ≡ eight (λ q block. image_at self.now (place_in block q)) blocks }
    {
        images_of(self.high_words(states, blocks))
    }

    /// The high words of the keys of a block for each receiver, which are every other word from the first.
    #[inline(always)]
    fn high_words(&self, states: States, blocks: u32x4) -> Eight
        requires { AreFirstStates self.now states }
        ensures { result ≡ eight (λ q block. word_of self.now (place_in block q)) blocks }
    {
        let first = with_blocks(states, blocks);
        let last = eight_rounds(first);
        [
            sum(last[0], first[0]),
            sum(last[2], first[2]),
            sum(last[4], first[4]),
            sum(last[6], first[6]),
            sum(last[8], first[8]),
            sum(last[10], first[10]),
            sum(last[12], first[12]),
            sum(last[14], first[14]),
        ]
    }

    /// The states of four blocks before the first round (2.3): the constants, the key, a block's number, here 0, and
    /// the stream's. All but the number is the same for every block, and so is what three columns of the first round
    /// make of it, which is computed once for all blocks that are drawn.
    fn first_states(&self) -> States
        ensures { AreFirstStates self.now result }
    {
        let [a, b, c, d, e, f, g, h] = self.key;
        [
            u32x4::splat(0x6170_7865),
            u32x4::splat(0x3320_646e),
            u32x4::splat(0x7962_2d32),
            u32x4::splat(0x6b20_6574),
            u32x4::splat(a),
            u32x4::splat(b),
            u32x4::splat(c),
            u32x4::splat(d),
            u32x4::splat(e),
            u32x4::splat(f),
            u32x4::splat(g),
            u32x4::splat(h),
            u32x4::splat(0),
            u32x4::splat(0),
            u32x4::splat(low_word(self.stream)),
            u32x4::splat(high_word(self.stream)),
        ]
    }
}

/// The rows moved on by this many blocks.
#[inline(always)]
fn moved(rows: u32x4, by: u32) -> u32x4
    requires rows { All (λ row. row < 2 ^ 27) rows }
    requires by { by < 2 ^ 27 }
    ensures { result ≡ map (λ row. row + by) rows }
{
    rows + u32x4::splat(by)
}

/// The lower half of a number.
fn low_word(number: u64) -> u32
    ensures { result ≡ number % 2 ^ 32 }
{
    (number & 0xffff_ffff) as u32
}

/// Its upper half.
fn high_word(number: u64) -> u32
    ensures { result ≡ number / 2 ^ 32 }
{
    (number >> 32) as u32
}
