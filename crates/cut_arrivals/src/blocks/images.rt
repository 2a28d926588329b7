//! Eight vectors of images, a receiver in each lane.
ghost use Rattle.std.specs.Prelude.{◌≡◌, ℕ, ◌+◌, ◌*◌, ◌/◌, ◌-◌, ◌<◌, List, [], map, min, length, slice_index_or};
ghost use Rattle.std.specs.Prelude.{OnOk, OnErr};
ghost use Rattle.cut_arrivals.specs.blocks.Images.{eight, least_over};

use std::alloc::AllocError;
use std::simd::u32x4;

/// What a block gives four receivers: a vector for each of its eight keys.
pub(crate) type Eight = [u32x4; 8];

/// Stands for the image of no key, and is above every image.
pub const NEVER: u32 = (1 << 31) - 1;

/// The images of keys, by their high words: what is left of these without their last two bits.
#[inline(always)]
pub(crate) fn images_of(words: Eight) -> Eight
    ensures { (f : ℕ → ℕ → ℕ) (rows : List ℕ) → words ≡ eight f rows
        → result ≡ eight (λ q row. f q row / 4) rows }
{
    let [a, b, c, d, e, f, g, h] = words;
    [
        quarter_of(a),
        quarter_of(b),
        quarter_of(c),
        quarter_of(d),
        quarter_of(e),
        quarter_of(f),
        quarter_of(g),
        quarter_of(h),
    ]
}

/// Each lane without its last two bits.
#[inline(always)]
fn quarter_of(word: u32x4) -> u32x4
    ensures { (f : ℕ → ℕ) (rows : List ℕ) → word ≡ map f rows
        → result ≡ map (λ row. f row / 4) rows }
{
    word >> u32x4::splat(2)
}

/// The least images of blocks over copies, of which the images of all blocks stand one copy after another. What stood in
/// `least` is gone, also if memory runs out.
pub fn least_of(
    least: &mut Vec<[u32x4; 8]>,
    images: &[[u32x4; 8]],
    copies: usize,
    blocks: usize,
) -> Result<(), AllocError>
    requires { length images.now ≡ copies * blocks }
    ensures least { OnOk result ((b : ℕ) (f : ℕ → ℕ → ℕ → ℕ) (rows : List ℕ) → b < blocks → length rows ≡ 4
        → ((c : ℕ) → c < copies → slice_index_or images.now (c * blocks + b) [] ≡ eight (f c) rows)
        → slice_index_or least.new.items b [] ≡ eight (least_over f copies) rows) }
    ensures many { OnOk result (length least.new.items ≡ blocks) }
    ensures err { OnErr result (least.new.items ≡ []) }
{
    least.clear();
    least.reserve(blocks)?;
    for block in 0..blocks {
        least.push_reserved(least_at(images, copies, blocks, block));
    }
    Ok(())
}

/// The least images of one of the blocks.
#[inline(always)]
fn least_at(images: &[Eight], copies: usize, blocks: usize, block: usize) -> Eight
    requires images { length images.now ≡ copies * blocks }
    requires block { block < blocks }
    ensures { (f : ℕ → ℕ → ℕ → ℕ) (rows : List ℕ) → length rows ≡ 4
        → ((c : ℕ) → c < copies → slice_index_or images.now (c * blocks + block) [] ≡ eight (f c) rows)
        → result ≡ eight (least_over f copies) rows }
{
    let mut least = [u32x4::splat(NEVER); 8];
    for copy in 0..copies {
        let both = lesser_of(least, images[copy * blocks + block]);
        least = both;
    }
    least
}

/// The lesser of two in each lane.
#[inline(always)]
pub(crate) fn lesser_of(left: Eight, right: Eight) -> Eight
    ensures { (f g : ℕ → ℕ → ℕ) (rows : List ℕ) → left ≡ eight f rows → right ≡ eight g rows
        → result ≡ eight (λ q row. min (f q row) (g q row)) rows }
{
    let [a, b, c, d, e, f, g, h] = left;
    let [i, j, k, l, m, n, o, p] = right;
    [
        lesser(a, i),
        lesser(b, j),
        lesser(c, k),
        lesser(d, l),
        lesser(e, m),
        lesser(f, n),
        lesser(g, o),
        lesser(h, p),
    ]
}

/// The lesser of two in each lane of a vector.
#[inline(always)]
fn lesser(left: u32x4, right: u32x4) -> u32x4
    ensures { (f g : ℕ → ℕ) (rows : List ℕ) → left ≡ map f rows → right ≡ map g rows
        → result ≡ map (λ row. min (f row) (g row)) rows }
{
    left.simd_min(right)
}
