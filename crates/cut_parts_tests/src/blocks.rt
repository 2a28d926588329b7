//! Images beside the keys that a trial's draws give one by one.
ghost use Rattle.std.specs.Prelude.{◌<◌};

use cut_arrivals::blocks::{Blocks, NEVER};
use cut_draws::Draws;
use rand_chacha::ChaCha8Rng;
use rand_core::SeedableRng;
use rand_core::utils::NextWord;
use std::alloc::{AllocError, Global};
use std::simd::u32x4;
use std::test::Fail;

/// Below what a row begins, and a block stands in it.
const ROWS: u32 = 1 << 25;

const BLOCKS: u32 = 1 << 13;

/// A key of a trial: how many copies its delivery has, where the row of its receiver begins, its block there, and its
/// number in the block.
#[derive(Clone, Copy)]
struct Key {
    copies: u32,
    row: u32,
    block: u32,
    number: u32,
}

/// The least image over the copies, by whole keys.
fn least_by_keys(draws: &mut Draws, key: Key) -> u32 {
    let row = u64::from(key.row % ROWS);
    let block = u64::from(key.block % BLOCKS);
    let mut least = NEVER;
    for copy in 0..key.copies.min(4) {
        let block = row + block + (u64::from(copy) << 24);
        let whole = draws.key(16 * block + 2 * u64::from(key.number % 8));
        least = least.min((whole >> 34) as u32);
    }
    least
}

/// The images of one block for four receivers.
fn drawn(
    alloc: Global,
    blocks: &Blocks,
    copies: u32,
    rows: [u32; 4],
    block: u32,
) -> Result<Vec<[u32x4; 8]>, AllocError> {
    let [a, b, c, d] = rows;
    let rows = u32x4::from_array([a % ROWS, b % ROWS, c % ROWS, d % ROWS]);
    let mut images = Vec::new(alloc);
    blocks.draw(&mut images, copies.min(4), rows, &[block % BLOCKS])?;
    Ok(images)
}

/// Whether the images of a block are those of the keys, one by one.
fn are_images(
    images: &[u32x4; 8],
    draws: &mut Draws,
    copies: u32,
    rows: [u32; 4],
    block: u32,
) -> bool {
    for (number, lanes) in (0..8).zip(images) {
        for (row, image) in rows.iter().zip(lanes.to_array()) {
            let key = Key {
                copies,
                row: *row,
                block,
                number,
            };
            if image != least_by_keys(draws, key) {
                return false;
            }
        }
    }
    true
}

/// Whether one drawn block of a trial has the images of its keys.
fn is_right(
    alloc: Global,
    seed: [u8; 32],
    trial: u32,
    copies: u32,
    rows: [u32; 4],
    block: u32,
) -> Result<bool, AllocError> {
    let images = drawn(alloc, &Blocks::new(seed, trial), copies, rows, block)?;
    let mut draws = Draws::new(seed, trial);
    Ok(match images.as_slice() {
        [images] => are_images(images, &mut draws, copies, rows, block),
        _ => false,
    })
}

/// A seed that is drawn.
fn drawn_seed(words: &mut ChaCha8Rng) -> [u8; 32] {
    let mut seed = [0; 32];
    for byte in &mut seed {
        *byte = (words.next_word() % 256) as u8;
    }
    seed
}

#[test]
fn drawn_blocks_have_the_images_of_their_keys(rt: HostRuntime) -> Result<(), Fail> {
    let alloc = rt.alloc();
    let mut words = ChaCha8Rng::from_seed([7; 32]);
    for number in 0..1000 {
        let seed = drawn_seed(&mut words);
        let trial = words.next_word();
        let rows = [
            words.next_word(),
            words.next_word(),
            words.next_word(),
            words.next_word(),
        ];
        let copies = words.next_word() % 5;
        let right = is_right(alloc, seed, trial, copies, rows, words.next_word())?;
        assert!(rt; right, "{number}");
    }
    Ok(())
}

#[test]
fn the_first_and_the_last_blocks_have_the_images_of_their_keys(
    rt: HostRuntime,
) -> Result<(), Fail> {
    let alloc = rt.alloc();
    let rows = [0, 1 << 16, 16_834_560, ROWS - 1];
    for seed in [[0; 32], [255; 32]] {
        for trial in [0, u32::MAX] {
            for block in [0, BLOCKS - 1] {
                assert!(rt;
                    is_right(alloc, seed, trial, 4, rows, block)?,
                    "{trial} {block}"
                );
            }
        }
    }
    Ok(())
}

/// The keys are those of a separate script that computes the cipher's blocks itself.
#[test]
fn images_are_the_high_bits_of_keys(rt: HostRuntime) -> Result<(), Fail> {
    let alloc = rt.alloc();
    let rows: [(u32, u64); 2] = [
        (0, 13_662_141_138_316_179_140),
        (4_095_999_999, 13_978_065_396_296_651_861),
    ];
    for (trial, key) in rows {
        let images = drawn(alloc, &Blocks::new([0; 32], trial), 1, [1 << 16; 4], 0)?;
        let first = images.first().map(|images| images[0].to_array());
        assert!(rt; first == Some([(key >> 34) as u32; 4]), "{trial}");
    }
    Ok(())
}

#[test]
fn no_copy_has_no_image(rt: HostRuntime) -> Result<(), Fail> {
    let images = drawn(rt.alloc(), &Blocks::new([1; 32], 2), 0, [5; 4], 6)?;
    assert!(rt;
        images
            .first()
            .is_some_and(|images| images[7].to_array() == [NEVER; 4])
    );
    Ok(())
}

#[test]
fn blocks_are_drawn_in_the_order_of_their_numbers(rt: HostRuntime) -> Result<(), Fail> {
    let alloc = rt.alloc();
    let blocks = Blocks::new([3; 32], 4);
    let mut images = drawn(alloc, &blocks, 2, [9; 4], 1)?;
    blocks.draw(&mut images, 2, u32x4::splat(9), &[5, 0])?;
    let fifth = drawn(alloc, &blocks, 2, [9; 4], 5)?;
    let first = drawn(alloc, &blocks, 2, [9; 4], 0)?;
    assert!(rt;
        images.len() == 2 && images.first() == fifth.first() && images.last() == first.first()
    );
    Ok(())
}
