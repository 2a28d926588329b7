//! The combinations of a plan's lists.
ghost use Rattle.std.specs.Prelude.{◌≡◌, ◌≤◌, ◌++◌, length, OnOk, IfOk};
ghost use Rattle.cut_plan.specs.Cells.{cells_at, cells_under_h, cells_under_k, cells_of_lists};
ghost use Rattle.cut_plan.specs.inside.Triples.{lows_under, pairs_under, triples};

use crate::Cell;
use std::alloc::{AllocError, Global};

/// How many combinations of k, h and l have `l <= h <= k`.
pub(crate) fn count_triples(k: &[u8], h: &[u8], l: &[u8]) -> u32
    requires few_k { length k.now ≤ 32 }
    requires few_h { length h.now ≤ 32 }
    requires few_l { length l.now ≤ 32 }
    ensures value { result ≡ triples k.now h.now l.now }
    ensures few { result ≤ 32768 }
{
    let mut count = 0;
    for rings in k {
        count += count_pairs(*rings, h, l);
    }
    count
}

/// How many pairs of h and l go with one k.
#[tactic(auto, unfolding(crate::specs::inside::Triples::pairs_under))]
fn count_pairs(k: u8, h: &[u8], l: &[u8]) -> u32
    requires few_h { length h.now ≤ 32 }
    requires few_l { length l.now ≤ 32 }
    ensures value { result ≡ pairs_under h.now l.now k }
    ensures few { result ≤ 1024 }
{
    let mut count = 0;
    for high in h {
        count += count_lows(k, *high, l);
    }
    count
}

/// How many values of l go with one k and h.
fn count_lows(k: u8, h: u8, l: &[u8]) -> u32
    requires few_l { length l.now ≤ 32 }
    ensures value { result ≡ lows_under l.now k h }
    ensures few { result ≤ 32 }
{
    if h > k {
        return 0;
    }
    l.iter().filter(|low| **low <= h).count() as u32
}

/// The cells of the lists, in order.
pub(crate) fn combine(
    alloc: Global,
    k: &[u8],
    h: &[u8],
    l: &[u8],
    f: &[u16],
) -> Result<Vec<Cell>, AllocError>
    ensures { IfOk result (λ v. v.items ≡ cells_of_lists k.now h.now l.now f.now) }
{
    let mut cells = Vec::new(alloc);
    for rings in k {
        add_highs(&mut cells, *rings, h, l, f)?;
    }
    Ok(cells)
}

/// Adds the cells of one k.
fn add_highs(cells: &mut Vec<Cell>, k: u8, h: &[u8], l: &[u8], f: &[u16]) -> Result<(), AllocError>
    ensures { OnOk result (cells.new.items ≡ cells.old.items ++ cells_under_k h.now l.now f.now k) }
{
    for high in h {
        add_lows(cells, k, *high, l, f)?;
    }
    Ok(())
}

/// Adds the cells of one k and h.
fn add_lows(cells: &mut Vec<Cell>, k: u8, h: u8, l: &[u8], f: &[u16]) -> Result<(), AllocError>
    ensures { OnOk result (cells.new.items ≡ cells.old.items ++ cells_under_h l.now f.now k h) }
{
    for low in l {
        add_cells(cells, k, h, *low, f)?;
    }
    Ok(())
}

/// Adds the cells of one k, h and l, one for each f, if l ≤ h ≤ k.
fn add_cells(cells: &mut Vec<Cell>, k: u8, h: u8, l: u8, f: &[u16]) -> Result<(), AllocError>
    ensures { OnOk result (cells.new.items ≡ cells.old.items ++ cells_at f.now k h l) }
{
    if l > h || h > k {
        return Ok(());
    }
    for failed in f {
        cells.push(Cell {
            k,
            h,
            l,
            f: *failed,
        })?;
    }
    Ok(())
}
