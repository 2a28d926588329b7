//! Making a plan of a JSON object whose fields were checked.
ghost use Rattle.std.specs.Prelude.{◌≡◌, ◌<◌, ◌^◌, length, IfOk, Ok};
ghost use Rattle.serde_json.specs.View.{view};
ghost use Rattle.cut_plan.specs.Accepted.{limit_check};
ghost use Rattle.cut_plan.specs.inside.Accepted.{limits, values_in, IsChecked};
ghost use Rattle.cut_plan.specs.Cells.{cells_of_lists, largest};
ghost use Rattle.cut_fields.specs.Members.{item_numbers};
ghost use Rattle.cut_plan.specs.inside.Look.{AreBelow, AreListsOf, AreShort};

use crate::combinations::count_triples;
use crate::limits::MOST_CELLS;
use crate::{Field, Refusal};
use cut_fields::{item_number, items_at, number_at};
use serde_json::Value;
use std::alloc::{AllocError, Global};

/// A plan's four lists.
#[derive(Drop)]
pub(crate) struct Lists {
    pub(crate) f: Vec<u16>,
    pub(crate) h: Vec<u8>,
    pub(crate) k: Vec<u8>,
    pub(crate) l: Vec<u8>,
}

/// The lists of an object whose fields were checked.
pub(crate) fn read_lists(alloc: Global, value: &Value) -> Result<Lists, AllocError>
    requires { IsChecked (view value.now) }
    ensures { IfOk result (λ lists. AreListsOf (view value.now) lists) }
{
    Ok(Lists {
        f: shorts(alloc, items_at(value, Field::F))?,
        h: bytes(alloc, items_at(value, Field::H))?,
        k: bytes(alloc, items_at(value, Field::K))?,
        l: bytes(alloc, items_at(value, Field::L))?,
    })
}

/// The numbers of a list, each below 256.
fn bytes(alloc: Global, items: &[Value]) -> Result<Vec<u8>, AllocError>
    requires { AreBelow (2 ^ 8) (item_numbers items.now) }
    ensures { IfOk result (λ v. v.items ≡ item_numbers items.now) }
{
    let mut numbers = Vec::with_capacity(alloc, items.len())?;
    for i in 0..items.len() {
        numbers.push(item_number(items, i) as u8)?;
    }
    Ok(numbers)
}

/// The numbers of a list, each below 65,536.
fn shorts(alloc: Global, items: &[Value]) -> Result<Vec<u16>, AllocError>
    requires { AreBelow (2 ^ 16) (item_numbers items.now) }
    ensures { IfOk result (λ v. v.items ≡ item_numbers items.now) }
{
    let mut numbers = Vec::with_capacity(alloc, items.len())?;
    for i in 0..items.len() {
        numbers.push(item_number(items, i) as u16)?;
    }
    Ok(numbers)
}

/// Checks a plan's lists with its liars and links: that there is a cell, that no more processes are faulty than there
/// are, and that there are at most 4096 cells.
pub(crate) fn check_together(lists: &Lists, value: &Value) -> Result<(), Refusal>
    requires checked { IsChecked (view value.now) }
    requires lists { AreListsOf (view value.now) lists.now }
    ensures { result ≡ limit_check (values_in (view value.now)) }
{
    let cells = count_cells(lists);
    let liars = number_at(value, Field::Liars);
    let links = number_at(value, Field::Links);
    let most_failed = largest(lists.f.as_slice());
    let faults = u64::from(most_failed) + liars + links;
    check_limits(cells, faults, number_at(value, Field::Nodes))
}

/// How many cells the lists give.
fn count_cells(lists: &Lists) -> u64
    requires { AreShort lists.now }
    ensures { result ≡ length (cells_of_lists lists.now.k.items lists.now.h.items lists.now.l.items lists.now.f.items) }
{
    let triples = count_triples(lists.k.as_slice(), lists.h.as_slice(), lists.l.as_slice());
    u64::from(triples) * lists.f.len() as u64
}

/// Checks the limits on the cells and the faults.
fn check_limits(cells: u64, faults: u64, nodes: u64) -> Result<(), Refusal>
    ensures { result ≡ limits cells faults nodes }
{
    if cells == 0 {
        return Err(Refusal::NoCell);
    }
    if faults > nodes {
        return Err(Refusal::TooManyFaults);
    }
    if cells > MOST_CELLS {
        return Err(Refusal::TooManyTrials);
    }
    Ok(())
}

/// The largest number of a list, 0 if it is empty.
pub(crate) fn largest(numbers: &[u16]) -> u16
    ensures { result ≡ largest numbers.now }
{
    numbers.iter().fold(0, |most, number| most.max(*number))
}
