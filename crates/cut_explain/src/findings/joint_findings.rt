//! What is wrong with the fields of a plan, taken together.

use crate::findings::findings::sound_value;
use cut_plan::{Field, MOST_CELLS};
use serde_json::Value;
use std::alloc::AllocError;

/// Lists the limits that a plan's fields break together. A limit is passed over if a field that it is on is wrong
/// alone.
pub(crate) fn list_joint(out: &mut String, value: &Value) -> Result<(), AllocError> {
    let combinations = match lists_in(value) {
        Some(lists) => {
            let combinations = lists.combinations();
            if combinations == 0 {
                push_no_cell(out, &lists)?;
            }
            combinations
        }
        None => 0,
    };
    push_faults(out, value)?;
    let failed = sound_items(value, Field::F).len();
    let cells = combinations.saturating_mul(failed);
    if cells as u64 > MOST_CELLS {
        write!(
            out,
            "{combinations} combinations of k, h and l, each with {failed} f, are {cells} cells"
        )?;
        writeln!(out, "; expected at most {MOST_CELLS}")?;
    }
    Ok(())
}

/// The lists of the rings and the watermarks, none of them empty and each rising.
#[derive(Clone, Copy)]
struct Lists<'a> {
    k: &'a [Value],
    h: &'a [Value],
    l: &'a [Value],
}

impl Lists<'_> {
    /// How many triples of k, h and l have l <= h <= k.
    fn combinations(&self) -> usize {
        let mut count = 0usize;
        for high in self.h {
            let number = number_of(high);
            let below = self.l.iter().filter(|low| number_of(*low) <= number);
            let above = self.k.iter().filter(|rings| number <= number_of(*rings));
            count = count.saturating_add(below.count().saturating_mul(above.count()));
        }
        count
    }
}

/// The three lists, if nothing is wrong with them.
fn lists_in(value: &Value) -> Option<Lists<'_>> {
    let lists = Lists {
        k: sound_items(value, Field::K),
        h: sound_items(value, Field::H),
        l: sound_items(value, Field::L),
    };
    if lists.k.is_empty() || lists.h.is_empty() || lists.l.is_empty() {
        return None;
    }
    Some(lists)
}

/// The items of a field's list, none if something is wrong with it.
fn sound_items(value: &Value, field: Field) -> &[Value] {
    match sound_value(value, field).and_then(Value::as_array) {
        Some(items) => items.as_slice(),
        None => &[],
    }
}

/// The number that a value is, 0 if it is none.
fn number_of(value: &Value) -> u64 {
    value.as_u64().unwrap_or(0)
}

/// The first number of a list.
fn first_of(items: &[Value]) -> u64 {
    items.first().map_or(0, number_of)
}

/// The last number of a list.
fn last_of(items: &[Value]) -> u64 {
    items.last().map_or(0, number_of)
}

/// Adds why there is no cell.
fn push_no_cell(out: &mut String, lists: &Lists<'_>) -> Result<(), AllocError> {
    let (least_h, most_h) = (first_of(lists.h), last_of(lists.h));
    let (least_l, most_k) = (first_of(lists.l), last_of(lists.k));
    if least_h > most_k {
        write!(
            out,
            "each h is above each k: the least h is {least_h}, the greatest k {most_k}"
        )?;
    } else if least_l > most_h {
        write!(
            out,
            "each l is above each h: the least l is {least_l}, the greatest h {most_h}"
        )?;
    } else {
        write!(
            out,
            "no h is from {least_l}, the least l, to {most_k}, the greatest k"
        )?;
    }
    writeln!(out, "; expected some l <= h <= k")
}

/// Adds that the faults are more than the processes, if they are.
fn push_faults(out: &mut String, value: &Value) -> Result<(), AllocError> {
    let (Some(liars), Some(links), Some(nodes)) = (
        sound_value(value, Field::Liars).and_then(Value::as_u64),
        sound_value(value, Field::Links).and_then(Value::as_u64),
        sound_value(value, Field::Nodes).and_then(Value::as_u64),
    ) else {
        return Ok(());
    };
    let failed = last_of(sound_items(value, Field::F));
    let faults = failed.saturating_add(liars).saturating_add(links);
    if faults <= nodes {
        return Ok(());
    }
    writeln!(
        out,
        "{failed} failed, {liars} liars and {links} links are {faults}; expected at most nodes, {nodes}"
    )
}
