use crate::texts::{four, numbers, rings_of_lists};
use cut_plan::Plan;
use cut_rings::Rings;
use std::alloc::{AllocError, Global};
use std::test::Fail;

// Plans, and below each the orders of its rings, in which a separate script placed the processes.
const ORDERS: &str =
    r#"{"copies":1,"dead":"silent","f":[1],"faults":"crash","h":[1],"implicit":true,"k":[2,3],"l":[1],"liars":0,"links":0,"nodes":5,"repeats":2,"seed":"0000000000000000000000000000000000000000000000000000000000000000","version":1}
1 3 0 4 2, 3 1 0 2 4, 0 1 2 4 3

{"copies":1,"dead":"silent","f":[1],"faults":"crash","h":[1],"implicit":true,"k":[4],"l":[1],"liars":0,"links":0,"nodes":7,"repeats":2,"seed":"0123456789abcdef0123456789abcdef0123456789abcdef0123456789abcdef","version":1}
1 2 3 5 0 4 6, 4 0 6 5 2 3 1, 5 4 2 3 6 1 0, 4 2 1 3 6 5 0

{"copies":1,"dead":"silent","f":[1],"faults":"crash","h":[1],"implicit":true,"k":[2],"l":[1],"liars":0,"links":0,"nodes":2,"repeats":1,"seed":"ffffffffffffffffffffffffffffffffffffffffffffffffffffffffffffffff","version":1}
1 0, 1 0

{"copies":1,"dead":"silent","f":[1],"faults":"crash","h":[1],"implicit":true,"k":[1],"l":[1],"liars":0,"links":0,"nodes":2,"repeats":1,"seed":"0000000000000000000000000000000000000000000000000000000000000000","version":1}
0 1"#;

// Whether a ring holds these processes in this order: each is observed by the one before it.
fn runs(rings: &Rings, ring: u8, order: &[u16]) -> bool {
    let nodes = rings.nodes();
    if ring >= rings.len() || order.len() != usize::from(nodes) {
        return false;
    }
    let mut before = order[order.len() - 1];
    for process in order {
        if before >= nodes || *process >= nodes {
            return false;
        }
        if rings.observer(ring, *process) != before || rings.subject(ring, before) != *process {
            return false;
        }
        before = *process;
    }
    true
}

// Whether rings are as many as these orders, and hold them.
fn hold(alloc: Global, rings: &Rings, orders: &str) -> Result<bool, AllocError> {
    let mut ring = 0u8;
    for order in orders.split(", ") {
        if !runs(rings, ring, &numbers(alloc, order)?) {
            return Ok(false);
        }
        ring = ring.saturating_add(1);
    }
    Ok(rings.len() == ring)
}

// Whether the rings of the plan that a row begins with are those that it has.
fn is_row(alloc: Global, row: &str) -> Result<bool, Fail> {
    let (text, orders) = row.split_once('\n').unwrap_or((row, ""));
    let plan = Plan::from_json(alloc, text.as_bytes())?;
    let rings = Rings::hashed(alloc, &plan)?;
    Ok(hold(alloc, &rings, orders)?)
}

#[test]
fn hashed_rings_are_those_of_the_plan(rt: HostRuntime) -> Result<(), Fail> {
    for row in ORDERS.split("\n\n") {
        assert!(rt; is_row(rt.alloc(), row)?, "{row}");
    }
    Ok(())
}

#[test]
fn listed_rings_are_the_lists(rt: HostRuntime) -> Result<(), Fail> {
    let rings = four(rt.alloc())?;
    assert!(rt; hold(rt.alloc(), &rings, "0 1 2 3, 0 2 1 3, 0 3 2 1")?);
    Ok(())
}

// The fault of these lists, of this number of processes, as it is printed.
fn fault_text(alloc: Global, nodes: u16, lists: &str) -> Result<String, AllocError> {
    match rings_of_lists(alloc, nodes, lists) {
        Ok(_) => Ok(String::new(alloc)),
        Err(fault) => fault.to_string(alloc),
    }
}

#[test]
fn faults_are_printed(rt: HostRuntime) -> Result<(), Fail> {
    let wanted = "11 NotPermutation";
    assert!(rt; fault_text(rt.alloc(), 4, "0 1 2 3, 0 0 2 3")?.as_str() == wanted);
    assert!(rt; fault_text(rt.alloc(), 1, "0")?.as_str() == "12 TooFew");
    Ok(())
}
