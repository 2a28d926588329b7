use cut_plan::{Cell, Dead, Faults, Plan, PlanFault, Refusal};
use std::alloc::{AllocError, Global};
use std::test::Fail;

const LARGE: &str =
    r#"{"copies":3,"dead":"speak","f":[2,4,8,16],"faults":"deaf","h":[6,7,8,9],"implicit":false,"k":[10],"l":[1,2,3,4],"liars":7,"links":9,"nodes":1999,"repeats":777777,"seed":"00112233445566778899aabbccddeeff00112233445566778899aabbccddeeff","version":1}"#;

// Two plans of the second version that were written apart from this program.
const SOME_DEAF: &str =
    r#"{"copies": 2, "dead": "silent", "implicit": true, "nodes": 10, "repeats": 1, "seed": "0Eb29Dacc23C9cfA69cfD97DcfcBaAEb3f0a2300e39B2f93cEB2a277b87AF294", "version": 2, "deaf": 1, "k": [3], "h": [1, 2, 3], "l": [1, 2, 3], "f": [3, 7], "liars": 1, "links": 1}"#;

const MANY_DEAF: &str =
    r#"{"copies": 4, "dead": "silent", "implicit": true, "nodes": 12, "repeats": 1, "seed": "D2E440c4A09DFbabACF4DEB2852bF9ea39D1383ab0b9FcB47Ca9FAB25afC4627", "version": 2, "deaf": 2048, "k": [1], "h": [1], "l": [1], "f": [1, 7], "liars": 1, "links": 0}"#;

// As many cells as a plan has at most, for 16 numbers each of h, l and failed processes.
const MOST: &str =
    r#"{"copies":1,"dead":"silent","f":[0,1,2,3,4,5,6,7,8,9,10,11,12,13,14,15],"faults":"crash","h":[17,18,19,20,21,22,23,24,25,26,27,28,29,30,31,32],"implicit":true,"k":[32],"l":[1,2,3,4,5,6,7,8,9,10,11,12,13,14,15,16],"liars":0,"links":0,"nodes":2048,"repeats":2,"seed":"0000000000000000000000000000000000000000000000000000000000000000","version":1}"#;

// Plans in some order of their fields, with spaces and seeds in letters of both cases, and below each its one text, and
// that in the second version: the number of deaf targets is 0 where they crash, and else the largest f.
const TEXTS: &str =
    r#"{"copies":1,"dead":"silent","f":[1],"faults":"crash","h":[1],"implicit":true,"k":[1],"l":[1],"liars":0,"links":0,"nodes":5,"repeats":2,"seed":"0000000000000000000000000000000000000000000000000000000000000000","version":1}
{"copies":1,"dead":"silent","f":[1],"faults":"crash","h":[1],"implicit":true,"k":[1],"l":[1],"liars":0,"links":0,"nodes":5,"repeats":2,"seed":"0000000000000000000000000000000000000000000000000000000000000000","version":1}
{"copies":1,"dead":"silent","deaf":0,"f":[1],"h":[1],"implicit":true,"k":[1],"l":[1],"liars":0,"links":0,"nodes":5,"repeats":2,"seed":"0000000000000000000000000000000000000000000000000000000000000000","version":2}

{ "version": 1, "seed": "ABCDEFabcdef00000000000000000000000000000000000000000000000000ff", "repeats": 2, "nodes": 5, "links": 0, "liars": 0, "l": [1], "k": [ 1 ], "implicit": true, "h": [1], "faults": "crash", "f": [1], "dead": "silent", "copies": 1 }
{"copies":1,"dead":"silent","f":[1],"faults":"crash","h":[1],"implicit":true,"k":[1],"l":[1],"liars":0,"links":0,"nodes":5,"repeats":2,"seed":"abcdefabcdef00000000000000000000000000000000000000000000000000ff","version":1}
{"copies":1,"dead":"silent","deaf":0,"f":[1],"h":[1],"implicit":true,"k":[1],"l":[1],"liars":0,"links":0,"nodes":5,"repeats":2,"seed":"abcdefabcdef00000000000000000000000000000000000000000000000000ff","version":2}

{"copies":3,"dead":"speak","f":[2,4,8,16],"faults":"deaf","h":[6,7,8,9],"implicit":false,"k":[10],"l":[1,2,3,4],"liars":7,"links":9,"nodes":1999,"repeats":777777,"seed":"00112233445566778899aabbccddeeff00112233445566778899aabbccddeeff","version":1}
{"copies":3,"dead":"speak","f":[2,4,8,16],"faults":"deaf","h":[6,7,8,9],"implicit":false,"k":[10],"l":[1,2,3,4],"liars":7,"links":9,"nodes":1999,"repeats":777777,"seed":"00112233445566778899aabbccddeeff00112233445566778899aabbccddeeff","version":1}
{"copies":3,"dead":"speak","deaf":16,"f":[2,4,8,16],"h":[6,7,8,9],"implicit":false,"k":[10],"l":[1,2,3,4],"liars":7,"links":9,"nodes":1999,"repeats":777777,"seed":"00112233445566778899aabbccddeeff00112233445566778899aabbccddeeff","version":2}

{"copies":1,"dead":"silent","deaf":0,"f":[1],"h":[1],"implicit":true,"k":[1],"l":[1],"liars":0,"links":0,"nodes":5,"repeats":2,"seed":"0000000000000000000000000000000000000000000000000000000000000000","version":2}
{"copies":1,"dead":"silent","deaf":0,"f":[1],"h":[1],"implicit":true,"k":[1],"l":[1],"liars":0,"links":0,"nodes":5,"repeats":2,"seed":"0000000000000000000000000000000000000000000000000000000000000000","version":2}
{"copies":1,"dead":"silent","deaf":0,"f":[1],"h":[1],"implicit":true,"k":[1],"l":[1],"liars":0,"links":0,"nodes":5,"repeats":2,"seed":"0000000000000000000000000000000000000000000000000000000000000000","version":2}

{"copies": 2, "dead": "silent", "implicit": true, "nodes": 10, "repeats": 1, "seed": "0Eb29Dacc23C9cfA69cfD97DcfcBaAEb3f0a2300e39B2f93cEB2a277b87AF294", "version": 2, "deaf": 1, "k": [3], "h": [1, 2, 3], "l": [1, 2, 3], "f": [3, 7], "liars": 1, "links": 1}
{"copies":2,"dead":"silent","deaf":1,"f":[3,7],"h":[1,2,3],"implicit":true,"k":[3],"l":[1,2,3],"liars":1,"links":1,"nodes":10,"repeats":1,"seed":"0eb29dacc23c9cfa69cfd97dcfcbaaeb3f0a2300e39b2f93ceb2a277b87af294","version":2}
{"copies":2,"dead":"silent","deaf":1,"f":[3,7],"h":[1,2,3],"implicit":true,"k":[3],"l":[1,2,3],"liars":1,"links":1,"nodes":10,"repeats":1,"seed":"0eb29dacc23c9cfa69cfd97dcfcbaaeb3f0a2300e39b2f93ceb2a277b87af294","version":2}

{"copies": 4, "dead": "silent", "implicit": true, "nodes": 12, "repeats": 1, "seed": "D2E440c4A09DFbabACF4DEB2852bF9ea39D1383ab0b9FcB47Ca9FAB25afC4627", "version": 2, "deaf": 2048, "k": [1], "h": [1], "l": [1], "f": [1, 7], "liars": 1, "links": 0}
{"copies":4,"dead":"silent","deaf":2048,"f":[1,7],"h":[1],"implicit":true,"k":[1],"l":[1],"liars":1,"links":0,"nodes":12,"repeats":1,"seed":"d2e440c4a09dfbabacf4deb2852bf9ea39d1383ab0b9fcb47ca9fab25afc4627","version":2}
{"copies":4,"dead":"silent","deaf":2048,"f":[1,7],"h":[1],"implicit":true,"k":[1],"l":[1],"liars":1,"links":0,"nodes":12,"repeats":1,"seed":"d2e440c4a09dfbabacf4deb2852bf9ea39d1383ab0b9fcb47ca9fab25afc4627","version":2}"#;

// How many cells and trials a plan has.
fn sizes(plan: &Plan) -> (u32, u32) {
    (plan.cells(), plan.trials())
}

// Copies, liars, links, processes, repeats, two bytes of the seed, and the number of the version.
fn numbers(plan: &Plan) -> [u64; 8] {
    let seed = plan.seed();
    [
        u64::from(plan.copies()),
        u64::from(plan.liars()),
        u64::from(plan.links()),
        u64::from(plan.nodes()),
        u64::from(plan.repeats()),
        u64::from(seed[1]),
        u64::from(seed[31]),
        plan.version().number(),
    ]
}

// Whether these are a plan's f, and its h, k and l.
fn has_lists(plan: &Plan, f: &[u16], h: &[u8], k: &[u8], l: &[u8]) -> bool {
    plan.f() == f && plan.h() == h && plan.k() == k && plan.l() == l
}

// Whether the large plan is read as it is written.
fn is_large(plan: &Plan) -> bool {
    let has_numbers = numbers(plan) == [3, 7, 9, 1999, 777_777, 0x11, 0xff, 1];
    let has_words = plan.dead() == Dead::Speak && plan.faults() == Some(Faults::Deaf);
    let has_lists = has_lists(plan, &[2, 4, 8, 16], &[6, 7, 8, 9], &[10], &[1, 2, 3, 4]);
    has_numbers && has_words && has_lists && !plan.implicit() && plan.deaf().is_none()
}

// Whether the plan of many deaf targets is.
fn has_many_deaf(plan: &Plan) -> bool {
    let has_numbers = numbers(plan) == [4, 1, 0, 12, 1, 0xe4, 0x27, 2];
    let has_words = plan.dead() == Dead::Silent && plan.faults().is_none();
    let has_lists = has_lists(plan, &[1, 7], &[1], &[1], &[1]);
    has_numbers && has_words && has_lists && plan.implicit() && plan.deaf() == Some(2048)
}

// How many of no, one and seven targets of a plan are deaf, and of sixteen.
fn deaf_counts(plan: &Plan) -> [u16; 4] {
    [
        plan.deaf_of(0),
        plan.deaf_of(1),
        plan.deaf_of(7),
        plan.deaf_of(16),
    ]
}

// The k, h, l and f of the cell of a number, if a plan has one.
fn cell_at(plan: &Plan, number: u32) -> Option<(u8, u8, u8, u16)> {
    if number >= plan.cells() {
        return None;
    }
    let Cell { k, h, l, f } = plan.cell(number);
    Some((k, h, l, f))
}

// The number of the cell of a trial, if a plan has one.
fn cell_of(plan: &Plan, trial: u32) -> Option<u32> {
    if trial < plan.trials() {
        Some(plan.cell_of(trial))
    } else {
        None
    }
}

// Numbers of cells of the large plan, and of each its k, h, l and f.
const CELLS: [(u32, (u8, u8, u8, u16)); 5] = [
    (0, (10, 6, 1, 2)),
    (1, (10, 6, 1, 4)),
    (4, (10, 6, 2, 2)),
    (16, (10, 7, 1, 2)),
    (63, (10, 9, 4, 16)),
];

// Trials of the large plan, and the cell of each.
const TRIALS: [(u32, u32); 4] = [(0, 0), (777_776, 0), (777_777, 1), (49_777_727, 63)];

// Whether a plan has those cells, and its trials are of them.
fn has_cells(plan: &Plan) -> bool {
    for (number, cell) in CELLS {
        if cell_at(plan, number) != Some(cell) {
            return false;
        }
    }
    for (trial, cell) in TRIALS {
        if cell_of(plan, trial) != Some(cell) {
            return false;
        }
    }
    true
}

#[test]
fn says_what_it_read(rt: HostRuntime) -> Result<(), Fail> {
    let plan = Plan::from_json(rt.alloc(), LARGE.as_bytes())?;
    assert!(rt; is_large(&plan) && has_cells(&plan) && sizes(&plan) == (64, 49_777_728));
    assert!(rt; deaf_counts(&plan) == [0, 1, 7, 16]);
    Ok(())
}

#[test]
fn says_how_many_are_deaf(rt: HostRuntime) -> Result<(), Fail> {
    let plan = Plan::from_json(rt.alloc(), MANY_DEAF.as_bytes())?;
    assert!(rt; has_many_deaf(&plan) && deaf_counts(&plan) == [0, 1, 7, 16]);
    let plan = Plan::from_json(rt.alloc(), SOME_DEAF.as_bytes())?;
    assert!(rt; deaf_counts(&plan) == [0, 1, 1, 1]);
    Ok(())
}

#[test]
fn has_as_many_cells_as_there_may_be(rt: HostRuntime) -> Result<(), Fail> {
    let plan = Plan::from_json(rt.alloc(), MOST.as_bytes())?;
    assert!(rt; sizes(&plan) == (4096, 8192));
    Ok(())
}

// Whether a plan is written as this text.
fn is_written(alloc: Global, plan: &Plan, text: &str) -> Result<bool, AllocError> {
    Ok(plan.canonical(alloc)?.as_slice() == text.as_bytes())
}

// Whether a plan's upgrade is written as this text, and is the same if the plan is written so too.
fn is_upgraded(alloc: Global, plan: &Plan, one: &str, two: &str) -> Result<bool, AllocError> {
    let upgraded = plan.upgrade(alloc)?;
    Ok(is_written(alloc, &upgraded, two)? && upgraded.same(plan) == (one == two))
}

// Whether a plan is written as the first of two texts, and as the second in the second version.
fn are_written(alloc: Global, plan: &Plan, texts: &str) -> Result<bool, AllocError> {
    let (one, two) = texts.split_once('\n').unwrap_or((texts, ""));
    Ok(is_written(alloc, plan, one)? && is_upgraded(alloc, plan, one, two)?)
}

// Whether the copy of the plan that a row begins with is written as the row's other texts.
fn is_row(alloc: Global, row: &str) -> Result<bool, PlanFault> {
    let (text, texts) = row.split_once('\n').unwrap_or((row, ""));
    let plan = Plan::from_json(alloc, text.as_bytes())?.try_clone(alloc)?;
    Ok(are_written(alloc, &plan, texts)?)
}

#[test]
fn writes_one_text_for_each_version(rt: HostRuntime) -> Result<(), Fail> {
    for row in TEXTS.split("\n\n") {
        assert!(rt; is_row(rt.alloc(), row)?, "{row}");
    }
    Ok(())
}

#[test]
fn names_its_faults(rt: HostRuntime) {
    let refused = PlanFault::from(Refusal::NoCell).code();
    let memory = PlanFault::Memory.code().status();
    assert!(rt; (memory, refused.number(), refused.status()) == (5, 8, 3));
}
