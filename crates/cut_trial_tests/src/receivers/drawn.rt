//! Rings and roles that are drawn.

use cut_alerts::{Roles, RolesFault};
use cut_plan::Dead;
use cut_rings::{Rings, RingsFault};
use rand_chacha::ChaCha8Rng;
use rand_core::utils::NextWord;
use std::alloc::{AllocError, Global};

/// What processes are: of each, whether it has crashed, is deaf, lies, or is the source of a cut link.
#[derive(Drop)]
struct Lists {
    crashed: Vec<u16>,
    deaf: Vec<u16>,
    liars: Vec<u16>,
    links: Vec<(u16, u16)>,
}

/// Draws an order of processes.
fn drawn_order(
    alloc: Global,
    words: &mut ChaCha8Rng,
    processes: u16,
) -> Result<Vec<u16>, AllocError> {
    let mut keyed = Vec::new(alloc);
    for process in 0..processes {
        keyed.push((words.next_word(), process))?;
    }
    keyed.sort()?;
    keyed.iter().map(|&(_, process)| process).collect(alloc)
}

/// Draws `k` orders of processes.
fn drawn_orders(
    alloc: Global,
    words: &mut ChaCha8Rng,
    processes: u16,
    k: u8,
) -> Result<Vec<Vec<u16>>, AllocError> {
    let mut orders = Vec::new(alloc);
    for _ in 0..k {
        orders.push(drawn_order(alloc, words, processes)?)?;
    }
    Ok(orders)
}

/// Draws `k` rings of some processes.
pub(crate) fn drawn_rings(
    alloc: Global,
    words: &mut ChaCha8Rng,
    processes: u16,
    k: u8,
) -> Result<Rings, RingsFault> {
    let orders = drawn_orders(alloc, words, processes, k)?;
    if processes > 2048 || orders.len() > 32 {
        return Err(RingsFault::TooFew);
    }
    Rings::from_lists(alloc, processes, &orders)
}

/// Draws what each process is: half of them are healthy, the others of one of the four kinds.
pub(crate) fn drawn_roles(
    alloc: Global,
    words: &mut ChaCha8Rng,
    processes: u16,
) -> Result<Roles, RolesFault> {
    let mut lists = Lists {
        crashed: Vec::new(alloc),
        deaf: Vec::new(alloc),
        liars: Vec::new(alloc),
        links: Vec::new(alloc),
    };
    for process in 0..processes {
        add(&mut lists, process, processes, words.next_word())?;
    }
    let dead = if words.next_word() % 2 == 0 {
        Dead::Silent
    } else {
        Dead::Speak
    };
    let Lists {
        crashed,
        deaf,
        liars,
        links,
    } = &lists;
    Roles::given_mixed(alloc, processes, crashed, deaf, liars, links, dead)
}

/// Adds a process to the list that a word names, if it names one.
fn add(lists: &mut Lists, process: u16, processes: u16, word: u32) -> Result<(), AllocError> {
    match word % 8 {
        0 => lists.crashed.push(process)?,
        1 => lists.deaf.push(process)?,
        2 => lists.liars.push(process)?,
        3 => {
            let other = (word / 8 % u32::from(processes.max(1))) as u16;
            if other != process {
                lists.links.push((process, other))?;
            }
        }
        _ => {}
    }
    Ok(())
}
