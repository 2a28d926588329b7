use crate::texts::{edge_of, numbers};
use cut_draws::{Delivery, Draws, ProcessOrder};
use cut_rings::Edge;
use std::alloc::{AllocError, Global};
use std::test::Fail;

const ZEROS: [u8; 32] = [0; 32];

const STEPS: [u8; 32] = [
    0x01, 0x23, 0x45, 0x67, 0x89, 0xab, 0xcd, 0xef, 0x01, 0x23, 0x45, 0x67, 0x89, 0xab, 0xcd, 0xef,
    0x01, 0x23, 0x45, 0x67, 0x89, 0xab, 0xcd, 0xef, 0x01, 0x23, 0x45, 0x67, 0x89, 0xab, 0xcd, 0xef,
];

// The expected values below come from a separate script that computes the cipher's blocks itself.

const PLACES: &str = "0 1 2 14 15 16 62 63 1048576 1074790398";

// Seeds, trials, and the keys at those places.
const KEYS: &str =
    "zeros 0 3453979709098975113 15438444568545614719 16769253816244963615 13329945953658866702 4827309105091358418 \
     1007309685008737770 4043282951218100578 125952777600890856 13662141138316179140 2253449605149535667
zeros 4095999999 1479641028294521055 18345044604836445862 3745023081836197883 393792736822130757 7019273735943467975 \
     17015641487063061933 2940390934694524772 16951258059634961883 13978065396296651861 6661752569563899352
steps 4095999999 4574686602887010799 4886856323805080082 5820315458369784225 11004506661193140445 348546137091375197 \
     8154471212882438253 5385512404805969313 11379300628393560317 10660880656883333660 16733286135994578800
ones 0 5269670306348695117 4996319707844849960 8818102119953885077 7285056342026814943 3113964123913662095 \
     5273484884439072568 10601445878158210088 8729722275992009321 12604058925985099883 2809400355360571979";

// The seed that a word names.
fn seed_of(word: &str) -> [u8; 32] {
    match word {
        "zeros" => ZEROS,
        "steps" => STEPS,
        _ => [255; 32],
    }
}

// The draws of the trial that a row begins with, and the rest of the row.
fn draws_of(row: &str) -> (Draws, &str) {
    let (seed, rest) = row.split_once(' ').unwrap_or((row, ""));
    let (trial, rest) = rest.split_once(' ').unwrap_or((rest, ""));
    let trial = trial.parse::<u32>().unwrap_or(0);
    (Draws::new(seed_of(seed), trial), rest)
}

// Whether a key is the one that is written.
fn is_key(draws: &mut Draws, place: &str, key: &str) -> bool {
    let place = place.parse::<u64>().unwrap_or(u64::MAX);
    place < 4_294_967_296 && key.parse::<u64>() == Ok(draws.key(place))
}

// Whether the trial of a row has its keys at the places.
fn has_keys(row: &str) -> bool {
    let (mut draws, keys) = draws_of(row);
    for (place, key) in PLACES.split(' ').zip(keys.split(' ')) {
        if !is_key(&mut draws, place, key) {
            return false;
        }
    }
    keys.split(' ').count() == 10
}

#[test]
fn keys_at_places(rt: HostRuntime) {
    for row in KEYS.lines() {
        assert!(rt; has_keys(row), "{row}");
    }
}

// Seeds, trials, how many processes are ordered, and their order.
const ORDERS: &str = "zeros 0 5: 0 4 3 2 1
zeros 4095999999 5: 2 0 3 1 4
steps 4095999999 7: 0 1 3 6 4 5 2
ones 0 2: 0 1
zeros 0 1: 0
zeros 0 0:";

// Whether an order is this one.
fn is_order(order: &ProcessOrder, wanted: &[u16]) -> bool {
    if order.len() != wanted.len() {
        return false;
    }
    for (i, process) in wanted.iter().enumerate() {
        if order.get(i) != *process {
            return false;
        }
    }
    true
}

// Whether the processes of a row are ordered so, in an order that is made and in one that may have been used.
fn are_ordered(alloc: Global, order: &mut ProcessOrder, row: &str) -> Result<bool, AllocError> {
    let (mut draws, rest) = draws_of(row);
    let (n, list) = rest.split_once(':').unwrap_or((rest, ""));
    let n = n.parse::<u16>().unwrap_or(u16::MAX);
    let wanted = numbers(alloc, list)?;
    draws.order_processes(order, n)?;
    Ok(is_order(order, &wanted) && draws.process_order(alloc, n)? == wanted)
}

#[test]
fn process_orders(rt: HostRuntime) -> Result<(), Fail> {
    let mut order = ProcessOrder::new(rt.alloc());
    for row in ORDERS.lines() {
        assert!(rt; are_ordered(rt.alloc(), &mut order, row)?, "{row}");
    }
    Ok(())
}

// Whether a delivery is of the edge that is written, and the copy, if one is written after it.
fn is_written(delivery: Delivery, word: &str) -> bool {
    let (edge, copy) = word.split_once('+').unwrap_or((word, ""));
    delivery.edge == edge_of(edge) && (copy.is_empty() || copy.parse::<u8>() == Ok(delivery.copy))
}

// Whether deliveries are those that are written with blanks between them.
fn are_written(order: &[Delivery], text: &str) -> bool {
    for (delivery, word) in order.iter().zip(text.split(' ')) {
        if !is_written(*delivery, word) {
            return false;
        }
    }
    order.len() == text.split(' ').count()
}

// Edges, by their rings and subjects.
macro_rules! edges {
    ($(($ring:expr, $subject:expr)),*) => {
        [$(Edge { ring: $ring, subject: $subject }),*]
    };
}

#[test]
fn deliveries_of_the_first_trial(rt: HostRuntime) -> Result<(), Fail> {
    let mut draws = Draws::new(ZEROS, 0);
    let edges = edges![(0, 0), (1, 0), (2, 0), (0, 2), (1, 3), (2, 3)];
    let once = "0.0 1.0 2.3 0.2 2.0 1.3";
    assert!(rt; are_written(&draws.deliveries(rt.alloc(), 4, 3, &edges, 1)?, once));
    let twice = "0.0 1.0 2.3 0.2 2.0 2.3 1.0 2.0 1.3 1.3 0.2 0.0";
    assert!(rt; are_written(&draws.deliveries(rt.alloc(), 4, 3, &edges, 2)?, twice));
    Ok(())
}

#[test]
fn deliveries_of_a_late_trial(rt: HostRuntime) -> Result<(), Fail> {
    let mut draws = Draws::new(STEPS, 4095999999);
    let edges = edges![
        (0, 0),
        (1, 0),
        (2, 0),
        (3, 0),
        (0, 2),
        (3, 3),
        (1, 4),
        (0, 5)
    ];
    let once = "0.2 2.0 1.0 1.4 3.3 0.5 0.0 3.0";
    assert!(rt; are_written(&draws.deliveries(rt.alloc(), 6, 4, &edges, 1)?, once));
    let twice = "0.2 0.0 3.3 1.0 2.0 1.0 0.5 1.4 3.0 1.4 3.3 0.5 0.0 2.0 3.0 0.2";
    assert!(rt; are_written(&draws.deliveries(rt.alloc(), 6, 4, &edges, 2)?, twice));
    Ok(())
}

// The first two come by 860360001008966875 and 860360001009086893, keys that agree in their first 46 bits. The script
// searched trials and receivers for two such. The whole keys decide, and so the later copy comes first.
#[test]
fn the_last_bits_of_a_key_decide_before_the_copy(rt: HostRuntime) -> Result<(), Fail> {
    let mut draws = Draws::new(ZEROS, 12);
    let edges = edges![(31, 663), (24, 692)];
    let order = draws.deliveries(rt.alloc(), 236, 32, &edges, 2)?;
    let wanted = "31.663+1 24.692+0 24.692+1 31.663+0";
    assert!(rt; are_written(&order, wanted));
    Ok(())
}

// Two others, by 3241235453789715315 and 3241235453789784697: the edge of the greater number comes first.
#[test]
fn the_last_bits_of_a_key_decide_before_the_edge(rt: HostRuntime) -> Result<(), Fail> {
    let mut draws = Draws::new(ZEROS, 3);
    let edges = edges![(28, 26), (24, 689)];
    let order = draws.deliveries(rt.alloc(), 913, 32, &edges, 4)?;
    let wanted = "24.689+0 28.26+3 24.689+3 24.689+2 28.26+0 28.26+1 24.689+1 28.26+2";
    assert!(rt; are_written(&order, wanted));
    Ok(())
}
