//! Lists of bits, read one by one.
use cut_sets::bits::BitList;
use std::test::Fail;

#[test]
fn bits_are_set_one_by_one(rt: HostRuntime) -> Result<(), Fail> {
    let mut bits = BitList::new(rt.alloc(), 130)?;
    assert!(rt; bits.len() == 130);
    for place in [0, 63, 64, 129] {
        if place < bits.len() {
            bits.set(place);
        }
    }
    for place in 0..130 {
        let is_set = place == 0 || place == 63 || place == 64 || place == 129;
        assert!(rt; bits.get(place) == Some(is_set), "{place}");
    }
    assert!(rt; bits.get(130) == None);
    Ok(())
}
