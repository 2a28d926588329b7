//! Lists in memory of their own.
use cut_lists::Items;
use std::test::Fail;

#[test]
fn items_stay_as_they_were_given(rt: HostRuntime) -> Result<(), Fail> {
    let items = Items::<u16>::copy_of(rt.alloc(), &[3, 1, 2])?;
    let copy = items.try_clone(rt.alloc())?;
    assert!(rt; items.as_slice() == [3, 1, 2].as_slice());
    let again = Items::from_vec(copy.into_vec());
    assert!(rt; again.as_slice() == [3, 1, 2].as_slice());
    Ok(())
}
