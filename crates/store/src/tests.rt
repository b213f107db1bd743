// A list takes its room when it is made, and then holds what is put in.
use crate::store::Store;
use std::test::Fail;

#[test]
fn a_list_takes_as_many_items_as_its_type_says(rt: HostRuntime) -> Result<(), Fail> {
    let mut list: Store<u8, 3> = Store::new(rt.alloc())?;
    list.push_if_room(7);
    list.push_if_room(8);
    list.push_if_room(9);
    assert_eq!(rt; list.as_slice(), [7, 8, 9].as_slice());
    list.refill_with(2, 5);
    assert_eq!(rt; list.as_slice(), [5, 5].as_slice());
    list.clear();
    assert_eq!(rt; list.len(), 0);
    Ok(())
}

// What asks for room takes what comes, where there is room.
#[test]
fn a_list_takes_what_it_has_room_for(rt: HostRuntime) -> Result<(), Fail> {
    let mut list: Store<u8, 3> = Store::new(rt.alloc())?;
    list.push(7);
    list.push(8);
    assert_eq!(rt; list.as_slice(), [7, 8].as_slice());
    list.refill(4u8..7);
    assert_eq!(rt; list.as_slice(), [4, 5, 6].as_slice());
    list.refill_from_slice([1u8, 2].as_slice());
    assert_eq!(rt; list.as_slice(), [1, 2].as_slice());
    Ok(())
}
