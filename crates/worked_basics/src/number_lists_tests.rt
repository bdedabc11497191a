//! Lists that grow, one beside another.

use number_lists::NumberLists;
use std::test::Fail;

#[test]
fn each_list_has_its_own_numbers(rt: HostRuntime) -> Result<(), Fail> {
    let mut lists = NumberLists::empty(rt.alloc(), 2)?;
    if lists.len() != 2 {
        return Err("another count of lists".into());
    }
    for (k, number) in [(0, 7), (1, 8), (0, 9)] {
        if k < lists.len() {
            lists.push(k, number)?;
        }
    }
    if lists.len() == 2 {
        assert_eq!(rt; lists.list(0), [7, 9].as_slice());
        assert_eq!(rt; lists.list(1), [8].as_slice());
    }
    Ok(())
}
