//! Values by ids and sets of ids, on both sides of the end of the table.

use id_maps::{IdMap, IdSet};
use std::test::Fail;

#[test]
fn each_id_has_the_value_that_it_was_given_last(rt: HostRuntime) -> Result<(), Fail> {
    let mut map = IdMap::new(rt.alloc());
    let ids = [0, 1, 1_048_575, 1_048_576, 4_294_967_295];
    for id in ids {
        assert_eq!(rt; map.get(id), None);
        map.insert(id, 7)?;
        map.insert(id, id)?;
    }
    for id in ids {
        assert_eq!(rt; map.get(id), Some(id));
    }
    assert_eq!(rt; map.get(2), None);
    assert_eq!(rt; map.get(1_048_577), None);
    Ok(())
}

#[test]
fn a_set_has_the_ids_that_were_put_in(rt: HostRuntime) -> Result<(), Fail> {
    let mut set = IdSet::new(rt.alloc());
    let ids = [0, 1_048_575, 1_048_576, 4_294_967_295];
    for id in ids {
        assert!(rt; !set.contains(id));
        assert!(rt; set.insert(id)?);
        assert!(rt; !set.insert(id)?);
        assert!(rt; set.contains(id));
    }
    assert!(rt; !set.contains(1));
    assert!(rt; !set.contains(1_048_577));
    Ok(())
}
