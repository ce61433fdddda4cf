//! A pool, and what it finds.
use solv_pool::{DepId, DepNode, NameId, Pool};
use std::test::Fail;

/// Whether a text has this id in a pool, or gets it.
fn has_name(pool: &mut Pool, text: &[u8], id: u32) -> bool {
    match pool.intern(text) {
        Ok(found) => found == NameId(id),
        Err(_) => false,
    }
}

/// Whether the plain relation of a name has this id in a pool, or gets it.
fn has_relation(pool: &mut Pool, name: NameId, id: u32) -> bool {
    if name.0 as usize >= pool.name_count() {
        return false;
    }
    match pool.relation(DepNode::Simple(name)) {
        Ok(found) => found == DepId(id),
        Err(_) => false,
    }
}

/// A text of more than 30 bytes.
const LONG: &[u8] = b"a name of more than thirty bytes";

#[test]
fn a_pool_finds_what_it_holds(rt: HostRuntime) -> Result<(), Fail> {
    let mut pool = Pool::new(rt.alloc());
    assert!(rt; has_name(&mut pool, b"a", 0) && has_name(&mut pool, LONG, 1));
    assert!(rt; has_relation(&mut pool, NameId(1), 0));
    assert!(rt;
        has_name(&mut pool, LONG, 1) && has_name(&mut pool, b"b", 2) && has_name(&mut pool, b"b", 2)
    );
    assert!(rt; has_relation(&mut pool, NameId(1), 0) && has_relation(&mut pool, NameId(2), 1));
    assert!(rt; pool.name_count() == 3 && pool.relation_count() == 2);
    Ok(())
}
