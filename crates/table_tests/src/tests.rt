use crate::helpers::*;
use std::test::Fail;
use table::Handle;

const ROOT: Handle = Handle {
    place: 0,
    number: 1,
};

fn handle(place: u16, number: u32) -> Handle {
    Handle { place, number }
}

#[test]
fn refuses_sizes(rt: HostRuntime) -> Result<(), Fail> {
    assert!(rt; started(rt.alloc(), 0).is_err());
    assert!(rt; started(rt.alloc(), 65_536).is_err());
    let most = started(rt.alloc(), 65_535)?;
    assert!(rt; most.living() == 1);
    assert!(rt; most.vacant() == 65_534);
    Ok(())
}

#[test]
fn links_nodes(rt: HostRuntime) -> Result<(), Fail> {
    let mut t = started(rt.alloc(), 6)?;
    let a = put(&mut t, Spot::Last, ROOT, 2).expect(&rt, "a place is free");
    let b = put(&mut t, Spot::Last, ROOT, 3).expect(&rt, "a place is free");
    let c = put(&mut t, Spot::First, a, 4).expect(&rt, "a place is free");
    let d = put(&mut t, Spot::After, a, 5).expect(&rt, "a place is free");
    let of_root = Around {
        text: (0, 0),
        parent: None,
        beside: (None, None),
        below: (Some(1), Some(2)),
        index: 0,
    };
    assert!(rt; seen(&t, ROOT) == Some(of_root));
    let of_a = Around {
        text: (20, 10),
        parent: Some(0),
        beside: (None, Some(4)),
        below: (Some(3), Some(3)),
        index: 0,
    };
    assert!(rt; seen(&t, a) == Some(of_a));
    let of_b = Around {
        text: (30, 10),
        parent: Some(0),
        beside: (Some(4), None),
        below: (None, None),
        index: 2,
    };
    assert!(rt; seen(&t, b) == Some(of_b));
    let of_c = Around {
        text: (40, 10),
        parent: Some(1),
        beside: (None, None),
        below: (None, None),
        index: 0,
    };
    assert!(rt; seen(&t, c) == Some(of_c));
    let of_d = Around {
        text: (50, 10),
        parent: Some(0),
        beside: (Some(1), Some(2)),
        below: (None, None),
        index: 1,
    };
    assert!(rt; seen(&t, d) == Some(of_d));
    Ok(())
}

// The places of a removed node and its child are taken again, the last one freed first, and the old handles find nothing.
#[test]
fn takes_places_again(rt: HostRuntime) -> Result<(), Fail> {
    let mut t = started(rt.alloc(), 5)?;
    let a = put(&mut t, Spot::Last, ROOT, 2).expect(&rt, "a place is free");
    let b = put(&mut t, Spot::Last, ROOT, 3).expect(&rt, "a place is free");
    let c = put(&mut t, Spot::Last, a, 4).expect(&rt, "a place is free");
    assert!(rt; cut(&mut t, a));
    assert!(rt; t.vacant() == 3);
    assert!(rt; put(&mut t, Spot::Last, b, 5) == Some(handle(3, 5)));
    assert!(rt; put(&mut t, Spot::First, b, 6) == Some(handle(1, 6)));
    assert!(rt; put(&mut t, Spot::First, b, 7) == Some(handle(4, 7)));
    assert!(rt; put(&mut t, Spot::First, b, 8) == None);
    assert!(rt; !t.holds(a));
    assert!(rt; !t.holds(c));
    assert!(rt; t.living() == 5);
    Ok(())
}

#[test]
fn moves_text(rt: HostRuntime) -> Result<(), Fail> {
    let mut t = started(rt.alloc(), 2)?;
    let a = put(&mut t, Spot::Last, ROOT, 2).expect(&rt, "a place is free");
    assert!(rt; moved(&mut t, a, 7, 3));
    let of_a = Around {
        text: (7, 3),
        parent: Some(0),
        beside: (None, None),
        below: (None, None),
        index: 0,
    };
    assert!(rt; seen(&t, a) == Some(of_a));
    Ok(())
}

// A record stays small: 65,535 of them are two mebibytes.
#[test]
fn records_are_small(rt: HostRuntime) {
    assert!(rt; table::Table::record_size() == 32);
}
