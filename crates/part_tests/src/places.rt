//! Worked examples, and printed texts.

use expect::{equal, equal_at};
use page_map::{PageFault, PageMap, Place};
use std::test::Fail;

/// At k 1 with page 0 spread over both modules: words alternate, two to a row.
#[test]
fn alternates_over_two_modules(rt: HostRuntime) {
    let mut map = PageMap::new(1);
    assert!(rt; equal(&rt, map.page(0), Some((1, 0))));
    assert!(rt; equal(&rt, map.set(0, 1, 0), Ok(())));
    // offset 255 is odd, and 255 div 2 is 127
    for (address, module, row) in [(0, 0, 0), (1, 1, 0), (255, 1, 127)] {
        assert!(rt;
            equal_at(
                &rt,
                address,
                map.place(address),
                Some(Place { module, row })
            )
        );
    }
    assert!(rt; equal(&rt, map.set(0, 1, 1), Err(PageFault::BadInterleave)));
    assert!(rt; equal(&rt, map.set(64, 1, 1), Err(PageFault::BadPage)));
    assert!(rt; equal(&rt, map.page(0), Some((1, 0))));
}

/// Page 63 on module 1 alone: each of its words has a row of its own.
#[test]
fn keeps_a_page_on_one_module(rt: HostRuntime) {
    let mut map = PageMap::new(1);
    assert!(rt; equal(&rt, map.set(63, 0, 1), Ok(())));
    assert!(rt; equal(&rt, map.page(63), Some((0, 1))));
    let last = Place {
        module: 1,
        row: 16_383,
    };
    assert!(rt; equal(&rt, map.place(16_383), Some(last)));
    assert!(rt; equal(&rt, map.place(16_384), None));
    assert!(rt; equal(&rt, map.page(64), None));
}

#[test]
fn prints_places_and_faults(rt: HostRuntime) -> Result<(), Fail> {
    let place = Place {
        module: 1,
        row: 300,
    };
    assert!(rt; equal(&rt, format!(in rt.alloc(); "{place}")?.as_str(), "1:300"));
    let page = PageFault::BadPage;
    assert!(rt;
        equal(
            &rt,
            format!(in rt.alloc(); "{page}")?.as_str(),
            "no such page"
        )
    );
    let interleave = PageFault::BadInterleave;
    assert!(rt;
        equal(
            &rt,
            format!(in rt.alloc(); "{interleave}")?.as_str(),
            "no such interleaving"
        )
    );
    Ok(())
}
