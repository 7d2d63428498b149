//! That the calls which copy succeed where there is memory, and that the free gate lets pass.

use rl_ports::{Batch, FreeGate, Gate, Item, Pair, Point};
use rl_value::Bytes;
use std::test::Fail;

#[test]
fn batches_are_copied_in_order(rt: HostRuntime) -> Result<(), Fail> {
    let alloc = rt.alloc();
    let put = Item::Put {
        area: 5,
        key: Bytes::of(vec![in alloc; 1]?),
        value: Bytes::of(vec![in alloc]?),
    };
    let drop = Item::Drop {
        area: 4,
        key: Bytes::of(vec![in alloc; 2, 3]?),
    };
    let batch = Batch::of(vec![in alloc; put, drop]?);
    let copy = batch.copy()?;
    assert_eq!(rt; copy.items().len(), 2);
    let kinds = matches!(
        copy.items(),
        [Item::Put { area: 5, .. }, Item::Drop { area: 4, .. }]
    );
    assert!(rt; kinds);
    let pair = Pair {
        key: Bytes::of(vec![in alloc; 1]?),
        value: Bytes::of(vec![in alloc]?),
    };
    assert_eq!(rt; pair.copy()?.key.bytes().len(), 1);
    Ok(())
}

#[test]
fn the_free_gate_lets_pass(rt: HostRuntime) {
    FreeGate.at(&rt, Point::Cut, 1);
}
