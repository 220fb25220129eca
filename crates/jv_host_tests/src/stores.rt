use crate::calls::play_all;
use jv_store::{Blocks, Cells};

#[test]
fn blocks(rt: HostRuntime) {
    let is_done = play_all::<Blocks, HostRuntime>(&rt, rt.alloc());
    assert!(rt; is_done);
}

#[test]
fn cells(rt: HostRuntime) {
    let is_done = play_all::<Cells, HostRuntime>(&rt, rt.alloc());
    assert!(rt; is_done);
}

/// For a run with an allocation refused.
#[test]
fn blocks_or_has_no_memory(rt: HostRuntime) {
    let _is_done = play_all::<Blocks, HostRuntime>(&rt, rt.alloc());
}

/// For a run with an allocation refused.
#[test]
fn cells_or_has_no_memory(rt: HostRuntime) {
    let _is_done = play_all::<Cells, HostRuntime>(&rt, rt.alloc());
}
