//! A call of which a write fails.
use knot_ports::{MemSink, Status};
use meeting_walks::Unwatched;
use memory_core::Items;
use seek_core::{Blocks, Bounds, Resources, run};
use std::alloc::Global;
use std::test::Fail;
use std::thread::Threads;

/// No moves are sought.
const STILL: Bounds = Bounds {
    walks: meeting_walks::Bounds {
        seed: 1,
        steps: 0,
        room: 40_000,
    },
    workers: 1,
};

/// The trefoil and the unknot.
const TREFOIL_UNKNOT: &[u8] = b"x 4 3 2 1 0\no 2 1 0 4 3\nx 0 1\no 1 0\n";

/// The status of a call on the trefoil and the unknot.
fn status_on<R: Threads + Sync>(rt: &R, alloc: Global, sink: &mut MemSink) -> Result<Status, Fail> {
    let parts = [Items::from_vec(Vec::from_slice(alloc, TREFOIL_UNKNOT)?)];
    let blocks = Blocks::new(alloc);
    let resources = Resources {
        rt,
        alloc,
        bounds: STILL,
    };
    Ok(run(&resources, &parts, &blocks, sink, &mut Unwatched).status())
}

#[test]
fn a_sink_that_fails_ends_the_call(rt: HostRuntime) -> Result<(), Fail> {
    let mut sink = MemSink::new(rt.alloc(), 10, 25, Vec::new(rt.alloc())).map_err(|_| "no memory")?;
    assert!(rt; status_on(&rt, rt.alloc(), &mut sink)? == Status::WriteFault);
    assert_eq!(rt; sink.bytes(), b"certificate 2\ndifferent d".as_slice());
    Ok(())
}
