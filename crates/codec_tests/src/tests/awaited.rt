//! Tests of `Awaited`, as of `Waiting`: lanes, order, parts and weight, of requests whose operations allow their xids.

use super::waiting::Batch;
use std::test::Fail;
use zk_asks::{Alone, Asked, allowed};
use zk_records::{Op, PartOp};
use zk_waiting::{Awaited, Lane, PutFault};

/// Puts a request without parts; `None`: its operation doesn't allow the xid.
fn put(waiting: &mut Awaited, xid: i32, op: Op) -> Option<Result<(), PutFault>> {
    if allowed(xid, op) {
        Some(waiting.put(xid, &Alone { op }))
    } else {
        None
    }
}

/// Puts a multi of two parts.
fn put_batch(waiting: &mut Awaited, xid: i32) -> Option<Result<(), PutFault>> {
    if allowed(xid, Op::Multi) {
        Some(waiting.put(xid, &Batch {}))
    } else {
        None
    }
}

/// The lane's oldest request: its xid, its operation and the operations of its first three parts.
fn oldest(waiting: &Awaited, lane: Lane) -> Option<(i32, Op, [Option<PartOp>; 3])> {
    let slot = waiting.oldest(lane)?;
    let parts = [slot.part(0), slot.part(1), slot.part(2)];
    Some((slot.xid(), slot.op(), parts))
}

/// Drops the lane's oldest request, and returns its xid.
#[tactic(auto, using(std::proofs::lemmas::Option::slice_get_within))]
fn take_oldest(waiting: &mut Awaited, lane: Lane) -> Option<i32> {
    let xid = waiting.oldest(lane)?.xid();
    waiting.drop_oldest(lane);
    Some(xid)
}

/// How many requests wait, and what they weigh.
fn sizes(waiting: &Awaited) -> (u32, u32) {
    (waiting.count(), waiting.weight())
}

/// Requests of all lanes but one are put, and a multi after them.
fn are_put(waiting: &mut Awaited) -> bool {
    for (xid, op) in [
        (7, Op::Exists),
        (-2, Op::Ping),
        (7, Op::GetData),
        (-8, Op::SetWatches),
        (5, Op::Sync),
        (-2, Op::Ping),
    ] {
        if put(waiting, xid, op) != Some(Ok(())) {
            return false;
        }
    }
    put_batch(waiting, 6) == Some(Ok(()))
}

/// The oldest request of each lane.
fn are_oldest(waiting: &Awaited) -> bool {
    let none = [None, None, None];
    oldest(waiting, Lane::Auth) == None
        && oldest(waiting, Lane::Watches) == Some((-8, Op::SetWatches, none))
        && oldest(waiting, Lane::Ping) == Some((-2, Op::Ping, none))
        && oldest(waiting, Lane::Plain) == Some((7, Op::Exists, none))
}

/// The requests are taken in the order of their lanes, up to the multi. Each takes its weight along.
fn are_taken(waiting: &mut Awaited) -> bool {
    for (lane, xid, count, weight) in [
        (Lane::Plain, Some(7), 6, 8),
        (Lane::Ping, Some(-2), 5, 7),
        (Lane::Plain, Some(7), 4, 6),
        (Lane::Auth, None, 4, 6),
        (Lane::Watches, Some(-8), 3, 5),
        (Lane::Plain, Some(5), 2, 4),
        (Lane::Watches, None, 2, 4),
    ] {
        if take_oldest(waiting, lane) != xid || sizes(waiting) != (count, weight) {
            return false;
        }
    }
    true
}

/// Requests wait in the order of their lanes, up to the weight of 9. One more is refused, and changes nothing.
fn wait_in_lanes(waiting: &mut Awaited) -> bool {
    let parts = [Some(PartOp::Delete), Some(PartOp::Check), None];
    are_put(waiting)
        && sizes(waiting) == (7, 9)
        && put(waiting, 1, Op::Exists) == Some(Err(PutFault::QueueFull))
        && put(waiting, -4, Op::Auth) == Some(Err(PutFault::QueueFull))
        && sizes(waiting) == (7, 9)
        && are_oldest(waiting)
        && are_taken(waiting)
        && oldest(waiting, Lane::Plain) == Some((6, Op::Multi, parts))
}

/// None waits after `renew`, and there is room again for a weight of 9.
fn begin_anew(waiting: &mut Awaited) -> bool {
    waiting.renew();
    sizes(waiting) == (0, 0)
        && oldest(waiting, Lane::Plain) == None
        && oldest(waiting, Lane::Ping) == None
        && wait_in_lanes(waiting)
}

#[test]
fn requests_are_awaited_in_their_lanes(rt: HostRuntime) -> Result<(), Fail> {
    let mut waiting = Awaited::new(rt.alloc(), 9)?;
    assert!(rt; wait_in_lanes(&mut waiting));
    assert!(rt; begin_anew(&mut waiting));
    Ok(())
}
