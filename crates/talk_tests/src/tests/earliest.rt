//! Tests of the first impossible bytes of bodies.
use super::frames::{Has, hex, keeps};
use std::alloc::Global;
use std::test::Fail;
use zk_answers::Layout;
use zk_earliest::{earliest, earliest_law};
use zk_records::Op;

mod answered;
mod asked;

use answered::ANSWERED;
use asked::ASKED;

/// The answer for a body of the layout, in words; results of a multi have none.
fn told(alloc: Global, layout: &mut Layout, digits: &str) -> Result<String, Fail> {
    let (layout, body) = (*layout, hex(alloc, digits)?);
    if body.len() > 1000 {
        return Err("too long".into());
    }
    if layout == Layout::Answered(Op::Multi) {
        return Err("results of a multi".into());
    }
    Ok(format!(in alloc; "{:?}", earliest(layout, &body))?)
}

#[test]
fn bodies_of_every_layout_of_the_client(rt: HostRuntime) -> Result<(), Fail> {
    for (layout, rows) in ASKED {
        let mut layout = *layout;
        keeps(&rt, rt.alloc(), &mut layout, rows, Has::All, told)?;
    }
    Ok(())
}

#[test]
fn bodies_of_every_layout_of_the_server(rt: HostRuntime) -> Result<(), Fail> {
    for (layout, rows) in ANSWERED {
        let mut layout = *layout;
        keeps(&rt, rt.alloc(), &mut layout, rows, Has::All, told)?;
    }
    Ok(())
}

/// The law has no run: it is called, and does nothing.
#[test]
fn law(_rt: HostRuntime) {
    earliest_law();
}
