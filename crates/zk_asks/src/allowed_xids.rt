//! Which xids the requests of an operation may have.
ghost use Rattle.std.specs.Prelude.{IsTrue, ◌↔◌};
ghost use Rattle.zk_asks.specs.Codes.{IsAllowed};

use zk_records::Op;

/// Whether a request of the operation `op` may have the xid `xid`. -1 is the xid of events, and no request's; -2 is
/// that of pings and of nothing else (`ClientCnxn.SendThread.sendPing`); -4 that of auths and of nothing else
/// (`ClientCnxn.addAuthInfo`); under -8 comes setWatches alone (`ClientCnxn.SendThread.primeConnection`).
pub fn allowed(xid: i32, op: Op) -> bool
    ensures { IsTrue result ↔ IsAllowed xid op }
{
    match op {
        Op::Ping => xid == -2,
        Op::Auth => xid == -4,
        Op::SetWatches => xid != -1 && xid != -2 && xid != -4,
        _ => xid != -1 && xid != -2 && xid != -4 && xid != -8,
    }
}
