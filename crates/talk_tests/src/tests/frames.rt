//! What the tests share: frames, limits, and comparisons, each proved once for all types.
use std::alloc::Global;
use std::fmt::Debug;
use std::process::Abort;
use std::test::Fail;
use zk_records::Profile;
use zk_talk::{Limits, Side};

/// A connect request.
pub(crate) const CONNECT: &[u8] =
    b"\0\0\0-\0\0\0\0\0\0\0\0\0\0\0\0\0\0u0\0\0\0\0\0\0\0\0\0\0\0\x10\0\0\0\0\0\0\0\0\0\0\0\0\0\0\0\0\0";

/// The reply to it.
pub(crate) const CONNECTED: &[u8] =
    b"\0\0\0%\0\0\0\0\0\0u0\x01\0\0\0\0\0\0\x01\0\0\0\x10\0\x01\x02\x03\x04\x05\x06\x07\x08\x09\x0a\x0b\x0c\x0d\x0e\x0f\0";

/// An exists request of `/a`, under xid 1.
pub(crate) const EXISTS: &[u8] = b"\0\0\0\x0f\0\0\0\x01\0\0\0\x03\0\0\0\x02/a\x01";

/// The reply to it: there is no such node.
pub(crate) const NO_NODE: &[u8] = b"\0\0\0\x10\0\0\0\x01\0\0\0\0\0\0\0\x05\xff\xff\xff\x9b";

/// The first worked example that has a reply.
pub(crate) const EXAMPLE: [(Side, &[u8]); 4] = [
    (Side::Client, CONNECT),
    (Side::Server, CONNECTED),
    (Side::Client, EXISTS),
    (Side::Server, NO_NODE),
];

/// The usual limits.
pub(crate) fn usual() -> Result<Limits, Fail> {
    Ok(Limits::new(4_194_304, 4_194_304, 65_536).ok_or("no limits")?)
}

/// The usual limits, with the newer profile.
pub(crate) fn newer() -> Result<Limits, Fail> {
    Ok(usual()?.with_profile(Profile::V35))
}

/// The bytes of hexadecimal digits.
pub(crate) fn hex(alloc: Global, digits: &str) -> Result<Vec<u8>, Fail> {
    Ok(hex::decode(alloc, digits)?)
}

/// The value is the one that is wanted.
pub(crate) fn same<T: PartialEq + Debug>(rt: &impl Abort, got: &T, want: &T) {
    assert_eq!(rt; got, want);
}

/// How much of what `told` gives a row has.
#[derive(Clone, Copy)]
pub(crate) enum Has {
    Beginning,
    All,
}

impl Has {
    /// What was found of a row is what it has.
    fn keeps(self, rt: &impl Abort, asked: &str, found: &str, want: &str) {
        let is_kept = match self {
            Has::Beginning => found.starts_with(want),
            Has::All => found == want,
        };
        assert!(rt; is_kept, "{asked} = {found}");
    }
}

/// What `told` gives of `of` for each row, in order, is what the row has of it.
pub(crate) fn keeps<T, F: FnMut(Global, &mut T, &str) -> Result<String, Fail>>(
    rt: &impl Abort,
    alloc: Global,
    of: &mut T,
    rows: &str,
    has: Has,
    mut told: F,
) -> Result<(), Fail>
    requires { F.IsAlwaysCallable told }
{
    for row in rows.lines() {
        let (asked, want) = row.split_once(" = ").ok_or("no row")?;
        let found = told(alloc, of, asked)?;
        has.keeps(rt, asked, &found, want);
    }
    Ok(())
}

/// The side of a row, `C` or `S`, and the bytes of the hexadecimal digits after it.
pub(crate) fn piece(alloc: Global, row: &str) -> Result<(Side, Vec<u8>), Fail> {
    let (letter, digits) = row.split_once(' ').ok_or("no side")?;
    let side = match letter {
        "C" => Side::Client,
        _ => Side::Server,
    };
    Ok((side, hex(alloc, digits)?))
}
