//! What the tests share: the bytes of hexadecimal digits, and comparisons, each proved once for all types.
use std::alloc::Global;
use std::fmt::Debug;
use std::process::Abort;
use std::test::Fail;

/// The bytes of hexadecimal digits.
pub(crate) fn hex(alloc: Global, digits: &str) -> Result<Vec<u8>, Fail> {
    Ok(hex::decode(alloc, digits)?)
}

/// The value is the one that is wanted.
pub(crate) fn same<T: PartialEq + Debug>(rt: &impl Abort, got: &T, want: &T) {
    assert_eq!(rt; got, want);
}

/// The value of a row is the one that is wanted.
pub(crate) fn same_of<T: PartialEq + Debug>(rt: &impl Abort, got: &T, want: &T, row: &str) {
    assert_eq!(rt; got, want, "of {row}");
}

/// What `told` gives for each row, in order, is what the row has after it.
pub(crate) fn keeps<F: FnMut(Global, &str) -> Result<String, Fail>>(
    rt: &impl Abort,
    alloc: Global,
    rows: &str,
    mut told: F,
) -> Result<(), Fail>
    requires { F.IsAlwaysCallable told }
{
    for row in rows.lines() {
        let (asked, want) = row.split_once(" = ").ok_or("no row")?;
        let found = told(alloc, asked)?;
        same_of(rt, &found.as_str(), &want, asked);
    }
    Ok(())
}

/// What was written is all of the payload, and so is its size: `less`, that within one byte less, is none.
pub(crate) fn is_all(
    out: &[u8],
    (size, less): (u32, Option<u32>),
    payload: &[u8],
) -> Result<(), Fail> {
    if size as usize != payload.len() || less.is_some() {
        return Err("another size".into());
    }
    if out != payload {
        return Err("written otherwise".into());
    }
    Ok(())
}
