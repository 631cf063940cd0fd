//! Tests of jute's numbers, of borrowed values and lists, and of faults in words.
ghost use Rattle.std.specs.Prelude.{◌≤◌, length};

use super::shared::same;
use std::alloc::{AllocError, Global};
use std::process::Abort;
use std::test::Fail;
use zk_jute::{
    BlobRef, Ends, ItemFault, Items, Reason, TextList, TextRef, Undecided, bool_at, int_at,
    long_at, read_ref, scan,
};

#[test]
fn numbers(rt: HostRuntime) {
    let bytes = b"\0\0\0\x07\xff\xff\xff\xff\xff\xff\xff\xfe\x01";
    same(&rt, &int_at(bytes, 0), &Ok((7, 4)));
    same(&rt, &long_at(bytes, 4), &Ok((-2, 12)));
    same(&rt, &bool_at(bytes, 12), &Ok((true, 13)));
}

/// A list of a text and null.
const TWO: &[u8] = b"\0\0\0\x02\0\0\0\x02/a\xff\xff\xff\xff";

/// A text, borrowed from its payload.
#[test]
fn text(rt: HostRuntime) -> Result<(), Fail> {
    let (text, end) = read_ref::<TextRef>(TWO, 4)?;
    let TextRef::Full(text) = text else {
        return Err("null".into());
    };
    same(&rt, &(text.as_str(), end), &("/a", 10));
    Ok(())
}

/// Data at the same place.
#[test]
fn data_at_a_place(rt: HostRuntime) -> Result<(), Fail> {
    let (blob, end) = read_ref::<BlobRef>(TWO, 4)?;
    let BlobRef::Full(blob) = blob else {
        return Err("null".into());
    };
    same(&rt, &(blob.as_slice(), end), &(b"/a".as_slice(), 10));
    Ok(())
}

/// Where a value ends, or why it doesn't; and whether that is decided.
fn ended<T: Ends>(bytes: &[u8], at: usize) -> (Result<usize, ItemFault>, Option<usize>)
    requires { at ≤ length bytes.now }
{
    (
        T::end::<ItemFault>(bytes, at),
        T::end::<Undecided>(bytes, at).ok(),
    )
}

/// Where the text ends.
#[test]
fn ends(rt: HostRuntime) {
    let short = ItemFault::at(4, Reason::Short);
    same(&rt, &scan::<TextRef>(TWO, 4), &Ok(10));
    same(&rt, &ended::<TextRef>(TWO, 4), &(Ok(10), Some(10)));
    same(&rt, &ended::<TextRef>(&TWO[..9], 4), &(Err(short), None));
}

/// Where a list of texts ends that one look finds plain, or that needs a look at each.
#[test]
fn ends_of_lists(rt: HostRuntime) {
    let plain = b"\0\0\0\x02\0\0\0\x02/a\0\0\0\0";
    let letters = b"\0\0\0\x02\0\0\0\x02\xc3\xa4\xff\xff\xff\xff";
    let stray = b"\0\0\0\x02\0\0\0\x02\xc3\xa4\0\0\0\x01\xc3";
    let short = ItemFault::at(10, Reason::Short);
    let bad = ItemFault::at(14, Reason::BadText);
    same(&rt, &ended::<TextList>(plain, 0), &(Ok(14), Some(14)));
    same(
        &rt,
        &ended::<TextList>(&plain[..13], 0),
        &(Err(short), None),
    );
    same(&rt, &ended::<TextList>(TWO, 0), &(Ok(14), Some(14)));
    same(&rt, &ended::<TextList>(letters, 0), &(Ok(14), Some(14)));
    same(&rt, &ended::<TextList>(stray, 0), &(Err(bad), None));
}

/// A list of more texts than get one look: 129 of a letter, and one of two bytes.
fn many(alloc: Global) -> Result<Vec<u8>, AllocError> {
    let mut many = Vec::new(alloc);
    many.extend_from_slice(b"\0\0\0\x82")?;
    for _ in 0..129 {
        many.extend_from_slice(b"\0\0\0\x01n")?;
    }
    many.extend_from_slice(b"\0\0\0\x02\xc3\xa4")?;
    Ok(many)
}

/// Where it ends, whole and without its last byte.
#[test]
fn ends_of_many(rt: HostRuntime) -> Result<(), Fail> {
    let mut many = many(rt.alloc())?;
    same(&rt, &ended::<TextList>(&many, 0), &(Ok(655), Some(655)));
    many.truncate(654);
    let short = ItemFault::at(649, Reason::Short);
    same(&rt, &ended::<TextList>(&many, 0), &(Err(short), None));
    Ok(())
}

/// The elements of a list come in order, and are counted.
#[test]
fn listed(rt: HostRuntime) -> Result<(), Fail> {
    let (list, end) = read_ref::<TextList>(TWO, 0)?;
    same(&rt, &(list.is_null(), list.count(), end), &(false, 2, 14));
    let mut items = list.items();
    same(&rt, &items.size_hint(), &(2, Some(2)));
    assert!(rt; matches!(items.next(), Some(TextRef::Full(_))));
    assert!(rt; matches!(items.next(), Some(TextRef::Null)));
    assert!(rt; items.next().is_none());
    Ok(())
}

/// A list that is null.
#[test]
fn null_list(rt: HostRuntime) -> Result<(), Fail> {
    let (null, end) = read_ref::<TextList>(TWO, 10)?;
    same(&rt, &(null.is_null(), null.count(), end), &(true, 0, 14));
    Ok(())
}

/// An owned list has its length, and goes in a `for`.
#[test]
fn counted(rt: HostRuntime) -> Result<(), Fail> {
    let items = Items::new(vec![in rt.alloc(); 3u8, 4u8]?);
    same(&rt, &(items.len(), items.is_empty()), &(2, false));
    let mut last = 0;
    for item in &items {
        last = *item;
    }
    same(&rt, &last, &4);
    Ok(())
}

/// A fault in words.
#[test]
fn fault_in_words(rt: HostRuntime) -> Result<(), Fail> {
    let reason = Reason::XidOrder {
        expected: 1,
        got: -2,
    };
    let fault = ItemFault { place: 4, reason };
    let words = format!(in rt.alloc(); "{fault}")?;
    same(
        &rt,
        &words.as_str(),
        &"place=4 reason=XidOrder expected=1 got=-2",
    );
    Ok(())
}

/// The place of a fault is counted from the payload's beginning, through a pair within a pair.
#[test]
fn place_within_a_pair(rt: HostRuntime) {
    let cut = b"\0\x01\0\0\0\x02\0\0\0\x02/";
    let fault = ItemFault {
        place: 6,
        reason: Reason::Short,
    };
    let answer = read_ref::<(bool, (bool, TextList))>(cut, 0);
    same(&rt, &answer.err(), &Some(fault));
}
