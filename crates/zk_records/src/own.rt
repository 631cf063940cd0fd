//! `Own`: copies, with memory of their own, of what is borrowed from a payload.
ghost use Rattle.std.specs.Prelude.{◌≡◌, List, map, Err, IfOk, IfErr};
ghost use Rattle.std.specs.Iterator.{Drains, IsFinite};
ghost use Rattle.zk_jute.specs.Told.{IsReadAs};
ghost use Rattle.zk_records.specs.Owned.{each};

use crate::acl::{Acl, AclList};
use crate::stat::Stat;
use std::alloc::{AllocError, Global};
use zk_jute::{
    Blob, BlobRef, Bytes, Chars, ItemFault, Items, KnownIn, List, Sequence, Series, Text, TextList,
    TextRef,
};

/// A borrowed value that can be copied.
pub trait Own {
    /// The type of the copy.
    type Owned: Drop;

    /// The copy's value; each impl says that it is the very value that was borrowed.
    ghost same: { Self → Self.Owned };

    /// A copy with memory of its own.
    ///
    /// # Errors
    ///
    /// `AllocError` if memory is refused.
    fn own(&self, alloc: Global) -> Result<Self::Owned, AllocError>
        ensures { IfOk result (λ copy. copy ≡ same self.now) };
}

/// A copy of what was judged, unless that is a fault.
///
/// # Errors
///
/// The fault; `NoMemory`, at place 0, if memory is refused.
#[inline(always)]
pub fn copied<T: Own + Drop>(
    judged: Result<T, ItemFault>,
    alloc: Global,
) -> Result<T::Owned, ItemFault>
    ensures copy { IfOk judged (λ x. IsReadAs (T.same x) result) }
    ensures fault { IfErr judged (λ e. result ≡ Err e) }
{
    Ok(judged?.own(alloc)?)
}

/// Copies of all items that are left, in order.
///
/// # Errors
///
/// `AllocError` if memory is refused.
fn own_all<T: Own + Drop, I: Iterator<Item = T> + Drop>(
    items: I,
    alloc: Global,
) -> Result<Vec<T::Owned>, AllocError>
    requires can { I.can_next items }
    requires ends { IsFinite (I.remaining items) }
    ensures { IfOk result (λ copies. (xs : List T) × Drains I.next_gives items xs × (copies.items ≡ map T.same xs)) }
{
    let mut copies = Vec::new(alloc);
    for item in items {
        copies.push(item.own(alloc)?)?;
    }
    Ok(copies)
}

impl Own for i32 {
    type Owned = i32;

    ghost same = { λ x. x };

    fn own(&self, _alloc: Global) -> Result<i32, AllocError> {
        Ok(*self)
    }
}

impl Own for i64 {
    type Owned = i64;

    ghost same = { λ x. x };

    fn own(&self, _alloc: Global) -> Result<i64, AllocError> {
        Ok(*self)
    }
}

impl Own for bool {
    type Owned = bool;

    ghost same = { λ x. x };

    fn own(&self, _alloc: Global) -> Result<bool, AllocError> {
        Ok(*self)
    }
}

impl Own for Stat {
    type Owned = Stat;

    ghost same = { λ x. x };

    fn own(&self, _alloc: Global) -> Result<Stat, AllocError> {
        Ok(*self)
    }
}

impl<'a> Own for TextRef<'a> {
    type Owned = Text;

    ghost same = { λ x. x };

    fn own(&self, alloc: Global) -> Result<Text, AllocError> {
        match self {
            TextRef::Null => Ok(Text::Null),
            TextRef::Full(text) => Ok(Text::Full(Chars::new(String::from_str(
                alloc,
                text.as_str(),
            )?))),
        }
    }
}

impl<'a> Own for BlobRef<'a> {
    type Owned = Blob;

    ghost same = { λ x. x };

    fn own(&self, alloc: Global) -> Result<Blob, AllocError> {
        match self {
            BlobRef::Null => Ok(Blob::Null),
            BlobRef::Full(bytes) => Ok(Blob::Full(Bytes::new(Vec::from_slice(
                alloc,
                bytes.as_slice(),
            )?))),
        }
    }
}

impl<'a, M: KnownIn<'a> + Own> Own for Sequence<'a, M> {
    type Owned = Items<M::Owned>;

    ghost same = { map M.same };

    fn own(&self, alloc: Global) -> Result<Items<M::Owned>, AllocError> {
        Ok(Items::new(own_all(self.items(), alloc)?))
    }
}

/// A copy of a list: null, or a copy of each element.
fn own_list<'a, R: KnownIn<'a> + Own>(
    list: &Series<'a, R>,
    alloc: Global,
) -> Result<List<R::Owned>, AllocError>
    ensures { IfOk result (λ copy. copy ≡ each R.same list.now) }
{
    match list {
        Series::Null => Ok(List::Null),
        Series::Full(elements) => Ok(List::Full(elements.own(alloc)?)),
    }
}

impl<'a> Own for TextList<'a> {
    type Owned = List<Text>;

    ghost same = { λ x. x };

    #[tactic(auto, using(crate::proofs::Owned::each_same))]
    fn own(&self, alloc: Global) -> Result<List<Text>, AllocError> {
        own_list(self, alloc)
    }
}

impl<'a> Own for AclList<'a> {
    type Owned = List<Acl>;

    ghost same = { λ x. x };

    #[tactic(auto, using(crate::proofs::Owned::each_same))]
    fn own(&self, alloc: Global) -> Result<List<Acl>, AllocError> {
        own_list(self, alloc)
    }
}
