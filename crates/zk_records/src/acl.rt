//! Access rights: the records `Id` and `ACL` of zookeeper.jute.
ghost use Rattle.std.specs.Prelude.{◌≡◌, ◌≤◌, ℕ, length, refl, Ok};
ghost use Rattle.zk_jute.specs.{Item.HaveBytes, Standing.OneStands, Told.StandsAt};
ghost use Rattle.zk_records.specs.Held as held;
ghost use Rattle.zk_records.specs.{Records.id, Records.acl, Records.id_of, Records.acl_of, Shown.acl_value, Shown.acl_is_value};

use crate::fields::{of, pairs};
use crate::fields_of;
use zk_jute::{
    Element, Ends, KnownIn, Member, Output, Record, Series, Spell, Text, TextRef, Written, known_at,
};

/// Someone under a scheme of authentication: `Id`.
#[derive(Debug, Drop)]
pub struct IdOf<T> {
    /// The scheme, as `world`, `auth`, `digest` or `ip`.
    pub scheme: T,
    /// Who it is under that scheme; `id` in jute.
    pub ident: T,
}

/// An owned `Id`.
pub type Id = IdOf<Text>;

/// A borrowed `Id`.
pub type IdRef<'a> = IdOf<TextRef<'a>>;

impl Spell for Id {
    ghost items = { id.items };

    fn put<O: Output>(&self, out: &mut O) -> Result<(), O::Error> {
        fields_of!(Id, pairs, self).put(out)
    }
}

impl<T: Ends> Record for IdOf<T> {
    type Row = (T, T);

    ghost record = { id_of T.wired };

    fn of(row: Self::Row) -> Self {
        fields_of!(Id, of, row, IdOf)
    }

    ghost in_order = { refl };
}

impl Written for Id {
    ghost same = { refl };
}

/// Someone's rights: `ACL`.
#[derive(Debug, Drop)]
pub struct AclOf<W> {
    /// The rights: a sum of read 1, write 2, create 4, delete 8 and admin 16; any number is accepted.
    pub perms: i32,
    /// Whose rights; `id` in jute.
    pub who: W,
}

/// An owned `Acl`.
pub type Acl = AclOf<Id>;

/// A borrowed `Acl`.
pub type AclRef<'a> = AclOf<IdRef<'a>>;

impl Spell for Acl {
    ghost items = { acl.items };

    fn put<O: Output>(&self, out: &mut O) -> Result<(), O::Error> {
        fields_of!(Acl, pairs, self).put(out)
    }
}

impl<W: Ends> Record for AclOf<W> {
    type Row = (i32, W);

    ghost record = { acl_of W.wired };

    fn of(row: Self::Row) -> Self {
        fields_of!(Acl, of, row, AclOf)
    }

    ghost in_order = { refl };
}

impl Written for Acl {
    ghost same = { refl };
}

impl<'a> Member for AclRef<'a> {
    type Mark = ();

    ghost items = { acl.items };

    ghost value = { acl_value };

    ghost mark = { λ _. tt };

    fn pass(payload: &[u8], place: usize) -> ((), usize)
        requires place { place ≤ length payload.now }
        requires known { OneStands acl.items payload.now place }
        ensures value { (x : held.Acl) × (acl_value payload.now place ≡ Ok (x, result.1)) × (tt ≡ result.0) }
        ensures only { (x : held.Acl) (end : ℕ) → HaveBytes (acl.items x) → StandsAt (acl.items x) payload.now place end → result.1 ≡ end }
    {
        let (_, end) = known_at::<AclRef<'_>>(payload, place);
        ((), end)
    }
}

impl<'a> KnownIn<'a> for AclRef<'a> {
    #[inline(always)]
    fn known_in(payload: &'a [u8], place: usize) -> (Self, usize) {
        known_at(payload, place)
    }
}

impl<'a> Element for AclRef<'a> {
    ghost is_value = { acl_is_value };

    ghost is_wired = { refl };
}

/// A borrowed list of access rights.
pub type AclList<'a> = Series<'a, AclRef<'a>>;
