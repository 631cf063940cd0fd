//! A field, and the room in which fields are written.
ghost use Rattle.std.specs.Prelude.{◌≡◌, ◌<◌, ◌^◌, length};
ghost use Rattle.zk_fields.specs.Room.{Puts};

/// A field of a message.
#[repr(C)]
#[derive(Clone, Copy)]
pub struct Field {
    /// The place in the payload where its content begins: for a text or a blob, after its length.
    pub place: u32,
    /// The number of bytes of its content: of a text or a blob without its length, of all else the whole item.
    pub length: u32,
    /// The number of an int or a long, 0 or 1 for a boolean, a list's count, or the operation in a part's header.
    pub number: i64,
    /// The number of its name (`name.rt`).
    pub name: u16,
    /// The number of its kind (`kind.rt`).
    pub kind: u8,
    /// 1 if it is null, else 0.
    pub null: u8,
}

/// The number of fields so far, and the place in the payload after them.
#[derive(Clone, Copy)]
pub struct At {
    pub count: u32,
    pub place: u32,
}

/// Writes `field`, if `room` has a place for it, and goes on by `size` bytes of the payload.
pub(crate) fn put(field: Field, size: u32, room: &mut [Field], at: At) -> At
    ensures { Puts at room.old field size result room.new }
{
    let index = at.count as usize;
    if index < room.len() {
        room[index] = field;
    }
    At {
        count: at.count.saturating_add(1),
        place: at.place.saturating_add(size),
    }
}

/// The number of `bytes`; `u32::MAX` for more than that.
pub(crate) fn size_of(bytes: &[u8]) -> u32
    ensures { length bytes.now < 2 ^ 32 → result ≡ length bytes.now }
{
    u32::try_from(bytes.len()).unwrap_or(u32::MAX)
}
