//! The fields of records: each with its name, in order.
ghost use Rattle.zk_fields.specs.Records.{id, acl, stat, connect_request, connect_response, watcher_event, create_ask, delete_ask, set_data_ask, set_acl_ask, check_ask, watch_ask, path_ask, auth_ask, set_watches_ask, create_ttl_ask, watches_ask, add_watch_ask, reconfig_ask};

use crate::field::{At, Field};
use crate::name::*;
use crate::show::{Named, Show};
use zk_records::{
    AclRef, AddWatchAskRef, AuthAskRef, CheckAskRef, ConnectRequestRef, ConnectResponseRef,
    CreateAskRef, CreateTtlAskRef, DeleteAskRef, IdRef, PathAskRef, ReconfigAskRef, SetAclAskRef,
    SetDataAskRef, SetWatchesAskRef, Stat, WatchAskRef, WatcherEventRef, WatchesAskRef, fields_of,
};

/// `fields_of!(R, named, record)` is the fields of the record, each under its name, as nested pairs.
macro_rules! named {
    ($record:ident: $field:ident $name:ident $kind:ident) => { Named { name: $name, value: &$record.$field } };
    ($record:ident: $field:ident $name:ident $kind:ident, $($rest:tt)+) => {
        (Named { name: $name, value: &$record.$field }, named!($record: $($rest)+))
    };
}

impl<'a> Show for IdRef<'a> {
    ghost entries = { id.entries };

    fn show(&self, name: u16, room: &mut [Field], at: At) -> At {
        fields_of!(Id, named, self).show(name, room, at)
    }
}

impl<'a> Show for AclRef<'a> {
    ghost entries = { acl.entries };

    fn show(&self, name: u16, room: &mut [Field], at: At) -> At {
        fields_of!(Acl, named, self).show(name, room, at)
    }
}

impl Show for Stat {
    ghost entries = { stat.entries };

    fn show(&self, name: u16, room: &mut [Field], at: At) -> At {
        fields_of!(Stat, named, self).show(name, room, at)
    }
}

impl<'a> Show for ConnectRequestRef<'a> {
    ghost entries = { connect_request.entries };

    fn show(&self, name: u16, room: &mut [Field], at: At) -> At {
        fields_of!(ConnectRequest, named, self).show(name, room, at)
    }
}

impl<'a> Show for ConnectResponseRef<'a> {
    ghost entries = { connect_response.entries };

    fn show(&self, name: u16, room: &mut [Field], at: At) -> At {
        fields_of!(ConnectResponse, named, self).show(name, room, at)
    }
}

impl<'a> Show for WatcherEventRef<'a> {
    ghost entries = { watcher_event.entries };

    fn show(&self, name: u16, room: &mut [Field], at: At) -> At {
        fields_of!(WatcherEvent, named, self).show(name, room, at)
    }
}

impl<'a> Show for CreateAskRef<'a> {
    ghost entries = { create_ask.entries };

    fn show(&self, name: u16, room: &mut [Field], at: At) -> At {
        fields_of!(CreateAsk, named, self).show(name, room, at)
    }
}

impl<'a> Show for DeleteAskRef<'a> {
    ghost entries = { delete_ask.entries };

    fn show(&self, name: u16, room: &mut [Field], at: At) -> At {
        fields_of!(DeleteAsk, named, self).show(name, room, at)
    }
}

impl<'a> Show for SetDataAskRef<'a> {
    ghost entries = { set_data_ask.entries };

    fn show(&self, name: u16, room: &mut [Field], at: At) -> At {
        fields_of!(SetDataAsk, named, self).show(name, room, at)
    }
}

impl<'a> Show for SetAclAskRef<'a> {
    ghost entries = { set_acl_ask.entries };

    fn show(&self, name: u16, room: &mut [Field], at: At) -> At {
        fields_of!(SetAclAsk, named, self).show(name, room, at)
    }
}

impl<'a> Show for CheckAskRef<'a> {
    ghost entries = { check_ask.entries };

    fn show(&self, name: u16, room: &mut [Field], at: At) -> At {
        fields_of!(CheckAsk, named, self).show(name, room, at)
    }
}

impl<'a> Show for WatchAskRef<'a> {
    ghost entries = { watch_ask.entries };

    fn show(&self, name: u16, room: &mut [Field], at: At) -> At {
        fields_of!(WatchAsk, named, self).show(name, room, at)
    }
}

impl<'a> Show for PathAskRef<'a> {
    ghost entries = { path_ask.entries };

    fn show(&self, name: u16, room: &mut [Field], at: At) -> At {
        fields_of!(PathAsk, named, self).show(name, room, at)
    }
}

impl<'a> Show for AuthAskRef<'a> {
    ghost entries = { auth_ask.entries };

    fn show(&self, name: u16, room: &mut [Field], at: At) -> At {
        fields_of!(AuthAsk, named, self).show(name, room, at)
    }
}

impl<'a> Show for SetWatchesAskRef<'a> {
    ghost entries = { set_watches_ask.entries };

    fn show(&self, name: u16, room: &mut [Field], at: At) -> At {
        fields_of!(SetWatchesAsk, named, self).show(name, room, at)
    }
}

impl<'a> Show for CreateTtlAskRef<'a> {
    ghost entries = { create_ttl_ask.entries };

    fn show(&self, name: u16, room: &mut [Field], at: At) -> At {
        fields_of!(CreateTtlAsk, named, self).show(name, room, at)
    }
}

impl<'a> Show for WatchesAskRef<'a> {
    ghost entries = { watches_ask.entries };

    fn show(&self, name: u16, room: &mut [Field], at: At) -> At {
        fields_of!(WatchesAsk, named, self).show(name, room, at)
    }
}

impl<'a> Show for AddWatchAskRef<'a> {
    ghost entries = { add_watch_ask.entries };

    fn show(&self, name: u16, room: &mut [Field], at: At) -> At {
        fields_of!(AddWatchAsk, named, self).show(name, room, at)
    }
}

impl<'a> Show for ReconfigAskRef<'a> {
    ghost entries = { reconfig_ask.entries };

    fn show(&self, name: u16, room: &mut [Field], at: At) -> At {
        fields_of!(ReconfigAsk, named, self).show(name, room, at)
    }
}
