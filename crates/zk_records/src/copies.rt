//! Copies of the records: field by field.

use crate::acl::{Acl, AclOf, AclRef, Id, IdOf, IdRef};
use crate::ask::{
    CheckAsk, CheckAskOf, CheckAskRef, CreateAsk, CreateAskOf, CreateAskRef, CreateTtlAsk,
    CreateTtlAskOf, CreateTtlAskRef, DeleteAsk, DeleteAskOf, DeleteAskRef, SetAclAsk, SetAclAskOf,
    SetAclAskRef, SetDataAsk, SetDataAskOf, SetDataAskRef,
};
use crate::body::{
    AclBody, AclBodyOf, AclBodyRef, ChildrenBody, ChildrenBodyOf, ChildrenBodyRef, CreateBody,
    CreateBodyOf, CreateBodyRef, DataBody, DataBodyOf, DataBodyRef,
};
use crate::connect::{
    ConnectRequest, ConnectRequestOf, ConnectRequestRef, ConnectResponse, ConnectResponseOf,
    ConnectResponseRef,
};
use crate::event::{WatcherEvent, WatcherEventOf, WatcherEventRef};
use crate::fields::own;
use crate::fields_of;
use crate::own::Own;
use crate::query::{PathAsk, PathAskOf, PathAskRef, WatchAsk, WatchAskOf, WatchAskRef};
use crate::reconfig::{ReconfigAsk, ReconfigAskOf, ReconfigAskRef};
use crate::session::{
    AuthAsk, AuthAskOf, AuthAskRef, SetWatchesAsk, SetWatchesAskOf, SetWatchesAskRef,
};
use crate::watches::{
    AddWatchAsk, AddWatchAskOf, AddWatchAskRef, WatchesAsk, WatchesAskOf, WatchesAskRef,
};
use std::alloc::{AllocError, Global};

impl<'a> Own for IdRef<'a> {
    type Owned = Id;

    ghost same = { λ x. x };

    fn own(&self, alloc: Global) -> Result<Id, AllocError> {
        fields_of!(Id, own, self, alloc, IdOf)
    }
}

impl<'a> Own for AclRef<'a> {
    type Owned = Acl;

    ghost same = { λ x. x };

    fn own(&self, alloc: Global) -> Result<Acl, AllocError> {
        fields_of!(Acl, own, self, alloc, AclOf)
    }
}

impl<'a> Own for ConnectRequestRef<'a> {
    type Owned = ConnectRequest;

    ghost same = { λ x. x };

    fn own(&self, alloc: Global) -> Result<ConnectRequest, AllocError> {
        fields_of!(ConnectRequest, own, self, alloc, ConnectRequestOf)
    }
}

impl<'a> Own for ConnectResponseRef<'a> {
    type Owned = ConnectResponse;

    ghost same = { λ x. x };

    fn own(&self, alloc: Global) -> Result<ConnectResponse, AllocError> {
        fields_of!(ConnectResponse, own, self, alloc, ConnectResponseOf)
    }
}

impl<'a> Own for WatcherEventRef<'a> {
    type Owned = WatcherEvent;

    ghost same = { λ x. x };

    fn own(&self, alloc: Global) -> Result<WatcherEvent, AllocError> {
        fields_of!(WatcherEvent, own, self, alloc, WatcherEventOf)
    }
}

impl<'a> Own for CreateAskRef<'a> {
    type Owned = CreateAsk;

    ghost same = { λ x. x };

    fn own(&self, alloc: Global) -> Result<CreateAsk, AllocError> {
        fields_of!(CreateAsk, own, self, alloc, CreateAskOf)
    }
}

impl<'a> Own for DeleteAskRef<'a> {
    type Owned = DeleteAsk;

    ghost same = { λ x. x };

    fn own(&self, alloc: Global) -> Result<DeleteAsk, AllocError> {
        fields_of!(DeleteAsk, own, self, alloc, DeleteAskOf)
    }
}

impl<'a> Own for SetDataAskRef<'a> {
    type Owned = SetDataAsk;

    ghost same = { λ x. x };

    fn own(&self, alloc: Global) -> Result<SetDataAsk, AllocError> {
        fields_of!(SetDataAsk, own, self, alloc, SetDataAskOf)
    }
}

impl<'a> Own for SetAclAskRef<'a> {
    type Owned = SetAclAsk;

    ghost same = { λ x. x };

    fn own(&self, alloc: Global) -> Result<SetAclAsk, AllocError> {
        fields_of!(SetAclAsk, own, self, alloc, SetAclAskOf)
    }
}

impl<'a> Own for CheckAskRef<'a> {
    type Owned = CheckAsk;

    ghost same = { λ x. x };

    fn own(&self, alloc: Global) -> Result<CheckAsk, AllocError> {
        fields_of!(CheckAsk, own, self, alloc, CheckAskOf)
    }
}

impl<'a> Own for WatchAskRef<'a> {
    type Owned = WatchAsk;

    ghost same = { λ x. x };

    fn own(&self, alloc: Global) -> Result<WatchAsk, AllocError> {
        fields_of!(WatchAsk, own, self, alloc, WatchAskOf)
    }
}

impl<'a> Own for PathAskRef<'a> {
    type Owned = PathAsk;

    ghost same = { λ x. x };

    fn own(&self, alloc: Global) -> Result<PathAsk, AllocError> {
        fields_of!(PathAsk, own, self, alloc, PathAskOf)
    }
}

impl<'a> Own for AuthAskRef<'a> {
    type Owned = AuthAsk;

    ghost same = { λ x. x };

    fn own(&self, alloc: Global) -> Result<AuthAsk, AllocError> {
        fields_of!(AuthAsk, own, self, alloc, AuthAskOf)
    }
}

impl<'a> Own for SetWatchesAskRef<'a> {
    type Owned = SetWatchesAsk;

    ghost same = { λ x. x };

    fn own(&self, alloc: Global) -> Result<SetWatchesAsk, AllocError> {
        fields_of!(SetWatchesAsk, own, self, alloc, SetWatchesAskOf)
    }
}

impl<'a> Own for DataBodyRef<'a> {
    type Owned = DataBody;

    ghost same = { λ x. x };

    fn own(&self, alloc: Global) -> Result<DataBody, AllocError> {
        fields_of!(DataBody, own, self, alloc, DataBodyOf)
    }
}

impl<'a> Own for AclBodyRef<'a> {
    type Owned = AclBody;

    ghost same = { λ x. x };

    fn own(&self, alloc: Global) -> Result<AclBody, AllocError> {
        fields_of!(AclBody, own, self, alloc, AclBodyOf)
    }
}

impl<'a> Own for ChildrenBodyRef<'a> {
    type Owned = ChildrenBody;

    ghost same = { λ x. x };

    fn own(&self, alloc: Global) -> Result<ChildrenBody, AllocError> {
        fields_of!(ChildrenBody, own, self, alloc, ChildrenBodyOf)
    }
}

impl<'a> Own for CreateBodyRef<'a> {
    type Owned = CreateBody;

    ghost same = { λ x. x };

    fn own(&self, alloc: Global) -> Result<CreateBody, AllocError> {
        fields_of!(CreateBody, own, self, alloc, CreateBodyOf)
    }
}

impl<'a> Own for AddWatchAskRef<'a> {
    type Owned = AddWatchAsk;

    ghost same = { λ x. x };

    fn own(&self, alloc: Global) -> Result<AddWatchAsk, AllocError> {
        fields_of!(AddWatchAsk, own, self, alloc, AddWatchAskOf)
    }
}

impl<'a> Own for CreateTtlAskRef<'a> {
    type Owned = CreateTtlAsk;

    ghost same = { λ x. x };

    fn own(&self, alloc: Global) -> Result<CreateTtlAsk, AllocError> {
        fields_of!(CreateTtlAsk, own, self, alloc, CreateTtlAskOf)
    }
}

impl<'a> Own for WatchesAskRef<'a> {
    type Owned = WatchesAsk;

    ghost same = { λ x. x };

    fn own(&self, alloc: Global) -> Result<WatchesAsk, AllocError> {
        fields_of!(WatchesAsk, own, self, alloc, WatchesAskOf)
    }
}

impl<'a> Own for ReconfigAskRef<'a> {
    type Owned = ReconfigAsk;

    ghost same = { λ x. x };

    fn own(&self, alloc: Global) -> Result<ReconfigAsk, AllocError> {
        fields_of!(ReconfigAsk, own, self, alloc, ReconfigAskOf)
    }
}
