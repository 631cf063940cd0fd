//! The records of requests in a line, by their fields: written, read, and read into bytes.
ghost use Rattle.zk_lines.specs.Asks as asks;

use crate::encode_item::{Encode, encode_field, encode_fields};
use crate::put::{Put, put_field, put_fields};
use crate::word::{Word, field_word};
use std::alloc::AllocError;
use zk_items::{LineFault, Reader};
use zk_records::{
    AddWatchAsk, AddWatchAskOf, AuthAsk, AuthAskOf, CheckAsk, CheckAskOf, CreateAsk, CreateAskOf,
    CreateTtlAsk, CreateTtlAskOf, DeleteAsk, DeleteAskOf, PathAsk, PathAskOf, ReconfigAsk,
    ReconfigAskOf, SetAclAsk, SetAclAskOf, SetDataAsk, SetDataAskOf, SetWatchesAsk,
    SetWatchesAskOf, WatchAsk, WatchAskOf, WatchesAsk, WatchesAskOf, fields_of, owned,
};

impl<T: Put, B: Put, A: Put> Put for CreateAskOf<T, B, A> {
    ghost form = { asks.create_of T.form B.form A.form };

    fn put(&self, out: &mut Vec<u8>) -> Result<(), AllocError> {
        fields_of!(CreateAsk, put_fields, out, self)
    }
}

impl Encode for CreateAsk {
    fn encode(line: &mut Reader<'_>, out: &mut Vec<u8>) -> Result<(), LineFault> {
        fields_of!(CreateAsk, encode_fields, line, out);
        Ok(())
    }
}

impl<T: Put> Put for DeleteAskOf<T> {
    ghost form = { asks.delete_of T.form };

    fn put(&self, out: &mut Vec<u8>) -> Result<(), AllocError> {
        fields_of!(DeleteAsk, put_fields, out, self)
    }
}

impl Encode for DeleteAsk {
    fn encode(line: &mut Reader<'_>, out: &mut Vec<u8>) -> Result<(), LineFault> {
        fields_of!(DeleteAsk, encode_fields, line, out);
        Ok(())
    }
}

impl<T: Put> Put for WatchAskOf<T> {
    ghost form = { asks.watch_of T.form };

    fn put(&self, out: &mut Vec<u8>) -> Result<(), AllocError> {
        fields_of!(WatchAsk, put_fields, out, self)
    }
}

impl Encode for WatchAsk {
    fn encode(line: &mut Reader<'_>, out: &mut Vec<u8>) -> Result<(), LineFault> {
        fields_of!(WatchAsk, encode_fields, line, out);
        Ok(())
    }
}

impl<T: Put, B: Put> Put for SetDataAskOf<T, B> {
    ghost form = { asks.set_data_of T.form B.form };

    fn put(&self, out: &mut Vec<u8>) -> Result<(), AllocError> {
        fields_of!(SetDataAsk, put_fields, out, self)
    }
}

impl Encode for SetDataAsk {
    fn encode(line: &mut Reader<'_>, out: &mut Vec<u8>) -> Result<(), LineFault> {
        fields_of!(SetDataAsk, encode_fields, line, out);
        Ok(())
    }
}

impl<T: Put> Put for PathAskOf<T> {
    ghost form = { asks.path_of T.form };

    fn put(&self, out: &mut Vec<u8>) -> Result<(), AllocError> {
        fields_of!(PathAsk, put_fields, out, self)
    }
}

impl Encode for PathAsk {
    fn encode(line: &mut Reader<'_>, out: &mut Vec<u8>) -> Result<(), LineFault> {
        fields_of!(PathAsk, encode_fields, line, out);
        Ok(())
    }
}

impl<T: Put, A: Put> Put for SetAclAskOf<T, A> {
    ghost form = { asks.set_acl_of T.form A.form };

    fn put(&self, out: &mut Vec<u8>) -> Result<(), AllocError> {
        fields_of!(SetAclAsk, put_fields, out, self)
    }
}

impl Encode for SetAclAsk {
    fn encode(line: &mut Reader<'_>, out: &mut Vec<u8>) -> Result<(), LineFault> {
        fields_of!(SetAclAsk, encode_fields, line, out);
        Ok(())
    }
}

impl<T: Put, B: Put> Put for AuthAskOf<T, B> {
    ghost form = { asks.auth_of T.form B.form };

    fn put(&self, out: &mut Vec<u8>) -> Result<(), AllocError> {
        fields_of!(AuthAsk, put_fields, out, self)
    }
}

impl Encode for AuthAsk {
    fn encode(line: &mut Reader<'_>, out: &mut Vec<u8>) -> Result<(), LineFault> {
        fields_of!(AuthAsk, encode_fields, line, out);
        Ok(())
    }
}

impl<L: Put> Put for SetWatchesAskOf<L> {
    ghost form = { asks.set_watches_of L.form };

    fn put(&self, out: &mut Vec<u8>) -> Result<(), AllocError> {
        fields_of!(SetWatchesAsk, put_fields, out, self)
    }
}

impl Encode for SetWatchesAsk {
    fn encode(line: &mut Reader<'_>, out: &mut Vec<u8>) -> Result<(), LineFault> {
        fields_of!(SetWatchesAsk, encode_fields, line, out);
        Ok(())
    }
}

impl<T: Put> Put for CheckAskOf<T> {
    ghost form = { asks.check_of T.form };

    fn put(&self, out: &mut Vec<u8>) -> Result<(), AllocError> {
        fields_of!(CheckAsk, put_fields, out, self)
    }
}

impl Encode for CheckAsk {
    fn encode(line: &mut Reader<'_>, out: &mut Vec<u8>) -> Result<(), LineFault> {
        fields_of!(CheckAsk, encode_fields, line, out);
        Ok(())
    }
}

impl<T: Put, B: Put, A: Put> Put for CreateTtlAskOf<T, B, A> {
    ghost form = { asks.create_ttl_of T.form B.form A.form };

    fn put(&self, out: &mut Vec<u8>) -> Result<(), AllocError> {
        fields_of!(CreateTtlAsk, put_fields, out, self)
    }
}

impl Encode for CreateTtlAsk {
    fn encode(line: &mut Reader<'_>, out: &mut Vec<u8>) -> Result<(), LineFault> {
        fields_of!(CreateTtlAsk, encode_fields, line, out);
        Ok(())
    }
}

impl<T: Put> Put for WatchesAskOf<T> {
    ghost form = { asks.watches_of T.form };

    fn put(&self, out: &mut Vec<u8>) -> Result<(), AllocError> {
        fields_of!(WatchesAsk, put_fields, out, self)
    }
}

impl Encode for WatchesAsk {
    fn encode(line: &mut Reader<'_>, out: &mut Vec<u8>) -> Result<(), LineFault> {
        fields_of!(WatchesAsk, encode_fields, line, out);
        Ok(())
    }
}

impl<T: Put> Put for AddWatchAskOf<T> {
    ghost form = { asks.add_watch_of T.form };

    fn put(&self, out: &mut Vec<u8>) -> Result<(), AllocError> {
        fields_of!(AddWatchAsk, put_fields, out, self)
    }
}

impl Encode for AddWatchAsk {
    fn encode(line: &mut Reader<'_>, out: &mut Vec<u8>) -> Result<(), LineFault> {
        fields_of!(AddWatchAsk, encode_fields, line, out);
        Ok(())
    }
}

impl<T: Put> Put for ReconfigAskOf<T> {
    ghost form = { asks.reconfig_of T.form };

    fn put(&self, out: &mut Vec<u8>) -> Result<(), AllocError> {
        fields_of!(ReconfigAsk, put_fields, out, self)
    }
}

impl Encode for ReconfigAsk {
    fn encode(line: &mut Reader<'_>, out: &mut Vec<u8>) -> Result<(), LineFault> {
        fields_of!(ReconfigAsk, encode_fields, line, out);
        Ok(())
    }
}
