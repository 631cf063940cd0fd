//! `TalkBox`, `PassageBox`, `SpeakerBox`: the pointers of a boxed conversation, passage and speaker, as a handle has them.
ghost use Rattle.std.specs.Prelude.{◌≡◌, Option, Some, None, IsSome};
ghost use Rattle.std.specs.Coded.{coded_option};
ghost use Rattle.zk_talk.specs.Stands.{TalkState};
ghost use Rattle.zk_c.specs.{Owned.owned, Passage.PassageState, HeldSpeaker.HeldSpeakerState, contracts.conversation.Conversation.the_row as talk_row, contracts.passage.Passage.the_row as passage_row, contracts.held_speaker.HeldSpeaker.the_row as speaker_row};

use crate::conversation::Conversation;
use crate::held_speaker::HeldSpeaker;
use crate::passage::Passage;
use crate::raw_box::Loose;
use std::alloc::Global;
use std::marker::Model;

/// A pointer to a talk, or to nothing.
#[repr(C)]
#[derive(Drop)]
pub struct TalkBox {
    at: *mut u8,
    /// The talk that the pointer owns.
    pub ghost value: { Option TalkState } by { coded_option talk_row.coded },
}

impl Model for TalkBox {
    ghost also_owns = { λ b. owned talk_row b.at b.value };
}

impl TalkBox {
    /// A pointer to nothing.
    pub fn none() -> TalkBox
        ensures { result.value ≡ None }
    {
        TalkBox {
            at: std::ptr::null_mut(),
        }
    }

    /// The pointer of a box.
    pub fn of(loose: Loose<Conversation, Global>) -> TalkBox
        ensures { result.value ≡ Some loose.value }
    {
        let Loose { at, alloc: _ } = loose;
        TalkBox { at: at as *mut u8 }
    }

    /// The box of the pointer.
    pub fn into_loose(self, alloc: Global) -> Loose<Conversation, Global>
        requires { IsSome self.value }
        ensures { self.value ≡ Some result.value }
    {
        let TalkBox { at } = self;
        Loose {
            at: at as *mut Conversation,
            alloc,
        }
    }
}

/// A pointer to a passage, or to nothing.
#[repr(C)]
#[derive(Drop)]
pub struct PassageBox {
    at: *mut u8,
    /// The passage that the pointer owns.
    pub ghost value: { Option PassageState } by { coded_option passage_row.coded },
}

impl Model for PassageBox {
    ghost also_owns = { λ b. owned passage_row b.at b.value };
}

impl PassageBox {
    /// A pointer to nothing.
    pub fn none() -> PassageBox
        ensures { result.value ≡ None }
    {
        PassageBox {
            at: std::ptr::null_mut(),
        }
    }

    /// The pointer of a box.
    pub fn of(loose: Loose<Passage, Global>) -> PassageBox
        ensures { result.value ≡ Some loose.value }
    {
        let Loose { at, alloc: _ } = loose;
        PassageBox { at: at as *mut u8 }
    }

    /// The box of the pointer.
    pub fn into_loose(self, alloc: Global) -> Loose<Passage, Global>
        requires { IsSome self.value }
        ensures { self.value ≡ Some result.value }
    {
        let PassageBox { at } = self;
        Loose {
            at: at as *mut Passage,
            alloc,
        }
    }
}

/// A pointer to a speaker, or to nothing.
#[repr(C)]
#[derive(Drop)]
pub struct SpeakerBox {
    at: *mut u8,
    /// The speaker that the pointer owns.
    pub ghost value: { Option HeldSpeakerState } by { coded_option speaker_row.coded },
}

impl Model for SpeakerBox {
    ghost also_owns = { λ b. owned speaker_row b.at b.value };
}

impl SpeakerBox {
    /// A pointer to nothing.
    pub fn none() -> SpeakerBox
        ensures { result.value ≡ None }
    {
        SpeakerBox {
            at: std::ptr::null_mut(),
        }
    }

    /// The pointer of a box.
    pub fn of(loose: Loose<HeldSpeaker, Global>) -> SpeakerBox
        ensures { result.value ≡ Some loose.value }
    {
        let Loose { at, alloc: _ } = loose;
        SpeakerBox { at: at as *mut u8 }
    }

    /// The box of the pointer.
    pub fn into_loose(self, alloc: Global) -> Loose<HeldSpeaker, Global>
        requires { IsSome self.value }
        ensures { self.value ≡ Some result.value }
    {
        let SpeakerBox { at } = self;
        Loose {
            at: at as *mut HeldSpeaker,
            alloc,
        }
    }
}
