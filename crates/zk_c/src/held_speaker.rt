//! `HeldSpeaker`: a speaker, and the frame that it said last.
ghost use Rattle.std.specs.Prelude.{◌≡◌, ◌≢◌, IfOk};
ghost use Rattle.zk_c.specs.Handle.{TellsText};
ghost use Rattle.zk_c.specs.Saying.{HasBegun, IsRenewed, TellsSay, TellsPayload};

use crate::answer::LineAnswer;
use crate::number::WELL;
use crate::payload::PayloadAnswer;
use crate::say_result::{SayAnswer, refused_payload};
use std::alloc::{AllocError, Global};
use std::marker::Model;
use zk_lines::{LineFault, encode_line};
use zk_talk::{Limits, Side, Speaker};

/// A speaker, and its newest frame.
#[derive(Drop)]
pub struct HeldSpeaker {
    speaker: Speaker,
    frame: Vec<u8>,
}

impl Model for HeldSpeaker {
    ghost use Rattle.zk_c.specs.HeldSpeaker.{HeldSpeakerState};

    ghost Value = { HeldSpeakerState };

    ghost view = { λ v. record { speaker = v.speaker; frame = v.frame.items } };
}

impl HeldSpeaker {
    /// A speaker that has said nothing.
    pub fn new(alloc: Global, limits: Limits) -> Result<Self, AllocError>
        ensures limits { IfOk result (λ v. v.speaker.limits ≡ limits) }
        ensures begun { IfOk result HasBegun }
    {
        let speaker = Speaker::new(alloc, limits)?;
        let frame = Vec::new(alloc);
        Ok(HeldSpeaker { speaker, frame })
    }

    /// Begins anew with the same limits: a speaker that has said nothing.
    pub fn renew(&mut self)
        ensures { IsRenewed self.old self.new }
    {
        self.speaker.renew();
        self.frame.clear();
    }

    /// Says the message whose line the bytes are, of which the payload alone is made.
    pub fn say(&mut self, line: &[u8]) -> SayAnswer
        ensures { TellsSay self.old line.now self.new result }
    {
        self.frame.clear();
        match self.frame.extend_from_slice(&[0; 4]) {
            Ok(()) => {}
            Err(refused) => return SayAnswer::no_line(LineFault::from(refused)),
        }
        let kind = match encode_line(line, &mut self.frame) {
            Ok(kind) => kind,
            Err(fault) => {
                self.frame.clear();
                return SayAnswer::no_line(fault);
            }
        };
        match self.speaker.say_written(kind, 0, &mut self.frame) {
            Ok(()) => SayAnswer::said(self.frame.len()),
            Err(fault) => {
                self.frame.clear();
                SayAnswer::refused(fault)
            }
        }
    }

    /// Says the message of the side whose payload the bytes are.
    pub fn say_payload(&mut self, side: Side, payload: &[u8]) -> PayloadAnswer
        ensures { TellsPayload self.old side payload.now self.new result }
    {
        self.frame.clear();
        match self.speaker.say_payload(side, payload, &mut self.frame) {
            Ok(()) => {}
            Err(fault) => return refused_payload(fault),
        }
        PayloadAnswer::none(WELL)
    }

    /// Writes the frame that was said last, if there is room for it.
    pub fn frame(&self, out: &mut [u8]) -> LineAnswer
        ensures told { TellsText self.now.frame out.old out.new result }
        ensures ample { result.status ≢ 5 }
    {
        LineAnswer::put(&self.frame, out)
    }
}
