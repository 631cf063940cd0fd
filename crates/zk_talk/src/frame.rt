//! What is done with a side's whole frame: it is judged, and then kept or passed.
ghost use Rattle.std.specs.Prelude.{◌≡◌, ◌≢◌, ◌↔◌, drop, IfOk, IfErr, OnOk, OnErr, IsTrue};
ghost use Rattle.zk_jute.specs.{declared.fault.Reason.TheVariants.NoMemory, Verdict.Says};
ghost use Rattle.zk_asks.specs.Held as asks;
ghost use Rattle.zk_answers.specs.Held as answers;
ghost use Rattle.zk_talk.specs.Judged.{KeepsClient, KeepsServer, TellsClient, TellsServer, PassesClient, PassesServer, HasNextClient, HasNextServer};
ghost use Rattle.zk_talk.specs.Streams.{IsAtFrame, TakenBack, passed, kept_now};

use crate::judge::{
    await_ask, forget_asked, has_room, has_spoken, judge_client, judge_server, put_asked, replied,
    settle,
};
use crate::replied::Replied;
use crate::stream::Stream;
use crate::view::shown_server;
use std::alloc::Global;
use zk_answers::ServerFrame;
use zk_asks::{ClientFrame, judged_ref};
use zk_jute::{ItemFault, Reason, Verdict};
use zk_records::{Own, Profile};
use zk_waiting::Awaited;

/// Whether the fault is that memory was refused.
pub fn is_no_memory(item: ItemFault) -> bool
    ensures { IsTrue result ↔ (item.reason ≡ NoMemory) }
{
    match item.reason {
        Reason::NoMemory => true,
        _ => false,
    }
}

/// Keeps the client's whole frame, whose last `used` bytes are new, if it is one that may come next under `profile`; else
/// changes nothing.
#[inline(always)]
pub fn keep_client<V: Verdict>(
    profile: Profile,
    stream: &mut Stream,
    waiting: &mut Awaited,
    used: usize,
) -> Result<(), V>
    requires { IsAtFrame stream.old used }
    ensures max { waiting.new.max ≡ waiting.old.max }
    ensures found { OnOk result ((f : asks.ClientFrame) × KeepsClient profile stream.old waiting.old f waiting.new stream.new) }
    ensures kept { OnOk result (stream.new ≡ kept_now stream.old used) }
    ensures same { OnErr result ((waiting.new ≡ waiting.old) × (stream.new ≡ stream.old)) }
    ensures fault { IfErr result (Says V.tells (λ e. (e.reason ≢ NoMemory) × TellsClient profile stream.old.count waiting.old (drop 4 stream.old.held) e)) }
{
    let count = stream.count();
    await_ask::<V>(profile, count, count, waiting, stream.payload())?;
    stream.keep(used);
    Ok(())
}

/// Judges the client's whole frame, whose last `used` bytes are new, under `profile`, passes it, and returns its message.
/// If memory is refused, the `used` bytes are not taken after all.
pub fn client_frame(
    alloc: Global,
    profile: Profile,
    stream: &mut Stream,
    waiting: &mut Awaited,
    used: usize,
) -> Result<ClientFrame, ItemFault>
    requires { IsAtFrame stream.old used }
    ensures max { waiting.new.max ≡ waiting.old.max }
    ensures found { IfOk result (λ f. PassesClient profile stream.old waiting.old stream.old.held f waiting.new) }
    ensures passed { IfOk result (λ f. stream.new ≡ passed stream.old used) }
    ensures same { IfErr result (λ e. waiting.new ≡ waiting.old) }
    ensures lacks { IfErr result (λ e. e.reason ≡ NoMemory → HasNextClient profile stream.old waiting.old) }
    ensures back { IfErr result (λ e. e.reason ≡ NoMemory → TakenBack stream.old used stream.new) }
    ensures stays { IfErr result (λ e. e.reason ≢ NoMemory → stream.new ≡ stream.old) }
    ensures fault { IfErr result (λ e. e.reason ≢ NoMemory → TellsClient profile stream.old.count waiting.old (drop 4 stream.old.held) e) }
{
    let count = stream.count();
    let payload = stream.payload();
    let asked = match judge_client::<ItemFault>(profile, count, payload) {
        Ok(asked) => asked,
        Err(item) => return Err(item),
    };
    if !has_room(waiting, payload, asked) {
        return Err(ItemFault::at(0, Reason::QueueFull));
    }
    let seen = judged_ref(asked, payload);
    match seen.own(alloc) {
        Ok(frame) => {
            put_asked(waiting, payload, asked, count);
            stream.pass(used);
            Ok(frame)
        }
        Err(refused) => {
            stream.take_back(used);
            Err(ItemFault::from(refused))
        }
    }
}

/// Keeps the server's whole frame, whose last `used` bytes are new, if it may come next, where the client has sent `asked`
/// frames, and returns its request, if it is a reply; else changes nothing.
#[inline(always)]
pub fn keep_server<V: Verdict>(
    asked: u64,
    stream: &mut Stream,
    waiting: &mut Awaited,
    used: usize,
) -> Result<Option<Replied>, V>
    requires { IsAtFrame stream.old used }
    ensures max { waiting.new.max ≡ waiting.old.max }
    ensures found { IfOk result (λ told. (s : answers.ServerFrame) × KeepsServer asked stream.old waiting.old told s waiting.new stream.new) }
    ensures kept { OnOk result (stream.new ≡ kept_now stream.old used) }
    ensures same { OnErr result ((waiting.new ≡ waiting.old) × (stream.new ≡ stream.old)) }
    ensures fault { IfErr result (Says V.tells (λ e. (e.reason ≢ NoMemory) × TellsServer asked stream.old.count waiting.old (drop 4 stream.old.held) e)) }
{
    let answered = settle::<V>(asked, stream.count(), waiting, stream.payload())?;
    stream.keep(used);
    Ok(answered)
}

/// Judges the server's whole frame, whose last `used` bytes are new, where the client has sent `asked` frames; passes it,
/// and returns its message. If memory is refused, the `used` bytes are not taken after all.
pub fn server_frame(
    alloc: Global,
    asked: u64,
    stream: &mut Stream,
    waiting: &mut Awaited,
    used: usize,
) -> Result<ServerFrame, ItemFault>
    requires { IsAtFrame stream.old used }
    ensures max { waiting.new.max ≡ waiting.old.max }
    ensures found { IfOk result (λ s. PassesServer asked stream.old waiting.old stream.old.held s waiting.new) }
    ensures passed { IfOk result (λ s. stream.new ≡ passed stream.old used) }
    ensures same { IfErr result (λ e. waiting.new ≡ waiting.old) }
    ensures lacks { IfErr result (λ e. e.reason ≡ NoMemory → HasNextServer asked stream.old waiting.old) }
    ensures back { IfErr result (λ e. e.reason ≡ NoMemory → TakenBack stream.old used stream.new) }
    ensures stays { IfErr result (λ e. e.reason ≢ NoMemory → stream.new ≡ stream.old) }
    ensures fault { IfErr result (λ e. e.reason ≢ NoMemory → TellsServer asked stream.old.count waiting.old (drop 4 stream.old.held) e) }
{
    let count = stream.count();
    let payload = stream.payload();
    let answer = match judge_server::<ItemFault>(
        has_spoken(asked),
        has_spoken(count),
        waiting,
        payload,
    ) {
        Ok(answer) => answer,
        Err(item) => return Err(item),
    };
    let told = replied(answer);
    let seen = shown_server(count + 1, told, payload);
    match seen.own(alloc) {
        Ok(frame) => {
            forget_asked(waiting, answer);
            stream.pass(used);
            Ok(frame)
        }
        Err(refused) => {
            stream.take_back(used);
            Err(ItemFault::from(refused))
        }
    }
}
