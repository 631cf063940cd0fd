//! `zk_judge_first` and its like: single payloads, judged without a handle.
ghost use Rattle.std.specs.Prelude.{◌≡◌, ◌≢◌, ◌↔◌, MatchResult, IsTrue};
ghost use Rattle.zk_records.specs.{declared.profile.Profile.Profile, Codes.profile_number};
ghost use Rattle.zk_asks.specs.Faults.{IsFirstFault, IsAskFault};
ghost use Rattle.zk_answers.specs.{Held.ServerFrame, Faults.IsConnectedFault, Faults.IsReplyFault, Faults.IsEventFault};
ghost use Rattle.zk_c.specs.Asked.{AreNoneAsked, WhereAsked};
ghost use Rattle.zk_c.specs.Judged.{payload_answer, TellsFault, IsToldBy, Judges, IsConnect, IsRequest, IsWelcome, IsReply, IsNotice, HasHead, HasNoHead, IsOfEvent, IsOfReply};

use crate::asked::Numbered;
use crate::number::{MISFIT, RANGE, WELL, reason_number};
use zk_answers::{borrow_connected, borrow_event, borrow_reply, reply_head};
use zk_asks::{borrow_ask, borrow_first};
use zk_jute::ItemFault;
use zk_records::Profile;

/// Whether a payload is a message's, and if not, why and where.
#[repr(C)]
#[derive(Clone, Copy)]
pub struct PayloadAnswer {
    /// 0, or the number of the reason why it isn't.
    pub status: u32,
    /// The offset of the fault in the payload, in bytes.
    pub place: u32,
}

impl PayloadAnswer {
    /// Nothing was judged, or the payload is a message's.
    pub fn none(status: u32) -> PayloadAnswer
        ensures { result ≡ payload_answer status 0 }
    {
        PayloadAnswer { status, place: 0 }
    }

    /// The payload is refused for this fault.
    pub fn refused(fault: ItemFault) -> PayloadAnswer
        ensures { TellsFault fault result }
    {
        PayloadAnswer {
            status: reason_number(fault.reason),
            place: fault.place,
        }
    }
}

/// What is returned of a payload that was read so.
#[inline(always)]
fn judged<F: Drop>(read: Result<F, ItemFault>) -> PayloadAnswer
    ensures { MatchResult read (λ _. result ≡ payload_answer 0 0) (λ fault. TellsFault fault result) }
{
    match read {
        Ok(_frame) => PayloadAnswer::none(WELL),
        Err(fault) => PayloadAnswer::refused(fault),
    }
}

/// Judges whether the payload is that of a connect request, as `read_first` of `zk_asks`.
#[unsafe(no_mangle)]
pub extern "C" fn zk_judge_first(bytes: &[u8]) -> PayloadAnswer
    // It is taken for one exactly if it is one's, else the first case that applies is reported.
    ensures judges { Judges (IsConnect bytes.now) (IsFirstFault bytes.now) result }
{
    judged(borrow_first(bytes))
}

/// Judges whether the payload is that of a request of a profile, 34 or 35, as `read_ask` of `zk_asks`; `RANGE` for
/// another number.
#[unsafe(no_mangle)]
pub extern "C" fn zk_judge_request(profile: u32, bytes: &[u8]) -> PayloadAnswer
    // A number that is no profile's is refused.
    ensures range { ((p : Profile) → profile ≢ profile_number p) → result ≡ payload_answer 67 0 }
    // It is taken for one exactly if it is one's, else the first case that applies is reported.
    ensures judges { (p : Profile) → profile ≡ profile_number p → Judges (IsRequest p bytes.now) (IsAskFault p bytes.now) result }
{
    let Some(profile) = Profile::of_number(profile) else {
        return PayloadAnswer::none(RANGE);
    };
    judged(borrow_ask(profile, bytes))
}

/// Judges whether the payload is that of the reply to a connect request, as `read_connected` of `zk_answers`.
#[unsafe(no_mangle)]
pub extern "C" fn zk_judge_connected(bytes: &[u8]) -> PayloadAnswer
    // It is taken for one exactly if it is one's, else the first case that applies is reported.
    ensures judges { Judges (IsWelcome bytes.now) (IsConnectedFault bytes.now) result }
{
    judged(borrow_connected(bytes))
}

/// Whether the payload begins with the header of an event.
pub fn is_of_event(bytes: &[u8]) -> bool
    ensures { IsTrue result ↔ HasHead IsOfEvent bytes.now }
{
    match reply_head(bytes) {
        Ok(header) => header.xid == -1,
        Err(_short) => false,
    }
}

/// Whether the payload begins with the header of a reply.
pub fn is_of_reply(bytes: &[u8]) -> bool
    ensures { IsTrue result ↔ HasHead IsOfReply bytes.now }
{
    match reply_head(bytes) {
        Ok(header) => header.xid != -1,
        Err(_short) => false,
    }
}

/// Judges whether the payload is that of a reply to a request of the operation whose number is `operation`, with the
/// parts of these numbers.
#[unsafe(no_mangle)]
pub extern "C" fn zk_judge_reply(operation: i32, parts: &[i32], bytes: &[u8]) -> PayloadAnswer
    // Numbers that name nothing, or parts of another operation than multi, are refused.
    ensures range { AreNoneAsked operation parts.now → result ≡ payload_answer 67 0 }
    // A header with the xid of events is another message's.
    ensures event { WhereAsked operation parts.now (λ op ops. HasHead IsOfEvent bytes.now → result ≡ payload_answer 82 0) }
    // It is taken for one exactly if it is one's.
    ensures found { WhereAsked operation parts.now (λ op ops. result.status ≡ 0 → (s : ServerFrame) × IsReply op ops bytes.now s) }
    ensures only { WhereAsked operation parts.now (λ op ops. (s : ServerFrame) → IsReply op ops bytes.now s → result ≡ payload_answer 0 0) }
    // Else the first case that applies is reported.
    ensures fault { WhereAsked operation parts.now (λ op ops. HasNoHead IsOfEvent bytes.now → result.status ≢ 0 → IsToldBy (IsReplyFault op ops bytes.now) result) }
{
    let Some(asked) = Numbered::of(operation, parts) else {
        return PayloadAnswer::none(RANGE);
    };
    if is_of_event(bytes) {
        return PayloadAnswer::none(MISFIT);
    }
    judged(borrow_reply(&asked, bytes))
}

/// Judges whether the payload is that of an event.
#[unsafe(no_mangle)]
pub extern "C" fn zk_judge_event(bytes: &[u8]) -> PayloadAnswer
    // A header with another xid than that of events is another message's.
    ensures reply { HasHead IsOfReply bytes.now → result ≡ payload_answer 82 0 }
    // It is taken for one exactly if it is one's.
    ensures found { result.status ≡ 0 → (s : ServerFrame) × IsNotice bytes.now s }
    ensures only { (s : ServerFrame) → IsNotice bytes.now s → result ≡ payload_answer 0 0 }
    // Else the first case that applies is reported.
    ensures fault { HasNoHead IsOfReply bytes.now → result.status ≢ 0 → IsToldBy (IsEventFault bytes.now) result }
{
    if is_of_reply(bytes) {
        return PayloadAnswer::none(MISFIT);
    }
    judged(borrow_event(bytes))
}
