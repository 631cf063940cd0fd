//! The laws of server payloads, as contracts of functions that do nothing: a payload has one frame or one fault.
ghost use Rattle.std.specs.Prelude.{◌≡◌, ℕ, ℤ, List};
ghost use Rattle.zk_jute.specs.{Flagged.IsFlaggedOpeningFault, Item.Item, Item.bytes_of, Once.HaveOneFault, Once.HasNoFault, Once.AreSameFaults};
ghost use Rattle.zk_records.specs.{Records.connect_response, declared.header.ReplyHeader.ReplyHeader, declared.op.Op.Op, declared.op.PartOp.PartOp, Held.WatcherEvent};
ghost use Rattle.zk_answers.specs.Openings.{IsReplyOpening, IsEventOpening};
ghost use Rattle.zk_answers.specs.declared.frame.ServerFrameOf.TheVariants as frame;
ghost use Rattle.zk_answers.specs.{Held.Reply, Held.ServerFrame, Forms.IsConnectedForm, Forms.IsReplyForm, Forms.IsEventForm, Faults.IsConnectedFault, Faults.IsHead, Faults.IsHeadFault, Faults.IsReplyFault, Faults.IsEventFault};
ghost use Rattle.zk_answers.specs.Frames.{frame_items, event_header, header_of, IsConnected, IsEvent, IsReplyTo, IsSent, HaveApartPayloads, payload};

/// A payload is read exactly if it has a form: each frame's items are of a form, and bytes of a form have no fault.
#[tactic(auto, using(crate::proofs::Formed::connected_form, crate::proofs::Formed::reply_form, crate::proofs::Formed::event_form, crate::proofs::Formed::connected_not, crate::proofs::Formed::reply_not, crate::proofs::Formed::event_not))]
pub fn form_laws()
    ensures connected { (s : ServerFrame) → IsConnected s → IsSent s → IsConnectedForm (frame_items s) }
    // The form of a reply is given by its request.
    ensures reply { (op : Op) (parts : List PartOp) (s : ServerFrame) → IsReplyTo op parts s → IsSent s → IsReplyForm op parts (frame_items s) }
    ensures event { (s : ServerFrame) → IsEvent s → IsSent s → IsEventForm (frame_items s) }
    ensures connected_read { (items : List Item) → IsConnectedForm items → HasNoFault IsConnectedFault (bytes_of items) }
    ensures reply_read { (op : Op) (parts : List PartOp) (items : List Item) → IsReplyForm op parts items → HasNoFault (IsReplyFault op parts) (bytes_of items) }
    ensures event_read { (items : List Item) → IsEventForm items → HasNoFault IsEventFault (bytes_of items) }
{}

/// The laws of the first payload.
#[tactic(auto, using(crate::proofs::Connected::connected_injective, crate::proofs::Connected::connected_excludes, crate::proofs::Connected::connected_unique))]
pub fn connected_laws()
    // No two frames have one payload.
    ensures injective { HaveApartPayloads IsConnected }
    // The payload of a frame has no fault.
    ensures excludes { (s : ServerFrame) → IsConnected s → IsSent s → HasNoFault IsConnectedFault (payload s) }
    // Bytes have one fault at most.
    ensures unique { HaveOneFault IsConnectedFault }
{}

/// The laws of events.
#[tactic(auto, using(crate::proofs::Events::event_injective, crate::proofs::Events::event_excludes, crate::proofs::Events::event_unique))]
pub fn event_laws()
    // A payload begins with the header of an event.
    ensures head { (zxid : ℤ) (e : WatcherEvent) → IsSent (frame.Event zxid e) → (rest : List ℕ) × IsHead (payload (frame.Event zxid e)) (event_header zxid) rest }
    ensures injective { HaveApartPayloads IsEvent }
    ensures excludes { (s : ServerFrame) → IsEvent s → IsSent s → HasNoFault IsEventFault (payload s) }
    ensures unique { HaveOneFault IsEventFault }
{}

/// The laws of replies to a request of one operation and its parts.
#[tactic(auto, using(crate::proofs::Replies::reply_injective, crate::proofs::Replies::reply_excludes, crate::proofs::Replies::reply_unique))]
pub fn reply_laws()
    // A payload begins with the reply's header, whatever the request.
    ensures head { (r : Reply) → IsSent (frame.Answered r) → (rest : List ℕ) × IsHead (payload (frame.Answered r)) (header_of r) rest }
    ensures injective { (op : Op) (parts : List PartOp) → HaveApartPayloads (IsReplyTo op parts) }
    ensures excludes { (op : Op) (parts : List PartOp) (s : ServerFrame) → IsReplyTo op parts s → IsSent s → HasNoFault (IsReplyFault op parts) (payload s) }
    ensures unique { (op : Op) (parts : List PartOp) → HaveOneFault (IsReplyFault op parts) }
{}

/// The laws of the header that replies and events begin with.
pub fn head_laws()
    // Bytes begin with one header at most.
    ensures unique { (bytes : List ℕ) (h other : ReplyHeader) (rest more : List ℕ) → IsHead bytes h rest → IsHead bytes other more → (h ≡ other) × (rest ≡ more) }
    // They have one fault of a header at most.
    ensures fault { HaveOneFault IsHeadFault }
    // And not both.
    ensures excludes { (bytes : List ℕ) (header : ReplyHeader) (rest : List ℕ) → IsHead bytes header rest → HasNoFault IsHeadFault bytes }
{}

/// The cases of a fault, as the readers go through them, are those of openings of whole payloads:
/// the items of some payload from its first on, and then what can't come next.
pub fn opening_laws()
    ensures connected { AreSameFaults IsConnectedFault (IsFlaggedOpeningFault connect_response.layout) }
    ensures reply { (op : Op) (parts : List PartOp) → AreSameFaults (IsReplyFault op parts) (IsReplyOpening op parts) }
    ensures event { AreSameFaults IsEventFault IsEventOpening }
{}
