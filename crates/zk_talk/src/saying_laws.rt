//! The laws of saying: which messages may be said, and that what was said is read again.
ghost use Rattle.std.specs.Prelude.{◌≡◌, List, []};
ghost use Rattle.zk_talk.specs.{declared.limits.Limits.Limits, declared.say.SayFault.SayFault, Held.Message, declared.message.Ending.TheVariants.Whole, History.History, History.HaveSameBytes, Conversation.Conversation};
ghost use Rattle.zk_talk.specs.{Good.Good, Good.AreWholly, Ending.unanswered, Answer.IsReadAs};
ghost use Rattle.zk_talk.specs.Said.{AreSaid, AreSized, AreFrames, MaySay, IsSayFault, said, conversation_of};

/// At most one case of `SayFault` holds of any message, and none of a message that may be said. The function does nothing.
pub fn say_laws()
    ensures exact { (limits : Limits) (M : List Message) (m : Message) (e : SayFault) → AreSaid limits M → MaySay limits M m → IsSayFault limits M m e → ⊥ }
    ensures once { (limits : Limits) (M : List Message) (m : Message) (e f : SayFault) → IsSayFault limits M m e → IsSayFault limits M m f → e ≡ f }
{}

/// What is said is read again: the frames of messages that were said, one after another, are a history of just these
/// messages in their order, and it ends whole. The function does nothing.
pub fn said_is_read()
    // The frames are a good history of the messages in their order.
    ensures good { (limits : Limits) (M : List Message) → AreSaid limits M → AreSized M → AreWholly limits (said M) (conversation_of M) M }
    // A reader of these frames returns the messages, and that they end whole.
    ensures read { (limits : Limits) (M : List Message) → AreSaid limits M → AreSized M → IsReadAs limits (said M) M (Whole (unanswered (conversation_of M))) }
{}

/// What was read may be said again: if a history of whole frames, one after another, is good and ends whole, its
/// messages, said in their order, give its bytes. The function does nothing.
pub fn read_is_said()
    // If the frames of messages are a good history of them, the messages may be said.
    ensures messages { (limits : Limits) (M : List Message) → Good limits (said M) (conversation_of M) [] [] → AreSaid limits M }
    // The messages of a history of whole frames, said in their order, give its bytes.
    ensures again { (limits : Limits) (h : History) (v : Conversation) (M : List Message) → AreFrames limits h → AreWholly limits h v M → said M ≡ h }
{}

/// Whatever was read whole may be said: the messages of a good history that ends whole, however its bytes were cut and
/// interleaved, may be said in the order of their last bytes, and then give each side its bytes. The function does nothing.
pub fn order_is_said()
    ensures said { (limits : Limits) (h : History) (v : Conversation) (M : List Message) → AreWholly limits h v M → AreSaid limits M }
    ensures bytes { (limits : Limits) (h : History) (v : Conversation) (M : List Message) → AreWholly limits h v M → HaveSameBytes (said M) h }
    ensures conversation { (limits : Limits) (h : History) (v : Conversation) (M : List Message) → AreWholly limits h v M → conversation_of M ≡ v }
{}
