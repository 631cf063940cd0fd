//! The law of fronts: the messages that have come stay, whatever comes after them.
ghost use Rattle.std.specs.Prelude.{◌++◌};
ghost use Rattle.zk_talk.specs.{declared.limits.Limits.Limits, History.History, Good.Ordered, Answer.IsFront, Answer.StandFirst};

/// The messages of a good front of a history are the first of the messages of the history. The function does nothing.
pub fn front_comes_first()
    // If the whole history is good.
    ensures good { (limits : Limits) (front rest : History) (a : Ordered limits front) (b : Ordered limits (front ++ rest)) → IsFront a.messages b.messages }
    // However it ends: the messages of a history with a fault are those before the fault.
    ensures any { (limits : Limits) (front rest : History) (a : Ordered limits front) → StandFirst a.messages limits (front ++ rest) }
{}
