//! The laws of what the talk gets of the frames that came.
ghost use Rattle.std.specs.Prelude.{◌≡◌, Bool, List};
ghost use Rattle.zk_records.specs.declared.profile.Profile.{Profile};
ghost use Rattle.zk_talk.specs.{Held.Message, History.History};
ghost use Rattle.zk_through.specs.{Came.Came, Runs.ThroughState, Runs.Runs, LeftOut.Kept, LeftOut.HasNoneOut, Unseen.Seen, Alone.PassesAlone};

/// One list of the frames is seen, and one list of these the talk gets: all where none is left out. The function does
/// nothing.
pub fn kept_laws()
    // What is seen of the frames that came is one list.
    ensures seen { (late : Bool) (all came other : Came) → Seen late all came → Seen late all other → came ≡ other }
    // What is kept of the frames that came is one list.
    ensures one { (profile : Profile) (came given other : Came) → Kept profile came given → Kept profile came other → given ≡ other }
    // The talk gets all frames of a conversation of the profile.
    ensures all { (profile : Profile) (came given : Came) → HasNoneOut profile came → Kept profile came given → given ≡ came }
    // Such a conversation passes as through a talk alone: its messages are those that the history's bytes spell.
    ensures alone { (t : ThroughState) (h : History) (c k : Came) (M : List Message) → Runs t h c k M → PassesAlone t h c M }
{}
