//! The laws of building, listing and migrating, as contracts of functions that do nothing.
ghost use Rattle.std.specs.Prelude.{◌≡◌, ◌⊎◌, ℕ, List};
ghost use Rattle.zk_talk.specs.{declared.limits.Limits.Limits, Held.Message, declared.message.Ending.TheVariants.Whole as whole, History.HaveSameBytes, Said.said};
ghost use Rattle.zk_runs.specs.{declared.build_result.Built.Built, declared.build_result.Built.TheVariants.Whole, Migrating.IsWhole, Migrating.ListsAs, Migrating.migrated, Building.AreLines, Building.recording_of};
ghost use Rattle.zk_listings.specs.{declared.listing.Listing.Listing, declared.summary.Summary.TheVariants.Ended, Outcome.IsOutcome, Outcome.HasGrownIn};
ghost use Rattle.zk_recordings.specs.{Recording.Recording, Recording.Spells, Recording.history_of, declared.parts.Format.TheVariants.Zkr1, declared.parts.Format.TheVariants.Zkr2};
ghost use Rattle.zk_runs.specs.Rebuilding.{WholeConversation, listing_of, listed_by, one_a_piece, AreAlike, IsForeign, AreBuilt, BuildsJust, BuildsAlike, BuildsWithin, ListsJust, BuiltTwice, Stopped};

/// The listing of a conversation that ends whole is built into its recording of one frame a piece.
pub fn listing_is_built()
    // No line of the listing is refused, and its messages are the conversation's.
    ensures built { (w : WholeConversation) → AreBuilt w.limits (listing_of w) w.messages Whole }
    // So a run over the listing that returns no fault returns that, and has written the recording of these messages.
    ensures run { (w : WholeConversation) → BuildsJust w.limits (listing_of w) w.messages Whole }
    // It has a piece for each message, and is undamaged.
    ensures pieces { (w : WholeConversation) → Spells (recording_of w.messages) (one_a_piece w.messages) }
    // What it holds is the frames of the messages, one after another.
    ensures said { (messages : List Message) → history_of (one_a_piece messages) ≡ said messages }
    // Each side's bytes are those of the conversation.
    ensures bytes { (w : WholeConversation) → HaveSameBytes (history_of (one_a_piece w.messages)) w.history }
    // It has the same messages and the same ending.
    ensures again { (w : WholeConversation) → IsOutcome w.limits (one_a_piece w.messages) w.messages (Ended (whole w.unanswered)) }
{}

/// What is built of it is listed again as it was: a run over that recording that returns no fault has written the
/// listing, or its last line alone, and its status is good.
pub fn built_is_listed()
    ensures { (w : WholeConversation) (listing : Listing) → ListsJust w.limits listing (recording_of w.messages) (listed_by listing w) }
{}

/// Bytes are lines in one way, and one thing is built of lines.
pub fn built_once()
    // Bytes are lines in one way.
    ensures lines { (x : List ℕ) (lines others : List (List ℕ)) → AreLines x lines → AreLines x others → lines ≡ others }
    // The messages up to the first line that is refused are fixed.
    ensures messages { (b : BuiltTwice) → b.messages ≡ b.others }
    // So is which line is refused, if one is, and the reason why a message is not said.
    ensures alike { (b : BuiltTwice) → AreAlike b.built b.other }
    // All of the result is fixed, unless a line that begins with no dot is that of no message.
    ensures same { (b : BuiltTwice) → (b.built ≡ b.other) ⊎ IsForeign b.limits b.lines b.messages }
    // So over known bytes every run that returns no fault writes the recording of these messages, and returns that.
    ensures run { (limits : Limits) (x : List ℕ) (M : List Message) (built : Built) → AreBuilt limits x M built → BuildsAlike limits x M built }
{}

/// What a run that stopped has written is a front of the recording that is built of its bytes.
pub fn begun_is_a_front()
    // Its bytes being those that may be read, however many of them were.
    ensures known { (limits : Limits) (x : List ℕ) (M : List Message) (built : Built) → AreBuilt limits x M built → BuildsWithin limits x M }
    // Or those that were read.
    ensures read { (s : Stopped) → HasGrownIn s.contents s.contents_now (recording_of s.messages) }
{}

/// An undamaged recording of the first format is migrated to one that is listed as it is.
pub fn migrated_is_listed()
    // Under the options, which the new one carries: those that it is listed under have no effect.
    ensures listed { (options other : Limits) (x : List ℕ) (r : Recording) → IsWhole Zkr1 x r → ListsAs options x other (migrated options r) }
    // And no listing of the new one is another.
    ensures back { (options other : Limits) (x : List ℕ) (r : Recording) → IsWhole Zkr1 x r → ListsAs other (migrated options r) options x }
    // One of the second format stays as it is, byte for byte.
    ensures same { (options : Limits) (x : List ℕ) (r : Recording) → IsWhole Zkr2 x r → migrated options r ≡ x }
{}
