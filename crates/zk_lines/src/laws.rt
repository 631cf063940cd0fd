//! The laws of lines and of ending lines, as contracts of functions that do nothing.
ghost use Rattle.std.specs.Prelude.{◌≡◌, ◌≢◌, ◌≤◌, ℕ, List, ◌∷◌};
ghost use Rattle.std.specs.List.{AllByRecursion};
ghost use Rattle.zk_lines.specs.{Endings.EndingFits, Endings.ending_text, Lines.Fits, Lines.line};
ghost use Rattle.zk_talk.specs.{declared.limits.Limits.Limits, declared.message.Ending.Ending, Held.Message, Said.MaySay};

/// The laws of lines.
pub fn line_laws()
    // Two messages that a program can hold have two lines.
    ensures different { (m n : Message) → Fits m → Fits n → line m ≡ line n → m ≡ n }
    // Every message that may be said can be held.
    ensures said_fits { (limits : Limits) (before : List Message) (m : Message) → MaySay limits before m → Fits m }
    // A line is made of the ASCII characters from the blank to `~`.
    ensures printed { (m : Message) → Fits m → AllByRecursion (λ b. (32 ≤ b) × (b ≤ 126)) (line m) }
    // So it has no line feed.
    ensures one_line { (m : Message) → Fits m → AllByRecursion (λ b. b ≢ 10) (line m) }
    // No message's line begins with a dot.
    ensures not_dotted { (m : Message) (rest : List ℕ) → line m ≡ 46 ∷ rest → ⊥ }
{}

/// The laws of the lines of endings.
pub fn ending_laws()
    // Two endings that a program can hold have two lines.
    ensures different { (e f : Ending) → EndingFits e → EndingFits f → ending_text e ≡ ending_text f → e ≡ f }
    // Such a line begins with a dot.
    ensures dotted { (e : Ending) → (rest : List ℕ) × (ending_text e ≡ 46 ∷ rest) }
    // It is made of the ASCII characters from the blank to `~`.
    ensures printed { (e : Ending) → AllByRecursion (λ b. (32 ≤ b) × (b ≤ 126)) (ending_text e) }
    // So it has no line feed.
    ensures one_line { (e : Ending) → AllByRecursion (λ b. b ≢ 10) (ending_text e) }
{}
