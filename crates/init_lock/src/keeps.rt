//! What a record has to say of itself to lie under the lock.
ghost use Rattle.std.specs.Prelude.{◌≡◌, ℕ, List, [], Option, Bool};

/// A record that keeps events.
///
/// The table knows nothing of what a record is. It asks which events the record keeps, in which order, which events
/// a pass may draw, which settle their place and what an event at no place leans on, what is true of the events of a place at every
/// moment, which record may go back where another was taken, and how an event is packed for a journal.
pub trait Keeps: Drop {
    /// What is drawn: one event gets one stamp.
    type Event: Drop;

    /// What an event may have beside a word, as a printed text.
    type Text: Drop;

    /// The event that a word and a text stand for.
    ghost unpacked: { ℕ → Option Self.Text → Self.Event };

    /// Whether a word and a text stand for an event.
    ghost is_packed: { ℕ → Option Self.Text → Type 0 };

    /// The events that a record keeps, the oldest first.
    ghost kept: { Self → List Self.Event };

    /// Whether the pass of a number may draw an event at a place, or at none.
    ghost may_draw: { ℕ → Option ℕ → Self.Event → Type 0 };

    /// Whether an event settles its place for good, so that the place may later be passed without its lock.
    ghost settles: { Self.Event → Bool };

    /// What is true of the events of each place at every moment.
    ghost lawful: { List Self.Event → Type 0 };

    /// It is true where there are none.
    ghost lawful_at_first: { lawful [] };

    /// The place that must be settled before this event may be drawn at no place, if there is one.
    ghost leans_on: { Self.Event → Option ℕ };

    /// Whether the second record may take the first one's place after it.
    /// It says what the kept events don't, as which class a record is of.
    ghost follows: { Self → Self → Type 0 };

    /// Each record follows itself.
    ghost follows_itself: { (x : Self) → follows x x };

    /// What follows a follower follows.
    ghost follows_on: { (x y z : Self) → follows x y → follows y z → follows x z };

    /// An event as a word and a text, which is how journals keep it.
    fn pack(event: Self::Event) -> (u64, Option<Self::Text>)
        ensures packed { is_packed result.0 result.1 }
        ensures same { unpacked result.0 result.1 ≡ event };

    /// The event that a word and a text stand for.
    fn unpack(word: u64, text: Option<Self::Text>) -> Self::Event
        requires { is_packed word text }
        ensures { result ≡ unpacked word text };
}
