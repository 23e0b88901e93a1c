//! A class's record under its initialization lock.

ghost use Rattle.std.specs.Prelude.{◌≡◌};
ghost use Rattle.init_core.specs.EventWord.{event_of};

use init_core::{ClassRecord, Event};
use init_lock::Keeps;
use sequence::Text;

/// A class's record, for the table of locks.
///
/// It keeps the events of its history. Step 10 settles it: a class that is initialized stays so.
#[derive(Drop)]
pub struct Guarded {
    /// The record.
    pub record: ClassRecord,
    /// The threads that sleep until the class is ended, a bit each. They are no part of the history.
    pub sleepers: u16,
}

impl Keeps for Guarded {
    type Event = Event;

    type Text = Box<Text>;

    ghost use Rattle.guest_threads.specs.Drawing.{MayDraw, Follows, leans_on};
    ghost use Rattle.guest_threads.specs.Following.{follows_itself, follows_on};
    ghost use Rattle.init_core.specs.EventWord.{event_of};
    ghost use Rattle.init_core.specs.Label.{is_completion};
    ghost use Rattle.init_core.specs.Lawful.{AgreesWithLabels};

    ghost unpacked = { event_of };

    ghost is_packed = { λ word text. Unit {0} };

    ghost kept = { λ g. g.record.events };

    ghost may_draw = { MayDraw };

    ghost settles = { is_completion };

    ghost lawful = { AgreesWithLabels };

    ghost lawful_at_first = { tt };

    ghost leans_on = { leans_on };

    ghost follows = { λ x y. Follows x.record y.record };

    ghost follows_itself = { λ x. follows_itself x.record };

    ghost follows_on = { λ x y z. follows_on x.record y.record z.record };

    fn pack(event: Event) -> (u64, Option<Box<Text>>)
        ensures packed { Unit {0} }
        ensures same { event_of result.0 result.1 ≡ event }
    {
        event.into_parts()
    }

    fn unpack(word: u64, text: Option<Box<Text>>) -> Event
        requires { Unit {0} }
        ensures { result ≡ event_of word text }
    {
        Event::from_parts(word, text)
    }
}
