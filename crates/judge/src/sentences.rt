//! The rule that an illegal event breaks, as a sentence with marks: those of [`Breach`] and of [`of_needed`]; `%j` is JLS in the program's
//! edition, `%s` the event's step.

use crate::breach::{Breach, Place};
use crate::verdict::Rule;

/// The class's label lets no such step be made.
fn of_label(step: usize) -> &'static str {
    match step {
        2 => "step 2 is for a class that another thread is initializing, and %l: %j 12.4.2 step 2",
        4 => "step 4 is for a class that is initialized, and %l: %j 12.4.2 step 4",
        5 => "step 5 is for a class that is erroneous, and %l: %j 12.4.2 step 5",
        6 => "step 6 is for a class that no thread has begun, and %l: %j 12.4.2 step 6",
        _ => "step %s is for a class that %t is initializing, and %l: %j 12.4.2 step %s",
    }
}

/// In `main`, or in an initializer's body.
fn in_body(breach: &Breach) -> &'static str {
    match breach.step {
        0 => {
            "a get or put of %c comes directly after step 3, 4 or 10 of %c by the same thread: %j 12.4.1"
        }
        2..=6 => "%c is a built-in class, which is initialized from the start and has no events",
        12 if breach.class == breach.around => {
            "%a fails by ExceptionInInitializerError in place of %b, which is neither Error nor a subclass of it: %j 12.4.2 step 11"
        }
        _ if breach.class == breach.around => {
            "%a's initializer runs already, and step 10 or 12 of %a ends it: %j 12.4.2 steps 10 and 12"
        }
        _ =>
            "%t has begun %a within %c, and completes or fails %a first: %j 12.4.2 steps 10 and 12",
    }
}

/// In step 7, or where step 7 or 9 comes too early.
fn in_step_7(breach: &Breach) -> &'static str {
    match breach.place {
        Place::Needing => "%a needs its %k %n%d next: %j %p",
        Place::Failing => "%a's %k %n has thrown %e, so %a fails by it too: %j 12.4.2 step 7",
        _ if breach.step == 7 => {
            "step 7 of %c comes after step 5, 7 or 12 of its %k %n by the same thread: %j 12.4.2 step 7"
        }
        _ => "%c's initializer comes after its %k %n%d %f: %j %p",
    }
}

/// What a mark says of the class that is needed: `%k` is what it is, `%d` why an interface is needed, `%p` where it is said.
pub(crate) fn of_needed(mark: u8, is_interface: bool) -> &'static str {
    match (mark, is_interface) {
        (b'k', true) => "superinterface",
        (b'k', false) => "superclass",
        (b'd', true) => ", which declares a default method,",
        (b'd', false) => "",
        (_, true) => "12.4.1, 12.4.2 step 7",
        (_, false) => "12.4.2 step 7",
    }
}

/// The rule that an event breaks.
pub(crate) fn sentence_of(breach: &Breach, rule: Rule) -> &'static str {
    match breach.place {
        Place::Ended => "%t has ended by %e, by which %a failed, and makes no more events: %j 11.3",
        Place::Waiting => {
            "%t waits for %n, which %o initializes, and can't go on before %o has completed or failed it: %j 12.4.2 step 2"
        }
        _ if rule == Rule::Label || breach.is_against_label() => of_label(breach.step),
        Place::First => "%t initializes its main class %n before all else: %j 12.1.4",
        Place::Waited => "%t has waited for %n, and looks at it again: %j 12.4.2 step 2",
        Place::Ready =>
            "all that %a needs is done, so its initializer comes next: %j 12.4.2 step 9",
        Place::EndedBody =>
            "%a's initializer ends by %e, which no handler catches: %j 12.4.2 step 12",
        Place::Main | Place::Body => in_body(breach),
        _ => in_step_7(breach),
    }
}
