//! An illegal event, and where its thread is.

use crate::items::ending_error;
use crate::open_class::{OpenClass, Stage};
use crate::reader::Reader;
use hierarchy::ClassId;
use init_core::{Completed, Kind, Label, Outcome};

/// Where a thread is in its procedures.
#[derive(Clone, Copy)]
pub(crate) enum Place {
    /// In `main`: no class is open.
    Main,
    /// It has ended.
    Ended,
    /// At its main class, before all else.
    First,
    /// In step 7 of a class, at one that this class needs.
    Needing,
    /// In an initializer's body, at a class that it has waited for.
    Waited,
    /// At a class that another thread initializes.
    Waiting,
    /// At step 9 of a class.
    Ready,
    /// In an initializer's body.
    Body,
    /// In an initializer's body that the machine ends.
    EndedBody,
    /// At step 7 of a class, which ends it.
    Failing,
    /// As `Needing`, where the event is step 7 or 9 of the class.
    Unmet,
    /// Within a class that another one needs, where the event is step 7 or 9 of that one.
    Unfinished,
}

/// Where a reader's thread is: these fields of a [`Breach`].
#[derive(Clone, Copy)]
pub(crate) struct Spot {
    pub(crate) place: Place,
    pub(crate) around: ClassId,
    pub(crate) needed: ClassId,
    pub(crate) error: ClassId,
}

/// An illegal event, and what sentences about it name, each by its mark.
#[derive(Clone, Copy)]
pub(crate) struct Breach {
    /// The event's step; 0 of a read, a write or a print.
    pub(crate) step: usize,
    /// `%t`: its thread.
    pub(crate) thread: usize,
    /// `%c`: its class, and `%l`: which label that has.
    pub(crate) class: ClassId,
    pub(crate) label: Label,
    /// `%b`: the throwable that it has.
    pub(crate) thrown: ClassId,
    pub(crate) place: Place,
    /// `%a`: the class that the thread initializes.
    pub(crate) around: ClassId,
    /// `%n`: the class that is looked at, that comes before step 7 or 9, or that has failed; and `%f`: as what it is found.
    pub(crate) needed: ClassId,
    pub(crate) found: &'static str,
    /// `%o`: the thread that initializes it.
    pub(crate) owner: usize,
    /// `%e`: the throwable that ends the class around, or the thread.
    pub(crate) error: ClassId,
}

impl Breach {
    /// Whether the event is the answer to a request for its class: one of steps 2 to 6.
    pub(crate) fn is_answer(&self) -> bool {
        2 <= self.step && self.step <= 6
    }

    /// Whether the event is one of steps 7 to 12 of a class that the thread isn't initializing.
    pub(crate) fn is_not_begun(&self) -> bool {
        self.step >= 7 && self.label != Label::InProgress(self.thread)
    }

    /// Whether the label is against the event though the thread can't do it anyway: it isn't begun, or is a second step 2.
    pub(crate) fn is_against_label(&self) -> bool {
        self.is_not_begun() || self.step == 2 && self.class == self.needed
    }

    /// The class of a mark.
    pub(crate) fn class_by(&self, mark: u8) -> ClassId {
        match mark {
            b'a' => self.around,
            b'b' => self.thrown,
            b'e' => self.error,
            b'n' => self.needed,
            _ => self.class,
        }
    }
}

/// The step that an event of this kind is; 0 of a read, a write or a print.
pub(crate) fn step_of(kind: &Kind) -> usize {
    match kind {
        Kind::Waits => 2,
        Kind::Recurs => 3,
        Kind::FindsInitialized => 4,
        Kind::FindsErroneous => 5,
        Kind::Begins => 6,
        Kind::SuperFails(_) => 7,
        Kind::Runs => 9,
        Kind::Completes => 10,
        Kind::Fails(_) => 12,
        _ => 0,
    }
}

/// Where no class is open.
fn spot_in_main(reader: &Reader, none: ClassId) -> Spot {
    let place = if reader.has_ended() {
        Place::Ended
    } else {
        Place::Main
    };
    let (around, error) = match reader.procedures.last {
        Some(Completed { class, outcome }) => match outcome {
            Outcome::Normal => (class, none),
            Outcome::Abrupt(error) | Outcome::Ended(error) => (class, error),
        },
        None => (none, none),
    };
    Spot {
        place,
        around,
        needed: none,
        error,
    }
}

/// At a request within a class of this stage.
fn place_at_request(around: &Stage) -> Place {
    match around {
        Stage::Looking { .. } => Place::First,
        Stage::Running { .. } => Place::Waited,
        _ => Place::Needing,
    }
}

/// Within the innermost open class, and the one around it; that is the same where there is none.
fn spot_within(
    around: &OpenClass,
    innermost: &OpenClass,
    last: Option<Completed>,
    failed: ClassId,
) -> Spot {
    let class = innermost.class;
    let (place, around, needed, error) = match &innermost.stage {
        Stage::Looking { .. } => (place_at_request(&around.stage), around.class, class, class),
        Stage::Needing(_) => (Place::Ready, class, class, class),
        Stage::Running { ran: false } => (Place::Ready, class, class, class),
        Stage::Running { ran: true } => match ending_error(last) {
            Some(error) => (Place::EndedBody, class, class, error),
            None => (Place::Body, class, class, class),
        },
        Stage::SuperFails { error, .. } => (Place::Failing, class, failed, *error),
    };
    Spot {
        place,
        around,
        needed,
        error,
    }
}

/// Where this reader's thread is, whose last event is one of this class.
pub(crate) fn spot_of(reader: &Reader, last: ClassId) -> Spot {
    let procedures = &reader.procedures;
    match procedures.open_classes() {
        [] => spot_in_main(reader, last),
        [innermost] => spot_within(innermost, innermost, procedures.last, last),
        [.., around, innermost] => spot_within(around, innermost, procedures.last, last),
    }
}

/// The thread that a thread at a request waits for, where the class has this label.
pub(crate) fn waits_for(reader: &Reader, thread: usize, label: Label) -> Option<usize> {
    let [.., innermost] = reader.procedures.open_classes() else {
        return None;
    };
    match (&innermost.stage, label) {
        (Stage::Looking { waited: true }, Label::InProgress(owner)) if owner != thread => {
            Some(owner)
        }
        _ => None,
    }
}

/// The open class that this open class needs, if step 7 of it isn't done.
pub(crate) fn needed_by(reader: &Reader, class: ClassId) -> Option<&OpenClass> {
    let mut is_next = false;
    for open in reader.procedures.open_classes() {
        if is_next {
            return Some(open);
        }
        is_next = open.class == class && matches!(open.stage, Stage::Needing(_));
    }
    None
}
