//! Which rule an illegal event breaks, in words, and which step would have been right.

use crate::breach::{Breach, Place, needed_by, spot_of, step_of, waits_for};
use crate::open_class::Stage;
use crate::reader::Reader;
use crate::sentences::{of_needed, sentence_of};
use crate::state_words::{Words, step_at_look};
use crate::verdict::Rule;
use hierarchy::{BuiltIn, ClassId, Edition, Program};
use init_core::{Event, Kind, Label};
use jasmin_text::ClassKind;
use jasmin_words::integer::push_decimal;

fn is_interface(program: &Program, class: ClassId) -> bool {
    match program.class(class) {
        Some(class) => matches!(class.kind, ClassKind::Interface),
        None => false,
    }
}

/// The throwable that an event of this kind has.
fn thrown_by(kind: &Kind, none: ClassId) -> ClassId {
    match kind {
        Kind::SuperFails(error) | Kind::Fails(error) => *error,
        _ => none,
    }
}

/// As what a class of this label is found by a thread that looks at it before it runs the initializer of another.
fn found_as(label: Label, thread: usize) -> &'static str {
    match label {
        Label::Initialized => "is found initialized",
        Label::InProgress(owner) if owner == thread => "is found in progress by the same thread",
        Label::Erroneous => "is initialized, not where it is erroneous",
        _ => "is initialized",
    }
}

/// The step that would have been right in a body: one of a request of the event's class, if any.
fn step_in_body(program: &Program, breach: &Breach) -> Option<usize> {
    let is_begun = breach.step >= 7 && !breach.is_not_begun();
    if is_begun || breach.class.number >= program.len() {
        return None;
    }
    step_at_look(breach.label, breach.thread, false)
}

impl Words<'_> {
    /// An illegal event of a reader's thread.
    pub(crate) fn breach(&mut self, reader: &Reader, event: &Event, kind: &Kind) -> Breach {
        let thread = event.thread();
        let spot = spot_of(reader, self.last_class(thread));
        let class = event.class().unwrap_or(spot.around);
        let (label, _) = self.label(class);
        let mut breach = Breach {
            step: step_of(kind),
            thread,
            class,
            label,
            thrown: thrown_by(kind, class),
            place: spot.place,
            around: spot.around,
            needed: spot.needed,
            found: "is initialized",
            owner: thread,
            error: spot.error,
        };
        self.look_closer(reader, &mut breach);
        breach
    }

    /// Where the thread waits, or the event is a step 7 or 9 that comes too early, the place says so.
    fn look_closer(&mut self, reader: &Reader, breach: &mut Breach) {
        let (label, _) = self.label(breach.needed);
        if let Some(owner) = waits_for(reader, breach.thread, label) {
            breach.place = Place::Waiting;
            breach.owner = owner;
            return;
        }
        if breach.step != 7 && breach.step != 9 {
            return;
        }
        let Some(needed) = needed_by(reader, breach.class) else {
            return;
        };
        breach.needed = needed.class;
        breach.place = Place::Unfinished;
        if let Stage::Looking { .. } = needed.stage {
            breach.place = Place::Unmet;
            breach.found = found_as(label, breach.thread);
        }
    }

    /// JLS in the program's edition.
    pub(crate) fn edition(&mut self) {
        self.say(match self.program.edition() {
            Edition::Seven => "JLS SE 7",
            Edition::Eight => "JLS SE 8",
        });
    }

    /// What a mark says.
    fn term(&mut self, mark: u8, breach: &Breach) {
        match mark {
            b't' => self.thread(breach.thread),
            b'o' => self.thread(breach.owner),
            b's' => push_decimal(&mut self.text, breach.step),
            b'l' => self.labelled(breach.class, breach.label),
            b'f' => self.say(breach.found),
            b'j' => self.edition(),
            b'k' | b'd' | b'p' => {
                let is_interface = is_interface(self.program, breach.needed);
                self.say(of_needed(mark, is_interface));
            }
            _ => self.class(breach.class_by(mark)),
        }
    }

    /// A sentence, with what its marks say.
    pub(crate) fn sentence(&mut self, sentence: &str, breach: &Breach) {
        let mut is_mark = false;
        for byte in sentence.as_bytes() {
            if is_mark {
                self.term(*byte, breach);
            } else if *byte != b'%' {
                self.text.push(&[*byte]);
            }
            is_mark = *byte == b'%';
        }
    }

    /// The rule that the event breaks.
    pub(crate) fn broken(&mut self, breach: &Breach, rule: Rule) {
        self.sentence(sentence_of(breach, rule), breach);
    }

    /// The step at the event's class that would have been right in a body, if one would, and a comma.
    pub(crate) fn right_step(&mut self, breach: &Breach) {
        let class = breach.class;
        match breach.place {
            Place::Body if breach.step == 12 && class == breach.around => {
                let error = self.program.built_in(BuiltIn::ExceptionInInitializerError);
                self.step_by(12, class, error);
            }
            Place::Main | Place::Body => match step_in_body(self.program, breach) {
                Some(number) => self.step(number, class),
                None => return,
            },
            _ => return,
        }
        self.say(", ");
    }
}
