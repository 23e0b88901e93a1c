//! The state of threads and classes after some events, in words.

ghost use Rattle.std.specs.Prelude.{◌≡◌, false, true, IfOk};
ghost use Rattle.sequence.specs.Written.{Adds};

use crate::items::ending_error;
use crate::open_class::{OpenClass, Stage};
use crate::reader::Reader;
use hierarchy::{ClassId, Program, Value};
use init_core::{Completed, Event, Kind, Label, Outcome};
use jasmin_words::integer::{push_decimal, push_integer};
use sequence::Writer;
use std::alloc::{AllocError, Global};
use trace::{write_class_name, write_trace};

/// The errors by which the machine ends a thread.
const MACHINE_ERRORS: &str = " java/lang/InternalError or java/lang/OutOfMemoryError";

/// A text about the events of a program.
#[derive(Drop)]
pub(crate) struct Words<'a> {
    pub(crate) program: &'a Program,
    pub(crate) events: &'a [Event],
    pub(crate) text: Writer,
}

/// The label that an event of this kind gives its class, if it gives one.
fn label_by(thread: usize, kind: &Kind) -> Option<Label> {
    match kind {
        Kind::Begins => Some(Label::InProgress(thread)),
        Kind::Completes => Some(Label::Initialized),
        Kind::SuperFails(_) | Kind::Fails(_) => Some(Label::Erroneous),
        _ => None,
    }
}

/// The step that may come at a look at a class with this label; none while the thread waits for another.
pub(crate) fn step_at_look(label: Label, thread: usize, waited: bool) -> Option<usize> {
    match label {
        Label::Prepared => Some(6),
        Label::InProgress(owner) if owner == thread => Some(3),
        Label::InProgress(_) if waited => None,
        Label::InProgress(_) => Some(2),
        Label::Initialized => Some(4),
        Label::Erroneous => Some(5),
    }
}

/// An event as the line of a trace.
fn line_of(alloc: Global, program: &Program, event: &Event) -> Result<Vec<u8>, AllocError> {
    let mut alone = Vec::new(alloc);
    alone.push(event.clone()?)?;
    write_trace(alloc, program, &alone)
}

impl<'a> Words<'a> {
    /// No words, about these events of a program.
    pub(crate) fn new(alloc: Global, program: &'a Program, events: &'a [Event]) -> Self {
        Words {
            program,
            events,
            text: Writer::new(alloc),
        }
    }

    /// The text. An `Err` is that memory ran out.
    pub(crate) fn into_text(self) -> Result<Vec<u8>, AllocError>
        ensures whole { IfOk result (λ text. self.entry.text.is_lost ≡ false) }
        ensures text { IfOk result (λ text. text.items ≡ self.entry.text.text) }
    {
        let Words { text, .. } = self;
        text.into_text()
    }
}

impl Words<'_> {
    pub(crate) fn say(&mut self, words: &str)
        ensures { Adds self.old.text words.now self.new.text }
    {
        self.text.push(words.as_bytes());
    }

    /// What is to be said can't be made.
    pub(crate) fn lose(&mut self)
        ensures { self.new.text.is_lost ≡ true }
    {
        self.text.lose();
    }

    pub(crate) fn class(&mut self, class: ClassId) {
        write_class_name(&mut self.text, self.program, class);
    }

    pub(crate) fn thread(&mut self, thread: usize) {
        self.say("t");
        push_decimal(&mut self.text, thread);
    }

    pub(crate) fn value(&mut self, value: Value) {
        match value {
            Value::Int(number) => push_integer(&mut self.text, number),
            Value::Null => self.say("null"),
            Value::Reference(number) => {
                self.say("#");
                push_decimal(&mut self.text, number as usize);
            }
        }
    }

    /// The class of a thread's last event; the first of the program where it has none.
    pub(crate) fn last_class(&self, thread: usize) -> ClassId {
        let mut found = ClassId { number: 0 };
        'events: for event in self.events {
            if event.thread() == thread {
                found = event.class().unwrap_or(found);
            }
        }
        found
    }

    /// The label of a class after the events, and the number of the event that gave it.
    pub(crate) fn label(&mut self, class: ClassId) -> (Label, usize) {
        let mut found = (Label::Prepared, 0);
        let events = self.events;
        'events: for (number, event) in events.iter().enumerate() {
            if event.class() == Some(class) {
                match event.kind() {
                    Ok(kind) => {
                        if let Some(label) = label_by(event.thread(), &kind) {
                            found = (label, number);
                        }
                    }
                    Err(_) => self.lose(),
                }
            }
        }
        found
    }

    pub(crate) fn since(&mut self, number: usize) {
        self.say(" since event ");
        push_decimal(&mut self.text, number);
    }

    /// An event, as a trace has it but for its number.
    pub(crate) fn event(&mut self, alloc: Global, event: &Event) {
        match line_of(alloc, self.program, event) {
            Ok(line) => self.text.push(line.get(2..).unwrap_or(&[])),
            Err(_) => self.lose(),
        }
    }

    /// That a class has this label.
    pub(crate) fn labelled(&mut self, class: ClassId, label: Label) {
        self.class(class);
        self.say(match label {
            Label::Prepared => " is prepared",
            Label::InProgress(_) => " is being initialized by ",
            Label::Initialized => " is initialized",
            Label::Erroneous => " is erroneous",
        });
        if let Label::InProgress(owner) = label {
            self.thread(owner);
        }
    }

    /// The label of a class, and since when.
    pub(crate) fn label_line(&mut self, class: ClassId) {
        let (label, number) = self.label(class);
        self.labelled(class, label);
        if label != Label::Prepared {
            self.since(number);
        }
        self.say("\n");
    }

    /// That a thread waits for a class, and for which thread.
    fn waits_for(&mut self, thread: usize, class: ClassId) {
        self.of_class(" waits for ", class);
        if let (Label::InProgress(owner), _) = self.label(class) {
            if owner != thread {
                self.say(", which ");
                self.thread(owner);
                self.say(" initializes");
            }
        }
    }

    /// That a thread initializes a class, since when, and how far it is.
    fn initializes(&mut self, class: ClassId, stage: &Stage) {
        self.of_class(" initializes ", class);
        let (_, number) = self.label(class);
        self.since(number);
        self.say(match stage {
            Stage::Looking { .. } => "",
            Stage::Needing(_) => ": in step 7, what it needs comes first",
            Stage::Running { ran: false } => ": all that it needs is done",
            Stage::Running { ran: true } => ": its initializer runs",
            Stage::SuperFails { .. } => ": what it needs has failed",
        });
    }

    /// What a thread is doing with an open class.
    pub(crate) fn open_class(&mut self, thread: usize, open: &OpenClass) {
        self.thread(thread);
        match open.stage {
            Stage::Looking { waited: false } => self.of_class(" comes to ", open.class),
            Stage::Looking { waited: true } => self.waits_for(thread, open.class),
            _ => self.initializes(open.class, &open.stage),
        }
        self.say("\n");
    }

    /// Words about a class.
    pub(crate) fn of_class(&mut self, words: &str, class: ClassId) {
        self.say(words);
        self.class(class);
    }

    /// A step of this number at a class.
    pub(crate) fn step(&mut self, number: usize, class: ClassId) {
        self.say("step");
        push_decimal(&mut self.text, number);
        self.of_class(" ", class);
    }

    /// Another step that may come, after one.
    fn or_step(&mut self, number: usize, class: ClassId) {
        self.say(", ");
        self.step(number, class);
    }

    /// A step that ends a class by this error.
    pub(crate) fn step_by(&mut self, number: usize, class: ClassId, error: ClassId) {
        self.step(number, class);
        self.of_class(" ", error);
    }

    /// What may come at a look.
    fn look(&mut self, thread: usize, class: ClassId, waited: bool) {
        let (label, _) = self.label(class);
        match step_at_look(label, thread, waited) {
            Some(number) => self.step(number, class),
            None => self.say("nothing while it waits"),
        }
    }

    /// What may come in a body besides its end.
    fn items(&mut self, last: Option<Completed>) {
        self.say("a print, a use of a class");
        if let Some(
            Completed {
                class,
                outcome: Outcome::Normal,
            },
        ) = last
        {
            self.of_class(", a get or put of ", class);
        }
    }

    /// What may come in an initializer that runs.
    fn running(&mut self, class: ClassId, last: Option<Completed>) {
        match ending_error(last) {
            Some(error) => self.step_by(12, class, error),
            None => {
                self.step(10, class);
                self.or_step(12, class);
                self.say(" by an Error, ");
                self.items(last);
            }
        }
    }

    /// What may come while this class is the innermost open one.
    fn within(&mut self, thread: usize, open: &OpenClass, last: Option<Completed>) {
        match &open.stage {
            Stage::Looking { waited } => self.look(thread, open.class, *waited),
            // a class that needs another is never the innermost: the other one is open
            Stage::Needing(_) => {}
            Stage::Running { ran: false } => {
                self.step(9, open.class);
                self.or_step(7, open.class);
                self.say(" java/lang/OutOfMemoryError")
            }
            Stage::Running { ran: true } => self.running(open.class, last),
            Stage::SuperFails { error, .. } => self.step_by(7, open.class, *error),
        }
    }

    /// What may come beside a look: the request is given up in the class around it.
    fn giving_up(&mut self, around: &OpenClass) {
        let number = match around.stage {
            Stage::Needing(_) => 7,
            _ => 12,
        };
        self.or_step(number, around.class);
        self.say(MACHINE_ERRORS);
    }

    /// What a thread could do next, as the rest of a line.
    pub(crate) fn possible(&mut self, thread: usize, reader: &Reader) {
        let last = reader.procedures.last;
        match reader.procedures.open_classes() {
            [] if reader.has_ended() => self.say("nothing"),
            [] if reader.begun => self.items(last),
            [] => self.items(None),
            [.., around, innermost] => {
                self.within(thread, innermost, last);
                if let Stage::Looking { .. } = innermost.stage {
                    self.giving_up(around);
                }
            }
            [innermost] => self.within(thread, innermost, last),
        }
        self.say("\n");
    }
}
