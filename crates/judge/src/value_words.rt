//! What a static field holds, in words, where a read gives another value.

use crate::judge::Judge;
use crate::state_words::Words;
use descriptors::write_field;
use hierarchy::{ClassId, Program, Value};
use init_core::{Event, Kind};
use jasmin_text::Field;
use statics::static_field_at;
use std::alloc::Global;

/// A static field, and what it holds.
#[derive(Clone, Copy)]
pub(crate) struct Held<'a> {
    field: &'a Field,
    place: usize,
    value: Value,
}

/// The static field of a class that an event of this kind reads, if there is one.
pub(crate) fn held_at<'a>(
    program: &'a Program,
    judge: &Judge,
    class: ClassId,
    kind: &Kind,
) -> Option<Held<'a>> {
    let Kind::Gets { field: place, .. } = kind else {
        return None;
    };
    let state = judge.classes.states.get(class.number)?;
    if *place >= state.static_fields() {
        return None;
    }
    Some(Held {
        field: static_field_at(program, class, *place)?,
        place: *place,
        value: state.value(*place),
    })
}

/// Whether an event writes the static field of that place.
fn is_put(event: &Event, place: usize) -> bool {
    match event.kind() {
        Ok(Kind::Puts { field, .. }) => field == place,
        _ => false,
    }
}

impl Words<'_> {
    /// The read that would have been right, and a comma.
    pub(crate) fn right_get(&mut self, alloc: Global, class: ClassId, held: &Held) {
        self.of_class("get ", class);
        self.say(" ");
        self.text.push(held.field.name.as_slice());
        self.say(":");
        match write_field(alloc, &held.field.field_type) {
            Ok(spelling) => self.text.push(&spelling),
            Err(_) => self.lose(),
        }
        self.say(" ");
        self.value(held.value);
        self.say(", ");
    }

    /// The number of the last event that wrote the field.
    fn last_put(&self, class: ClassId, place: usize) -> Option<usize> {
        let mut found = None;
        'events: for (number, event) in self.events.iter().enumerate() {
            if event.class() == Some(class) && is_put(event, place) {
                found = Some(number);
            }
        }
        found
    }

    /// What the field holds, and since when.
    pub(crate) fn holds(&mut self, class: ClassId, held: &Held) {
        self.text.push(held.field.name.as_slice());
        self.of_class(" of ", class);
        self.say(" holds ");
        self.value(held.value);
        match self.last_put(class, held.place) {
            Some(number) => {
                self.since(number);
                self.say(", and a get gives what was put last");
            }
            None => {
                self.say(match held.field.value {
                    Some(_) => ", its constant from step 6 on: ",
                    None => ", the default of its type: ",
                });
                self.edition();
                self.say(match held.field.value {
                    Some(_) => " 12.4.2 step 6",
                    None => " 4.12.5",
                });
            }
        }
    }
}
