//! Which edition of JVMS asks for what, where an illegal event is one that the other edition asks for.

use crate::breach::{Breach, Place};
use crate::state_words::Words;
use hierarchy::{ClassId, Edition, Program};
use jasmin_text::ClassKind;

/// Whether a class is an interface that declares a non-abstract, non-static method.
fn is_default_interface(program: &Program, id: ClassId) -> bool {
    match program.class(id) {
        Some(class) => match class.kind {
            ClassKind::Interface => class.declares_default,
            ClassKind::Class => false,
        },
        None => false,
    }
}

/// Whether a class implements an interface by itself, directly or indirectly.
fn implements(program: &Program, class: ClassId, interface: ClassId) -> bool {
    for id in program.superinterfaces(class) {
        if id == interface {
            return true;
        }
    }
    false
}

/// What each edition asks for before the initializer of a class runs (JVMS SE 7 5.5 and SE 8 5.5, step 7), where the event is what
/// the other edition asks for: in edition 7 a superinterface comes first, in edition 8 an initializer runs at once.
fn asked_otherwise(program: &Program, breach: &Breach) -> Option<&'static str> {
    let (interface, words) = match program.edition() {
        Edition::Seven => (
            breach.class,
            "in edition 7 the superclass alone is initialized before the initializer of %a runs; in edition 8 the superinterface %c, which declares a default method, is too\n",
        ),
        Edition::Eight => (
            breach.needed,
            "in edition 8 the superinterface %n, which declares a default method, is initialized before the initializer of %c runs; in edition 7 the superclass alone is\n",
        ),
    };
    let is_asked = match (program.edition(), breach.place) {
        (Edition::Seven, Place::Ready) => {
            breach.is_answer() && implements(program, breach.around, interface)
        }
        (Edition::Eight, Place::Unmet) => breach.step == 9,
        _ => false,
    };
    if is_asked && is_default_interface(program, interface) {
        Some(words)
    } else {
        None
    }
}

impl Words<'_> {
    /// Where the other edition asks for this event, what each edition asks for, as a line.
    pub(crate) fn asked_by_editions(&mut self, breach: &Breach) {
        if let Some(words) = asked_otherwise(self.program, breach) {
            self.sentence(words, breach);
        }
    }
}
