//! The heap of a program without classes, and its monitors.

use crate::programs::{Question, Row};
use code::{Element, ResolvedType};
use descriptors::BaseType;
use heap::{Entry, Heap, Holder, Monitor, Monitors, no_class, out_of_memory};
use hierarchy::{BuiltIn, Program, Value};
use std::alloc::Global;

/// The type of bytes.
const BYTE: ResolvedType = ResolvedType {
    dimensions: 0,
    element: Element::Base(BaseType::Byte),
};

/// What is looked at.
#[derive(Clone, Copy)]
pub(crate) enum Part {
    Throws,
    Types,
    Bytes,
    Full,
    Monitors,
}

/// Whether thrown objects get the next references, and are found by them.
fn throws(program: &Program, heap: &mut Heap) -> bool {
    let Ok(thrown) = heap.throwable(program, BuiltIn::VerifyError) else {
        return false;
    };
    let Ok(wrapped) = heap.initializer_error(program) else {
        return false;
    };
    thrown.reference == 3
        && wrapped.reference == 4
        && heap.new_object(program, thrown.class) == Ok(Some(5))
        && heap.class_of(program, 3) == Some(program.built_in(BuiltIn::VerifyError))
        && heap.class_of(program, 4) == Some(wrapped.class)
        && heap.class_of(program, 6).is_none()
        && out_of_memory(program).reference == 1
        && no_class(program).reference == 2
}

/// A type, by its dimensions and its element, a reference, whether that refers to an instance of the type, and whether it fits it.
/// A built-in class is its own number where no file has a class.
type Fitting = (u8, Element, u32, bool, bool);

/// An error is at reference 3, an array of bytes at 4.
const FITTINGS: &[Fitting] = &[
    (0, Element::Class(BuiltIn::Error as u16), 3, true, true),
    (
        0,
        Element::Class(BuiltIn::Exception as u16),
        3,
        false,
        false,
    ),
    (0, Element::Any, 0, false, true),
    (0, Element::Any, 6, false, true),
    (1, Element::Base(BaseType::Byte), 4, true, true),
    (0, Element::Class(BuiltIn::Object as u16), 4, true, true),
    (0, Element::Class(BuiltIn::String as u16), 4, false, false),
];

/// Whether references fit types as they must.
fn are_fitting(program: &Program, heap: &Heap) -> bool {
    for (dimensions, element, reference, is_instance, fits) in FITTINGS {
        let wanted = ResolvedType {
            dimensions: *dimensions,
            element: *element,
        };
        if heap.is_instance(program, wanted, *reference) != *is_instance
            || heap.fits(program, wanted, *reference) != *fits
        {
            return false;
        }
    }
    true
}

/// Whether objects and arrays fit what they are, and have no field where their class has none.
fn types(program: &Program, heap: &mut Heap) -> bool {
    heap.throwable(program, BuiltIn::VerifyError).is_ok()
        && heap.new_array(program, BYTE, 2).is_ok()
        && heap.field(program, BYTE, 3, 0).is_none()
        && !heap.put_field(program, BYTE, 3, 0, Value::Int(1))
        && are_fitting(program, heap)
}

/// Whether an array holds defaults and what is written to it, as its type keeps it.
fn keeps_bytes(program: &Program, heap: &mut Heap) -> bool {
    heap.new_array(program, BYTE, 2) == Ok(Some(3))
        && matches!(
            heap.element_type(program, 3),
            Some(ResolvedType {
                dimensions: 0,
                element: Element::Base(BaseType::Byte),
            })
        )
        && heap.length(program, 3) == Some(2)
        && heap.class_of(program, 3) == Some(program.built_in(BuiltIn::Object))
        && heap.put_element(program, 3, 1, Value::Int(200))
        && !heap.put_element(program, 3, 2, Value::Int(200))
        && heap.element(program, 3, 0) == Some(Value::Int(0))
        && heap.element(program, 3, 1) == Some(Value::Int(-56))
}

/// Whether nothing is made where there is no room.
fn is_full(program: &Program, heap: &mut Heap) -> bool {
    let are_made = heap.new_array(program, BYTE, usize::MAX) == Ok(None)
        && heap.new_array(program, BYTE, 999_996) == Ok(Some(3))
        && heap.new_array(program, BYTE, 0) == Ok(None);
    match heap.throwable(program, BuiltIn::VerifyError) {
        Ok(thrown) => are_made && thrown.reference == 1,
        Err(_) => false,
    }
}

const MONITOR: Monitor = Monitor::Object(7);

/// Whether a monitor is held by one thread, as often as it entered it, and left by that thread alone.
fn is_held(alloc: Global) -> bool {
    let mut monitors = Monitors::new(alloc);
    let holder = Holder {
        thread: 1,
        count: 2,
    };
    let is_entered = monitors.enter(1, MONITOR) == Ok(Entry::Entered)
        && monitors.enter(1, MONITOR) == Ok(Entry::Entered)
        && monitors.enter(2, MONITOR) == Ok(Entry::Busy)
        && monitors.holder(MONITOR) == Some(holder);
    let left = monitors.exit(1, MONITOR);
    let not_left = monitors.exit(2, MONITOR);
    monitors.release_all(1);
    is_entered && left && !not_left && monitors.holder(MONITOR).is_none()
}

/// Whether a part of a new heap is right, over a program without classes.
pub(crate) fn is_right(alloc: Global, program: &Program, part: Part) -> bool {
    let mut heap = Heap::new(alloc);
    match part {
        Part::Throws => throws(program, &mut heap),
        Part::Types => types(program, &mut heap),
        Part::Bytes => keeps_bytes(program, &mut heap),
        Part::Full => is_full(program, &mut heap),
        Part::Monitors => is_held(alloc),
    }
}

pub(crate) const PARTS: &[Row] = &[
    Row {
        files: &[],
        question: Question::Heap(Part::Throws),
    },
    Row {
        files: &[],
        question: Question::Heap(Part::Types),
    },
    Row {
        files: &[],
        question: Question::Heap(Part::Bytes),
    },
    Row {
        files: &[],
        question: Question::Heap(Part::Full),
    },
    Row {
        files: &[],
        question: Question::Heap(Part::Monitors),
    },
];
