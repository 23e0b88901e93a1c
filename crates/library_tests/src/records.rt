//! One class's record, by one thread and by two.

use crate::programs::{Question, Row};
use hierarchy::{ClassId, Program, Value};
use init_core::{CLASS_NUMBERS, ClassRecord, Decision, Ending, Event, Kind, Label, THREADS};
use sequence::Text;
use std::alloc::{AllocError, Global};
use trace::write_trace;

/// A class without fields, one whose static fields have constants, with an instance field between them, and one with a constant
/// before a field without one.
const FILES: &[&[u8]] = &[
    b".class Solo",
    b".class C\n.field static b B = 300\n.field static z Z = 2\n.field static s Ljava/lang/String; = \"a\"\n.field static n I",
    b".class D\n.field static k I = 5\n.field static n S",
];

const ERROR: ClassId = ClassId { number: 7 };

/// What is done to a record, where it may be done.
enum Deed {
    /// This thread looks at the class, and finds this.
    Finds(usize, Decision),
    /// The owner ends the class so.
    Ends(Ending),
    /// Thread 0 reads a static field, by its place, and gets this.
    Gets(usize, Value),
    /// Thread 0 writes a static field, by its place.
    Puts(usize, Value),
}

/// What is done to the record of a class, and what comes of it.
#[derive(Clone, Copy)]
pub(crate) struct Story {
    class: usize,
    deeds: &'static [Deed],
    label: Label,
    owner: Option<usize>,
    failure: Option<ClassId>,
    /// What the static fields hold.
    values: &'static [Value],
    /// The events, as a trace.
    trace: &'static [u8],
}

/// A record to which nothing is done.
const PREPARED: Story = Story {
    class: 0,
    deeds: &[],
    label: Label::Prepared,
    owner: None,
    failure: None,
    values: &[],
    trace: b"",
};

/// A thread has begun to initialize the class.
const BEGUN: Story = Story {
    deeds: &[Deed::Finds(0, Decision::Begins)],
    label: Label::InProgress(0),
    owner: Some(0),
    trace: b"0 t0 step6 Solo\n",
    ..PREPARED
};

const COMPLETED: Story = Story {
    deeds: &[
        Deed::Finds(0, Decision::Begins),
        Deed::Finds(0, Decision::Recurs),
        Deed::Finds(1, Decision::Waits { first: true }),
        Deed::Finds(1, Decision::Waits { first: false }),
        Deed::Ends(Ending::Completes),
        Deed::Finds(1, Decision::FindsInitialized),
    ],
    label: Label::Initialized,
    trace: b"0 t0 step6 Solo\n1 t0 step3 Solo\n2 t1 step2 Solo\n3 t0 step10 Solo\n4 t1 step4 Solo\n",
    ..PREPARED
};

const FAILED: Story = Story {
    deeds: &[
        Deed::Finds(3, Decision::Begins),
        Deed::Ends(Ending::Fails(ERROR)),
        Deed::Finds(3, Decision::FindsErroneous),
        Deed::Finds(0, Decision::FindsErroneous),
    ],
    label: Label::Erroneous,
    failure: Some(ERROR),
    trace: b"0 t3 step6 Solo\n1 t3 step12 Solo java/lang/Throwable\n2 t3 step5 Solo\n3 t0 step5 Solo\n",
    ..PREPARED
};

const FAILED_BY_SUPER: Story = Story {
    deeds: &[
        Deed::Finds(3, Decision::Begins),
        Deed::Ends(Ending::SuperFails(ERROR)),
        Deed::Finds(3, Decision::FindsErroneous),
        Deed::Finds(0, Decision::FindsErroneous),
    ],
    trace: b"0 t3 step6 Solo\n1 t3 step7 Solo java/lang/Throwable\n2 t3 step5 Solo\n3 t0 step5 Solo\n",
    ..FAILED
};

/// Before step 6 no constant is there.
const DEFAULTS: Story = Story {
    class: 1,
    values: &[Value::Int(0), Value::Int(0), Value::Null, Value::Int(0)],
    ..PREPARED
};

/// Constants are narrowed to their field's type.
const NARROWED: Story = Story {
    class: 1,
    deeds: &[
        Deed::Finds(0, Decision::Begins),
        Deed::Gets(0, Value::Int(44)),
        Deed::Gets(1, Value::Int(0)),
        Deed::Gets(2, Value::Reference(3)),
        Deed::Gets(3, Value::Int(0)),
    ],
    values: &[
        Value::Int(44),
        Value::Int(0),
        Value::Reference(3),
        Value::Int(0),
    ],
    trace: b"0 t0 step6 C\n1 t0 get C b:B 44\n2 t0 get C z:Z 0\n3 t0 get C s:Ljava/lang/String; #3\n4 t0 get C n:I 0\n",
    ..BEGUN
};

/// From step 6 on constants are there, before anything that the class needs is done.
const WITHIN_STEP_7: Story = Story {
    class: 2,
    deeds: &[
        Deed::Finds(0, Decision::Begins),
        Deed::Finds(0, Decision::Recurs),
        Deed::Gets(0, Value::Int(5)),
        Deed::Finds(0, Decision::Recurs),
        Deed::Gets(1, Value::Int(0)),
    ],
    values: &[Value::Int(5), Value::Int(0)],
    trace: b"0 t0 step6 D\n1 t0 step3 D\n2 t0 get D k:I 5\n3 t0 step3 D\n4 t0 get D n:S 0\n",
    ..BEGUN
};

/// A field holds what was written last, as the field keeps it.
const WRITTEN: Story = Story {
    class: 2,
    deeds: &[
        Deed::Finds(0, Decision::Begins),
        Deed::Puts(0, Value::Int(-9)),
        Deed::Puts(1, Value::Int(32768)),
        Deed::Gets(0, Value::Int(-9)),
        Deed::Gets(1, Value::Int(-32768)),
        Deed::Puts(0, Value::Int(8)),
        Deed::Gets(0, Value::Int(8)),
        Deed::Gets(1, Value::Int(-32768)),
    ],
    values: &[Value::Int(8), Value::Int(-32768)],
    trace: b"0 t0 step6 D\n1 t0 put D k:I -9\n2 t0 put D n:S -32768\n3 t0 get D k:I -9\n4 t0 get D n:S -32768\n5 t0 put D k:I 8\n6 t0 get D k:I 8\n7 t0 get D n:S -32768\n",
    ..BEGUN
};

pub(crate) const STORIES: &[Row] = &[
    Row {
        files: FILES,
        question: Question::Record(PREPARED),
    },
    Row {
        files: FILES,
        question: Question::Record(BEGUN),
    },
    Row {
        files: FILES,
        question: Question::Record(COMPLETED),
    },
    Row {
        files: FILES,
        question: Question::Record(FAILED),
    },
    Row {
        files: FILES,
        question: Question::Record(FAILED_BY_SUPER),
    },
    Row {
        files: FILES,
        question: Question::Record(DEFAULTS),
    },
    Row {
        files: FILES,
        question: Question::Record(NARROWED),
    },
    Row {
        files: FILES,
        question: Question::Record(WITHIN_STEP_7),
    },
    Row {
        files: FILES,
        question: Question::Record(WRITTEN),
    },
    Row {
        files: FILES,
        question: Question::Blocks,
    },
];

/// The owner ends the class, where it fails by the error.
fn ends(record: &mut ClassRecord, ending: &Ending) -> bool {
    let Label::InProgress(owner) = record.label() else {
        return false;
    };
    match ending {
        Ending::Completes => record.complete(owner),
        Ending::SuperFails(_) => record.super_failed(owner, ERROR),
        Ending::Fails(_) => record.fail(owner, ERROR),
    }
    true
}

/// Thread 0 writes a static field, or reads it.
fn use_field(record: &mut ClassRecord, place: usize, value: Value, is_write: bool) -> bool {
    match record.label() {
        Label::InProgress(0) if place < record.static_fields() => {
            if is_write {
                record.write_static(0, place, value).is_ok()
            } else {
                record.read_static(0, place) == Ok(value)
            }
        }
        _ => false,
    }
}

/// Whether this can be done, and comes to what it must.
fn does(record: &mut ClassRecord, deed: &Deed) -> bool {
    match deed {
        Deed::Finds(thread, decision) => {
            *thread < THREADS && record.enter(*thread) == Ok(*decision)
        }
        Deed::Ends(ending) => ends(record, ending),
        Deed::Gets(place, value) => use_field(record, *place, *value, false),
        Deed::Puts(place, value) => use_field(record, *place, *value, true),
    }
}

fn does_all(record: &mut ClassRecord, deeds: &[Deed]) -> bool {
    for deed in deeds {
        if !does(record, deed) {
            return false;
        }
    }
    true
}

/// Whether each field holds its value. None is read.
fn holds(record: &ClassRecord, values: &[Value]) -> bool {
    for (place, value) in values.iter().enumerate() {
        if place >= record.static_fields() || record.value(place) != *value {
            return false;
        }
    }
    record.static_fields() == values.len()
}

/// Whether the record stands as it must.
fn stands(record: &ClassRecord, story: &Story) -> bool {
    record.class().number == story.class
        && record.label() == story.label
        && record.owner() == story.owner
        && record.failure() == story.failure
        && holds(record, story.values)
}

/// Whether the events of a record are those of the story.
fn is_traced(
    alloc: Global,
    program: &Program,
    record: &ClassRecord,
    story: &Story,
) -> Result<bool, AllocError> {
    let mut events = Vec::new(alloc);
    for place in 0..record.len() {
        events.push(record.event(place))?;
    }
    let text = write_trace(alloc, program, events.as_slice())?;
    Ok(text.as_slice() == story.trace)
}

/// Whether the story of a new record comes to what it must.
pub(crate) fn is_told(alloc: Global, program: &Program, story: &Story) -> bool {
    if story.class >= CLASS_NUMBERS {
        return false;
    }
    let class = ClassId {
        number: story.class,
    };
    match ClassRecord::new(alloc, program, class) {
        Ok(mut record) => {
            does_all(&mut record, story.deeds)
                && stands(&record, story)
                && is_traced(alloc, program, &record, story) == Ok(true)
        }
        Err(_) => false,
    }
}

/// Whether thread 0 reads the first static field of a class that is initialized, and gets its constant.
fn reads_constant(record: &mut ClassRecord) -> bool {
    match record.label() {
        Label::Initialized if record.static_fields() > 0 => {
            record.read_static(0, 0) == Ok(Value::Int(5))
        }
        _ => false,
    }
}

fn reads_often(record: &mut ClassRecord, count: usize) -> bool {
    for _ in 0..count {
        if !reads_constant(record) {
            return false;
        }
    }
    true
}

/// Whether the history of the third class, after steps 6 and 10 and 1,023 reads, takes two blocks.
pub(crate) fn takes_two_blocks(alloc: Global, program: &Program) -> bool {
    let made = ClassRecord::new(alloc, program, ClassId { number: 2 });
    let Ok(mut record) = made else {
        return false;
    };
    does(&mut record, &Deed::Finds(0, Decision::Begins))
        && does(&mut record, &Deed::Ends(Ending::Completes))
        && record.history_blocks() == 1
        && reads_often(&mut record, 1_023)
        && record.len() == 1_025
        && record.history_blocks() == 2
}

/// Whether these are both ends by one throwable, or both prints of one text.
fn are_alike(one: &Kind, other: &Kind) -> bool {
    match (one, other) {
        (Kind::Fails(error), Kind::Fails(thrown)) => error == thrown,
        (Kind::Prints(text), Kind::Prints(printed)) => text.as_slice() == printed.as_slice(),
        _ => false,
    }
}

/// Whether two events, which are alike, are of one thread and one class.
fn is_like(one: &Event, other: &Event) -> Result<bool, AllocError> {
    let is_alike = are_alike(&one.kind()?, &other.kind()?);
    Ok(is_alike && one.thread() == other.thread() && one.class() == other.class())
}

/// Whether the copy of an event is like it, and so is the event that is taken apart and put together again.
fn is_kept(event: Event) -> Result<bool, AllocError> {
    let copy = event.clone()?;
    let is_copied = is_like(&copy, &event)?;
    let (word, text) = event.into_parts();
    Ok(is_copied && is_like(&Event::from_parts(word, text), &copy)?)
}

/// Whether a print of a text is kept.
fn is_print_kept(alloc: Global) -> Result<bool, AllocError> {
    let text = Text::copied(alloc, b"2\n")?;
    let printed = Event::print(alloc, 2, text)?;
    let is_shown = printed.text() == Some(b"2\n".as_slice());
    Ok(is_shown && is_kept(printed)?)
}

#[test]
fn events_are_kept(rt: HostRuntime) {
    assert!(rt; is_print_kept(rt.alloc()) == Ok(true));
    assert!(rt; is_kept(Event::new(1, ClassId { number: 0 }, Kind::Fails(ERROR))) == Ok(true));
}
