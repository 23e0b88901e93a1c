//! Times of linking a member, methods of one name, a superinterface's name, and a rung of a ladder of diamonds, beside the same of
//! smaller programs.

use crate::bench::files::Files;
use crate::bench::harness::{Failure, Row, Watch};
use crate::bench::needs;
use crate::bench::sample::Sample;
use hierarchy::{ClassId, Invoke, Program};
use std::alloc::Global;
use std::rt::Clock;

// How often each method is resolved in a time.
const LOOK_UPS: usize = 16;

/// What a program has many of.
pub(crate) enum Shape {
    /// Members: so many classes with as many members each, each below the one before it.
    Members,
    /// Names of superinterfaces: so many interfaces, each below those before it, of which it names the last 255 at most.
    Interfaces,
    /// Rungs of a ladder of diamonds.
    Ladder,
    /// Methods of one class.
    OwnNames,
    /// Methods of one class, which all have one name.
    OneName,
}

/// Larger programs beside smaller ones, and methods of one name beside names of their own.
pub(crate) const ROWS: &[Row] = &[
    Row {
        what: "classes with as many members each, a member linked, beside 128",
        sample: Sample::Link(Shape::Members),
        sizes: &[256, 512, 1024],
        most: 1,
        unit: Sample::Link(Shape::Members),
        unit_size: Some(128),
        repeats: 2,
    },
    Row {
        what: "methods of one name, one linked, beside names of their own",
        sample: Sample::Link(Shape::OneName),
        sizes: &[1024],
        most: 1,
        unit: Sample::Link(Shape::OwnNames),
        unit_size: None,
        repeats: 2,
    },
    Row {
        what: "methods of one name, one resolved, beside names of their own",
        sample: Sample::Resolve(Shape::OneName),
        sizes: &[1024],
        most: 1,
        unit: Sample::Resolve(Shape::OwnNames),
        unit_size: None,
        repeats: 2,
    },
    Row {
        what: "interfaces, a superinterface's name linked, beside 128",
        sample: Sample::Link(Shape::Interfaces),
        sizes: &[256, 512, 1024],
        most: 1,
        unit: Sample::Link(Shape::Interfaces),
        unit_size: Some(128),
        repeats: 3,
    },
    Row {
        what: "rungs of a ladder of diamonds, a rung linked, beside 64",
        sample: Sample::Link(Shape::Ladder),
        sizes: &[128, 256, 511],
        most: 1,
        unit: Sample::Link(Shape::Ladder),
        unit_size: Some(64),
        repeats: 4,
    },
];

// Adds the class of that number, with so many members: half fields, half methods.
fn add_class(files: &mut Files, number: usize, members: usize) {
    files.add(b".class C#\n", number, 0);
    if number > 0 {
        files.add(b".super C#\n", number - 1, 0);
    }
    for member in 0..members / 2 {
        files.add(
            b".field f# I\n.method abstract m#()V\n.end method\n",
            member,
            0,
        );
    }
    files.end();
}

// Adds the interface of that number, below those before it, and answers how many it names.
fn add_interface(files: &mut Files, number: usize) -> usize {
    files.add(b".interface abstract C#\n", number, 0);
    for before in number.saturating_sub(255)..number {
        files.add(b".implements C#\n", before, 0);
    }
    files.end();
    number.min(255)
}

// Adds a method of that name, whose parameters are bit by bit those of the number: an int for a 1 and a byte for a 0.
fn add_method(files: &mut Files, name: usize, number: usize) {
    files.add(b".method abstract m#(", name, 0);
    let mut left = number;
    for _ in 0..10 {
        files.add(if left % 2 == 1 { b"I" } else { b"B" }, 0, 0);
        left /= 2;
    }
    files.add(b")V\n.end method\n", 0, 0);
}

// Adds one class of so many methods without equal descriptors, and answers how many.
fn add_methods(files: &mut Files, count: usize, is_equal: bool) -> usize {
    files.add(b".class C\n", 0, 0);
    for number in 0..count {
        add_method(files, if is_equal { 0 } else { number }, number);
    }
    files.end();
    count
}

/// Adds the files of a program, and answers how many parts they have.
pub(crate) fn add_files(files: &mut Files, shape: &Shape, size: usize) -> usize {
    match shape {
        Shape::Members => {
            for number in 0..size {
                add_class(files, number, size);
            }
            size.saturating_mul(size)
        }
        Shape::Interfaces => {
            let mut names: usize = 0;
            for number in 0..size {
                names = names.saturating_add(add_interface(files, number));
            }
            names
        }
        Shape::Ladder => {
            needs::add_files(files, size);
            size
        }
        Shape::OwnNames => add_methods(files, size, false),
        Shape::OneName => add_methods(files, size, true),
    }
}

// How many of the methods of the first class are found by their names and descriptors.
fn found_methods(program: &Program) -> usize {
    let first = ClassId { number: 0 };
    let Some(class) = program.class(first) else {
        return 0;
    };
    let mut found = 0_usize;
    for method in class.methods.as_slice() {
        let name = method.name.as_slice();
        if program
            .resolve_method(Invoke::Virtual, first, name, &method.method_type)
            .is_ok()
        {
            found = found.saturating_add(1);
        }
    }
    found
}

/// How long it takes to resolve a method of the first class.
pub(crate) fn resolve_time(rt: &impl Clock, program: &Program) -> Result<u128, Failure> {
    let watch = Watch::start(rt);
    let mut found = 0_usize;
    for _ in 0..LOOK_UPS {
        found = found.saturating_add(found_methods(program));
    }
    if found == 0 {
        return Err(Failure::Program);
    }
    watch.share(rt, found)
}

/// How long it takes to link a part of a program of that size, once its files are read.
pub(crate) fn time(
    rt: &impl Clock,
    alloc: Global,
    shape: &Shape,
    size: usize,
) -> Result<u128, Failure> {
    let mut files = Files::new(alloc);
    let parts = add_files(&mut files, shape, size);
    let watch = Watch::start(rt);
    match files.program() {
        Ok(_program) => watch.share(rt, parts),
        Err(failure) => Err(failure),
    }
}
