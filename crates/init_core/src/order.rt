//! What the initialization of a class needs first.
//!
//! [`needs`] answers the classes whose procedure is done before a class's own initializer runs: its superclass, then, in
//! edition 8, all its superinterfaces that declare a non-abstract, non-static method, each once (JVMS SE 8 5.5
//! step 7, JLS SE 8 12.4.2 step 7). In edition 7 it is the superclass alone (JVMS SE 7 5.5 step 7, JLS SE 7 12.4.2 step 7).
//! [`superinterfaces_come_first`] says how superinterfaces are enumerated.
//!
//! A program keeps for each class its superinterfaces in the order of their enumeration, each once, so
//! [`needs`] goes over them once.

ghost use Rattle.std.specs.Prelude.{◌≡◌, ◌++◌, ◌∷◌, [], OnOk, IfOk, filter};
ghost use Rattle.std.specs.List.{flat_map};
ghost use Rattle.hierarchy.specs.ClassLists.{add_all};
ghost use Rattle.hierarchy.specs.ClassNumbers.{classes_in};
ghost use Rattle.hierarchy.specs.Hierarchy.{interfaces_of};
ghost use Rattle.hierarchy.specs.Superinterfaces.{enumeration};
ghost use Rattle.init_core.specs.Needs.{needs as needs_of, is_in_file, declares_default, interfaces_first, needs_of_class as class_needs};
ghost use Rattle.jasmin_text.specs.declared.class_text.ClassKind.TheVariants as kind;

use hierarchy::{ClassId, ClassList, Edition, Program};
use indexmap::IndexSet;
use jasmin_text::ClassKind;
use std::alloc::{AllocError, Global};

fn has_default(program: &Program, id: ClassId) -> bool
    ensures { result ≡ declares_default program.now id }
{
    match program.class(id) {
        Some(class) => class.declares_default,
        None => false,
    }
}

/// Adds each of these classes that declares a non-abstract, non-static method, unless it is there already.
fn add_defaults(
    program: &Program,
    ids: ClassList<'_>,
    found: &mut IndexSet<ClassId>,
) -> Result<(), AllocError>
    ensures { OnOk result (found.new.keys ≡ add_all found.old.keys (filter (declares_default program.now) (classes_in ids.entry))) }
{
    for id in ids {
        if has_default(program, id) {
            found.insert(id)?;
        }
    }
    Ok(())
}

/// Adds the superclass of a class, if it is in a file, unless it is there already.
fn add_superclass(
    program: &Program,
    superclass: ClassId,
    found: &mut IndexSet<ClassId>,
) -> Result<(), AllocError>
    ensures { OnOk result (found.new.keys ≡ add_all found.old.keys (filter (is_in_file program.now) (superclass ∷ []))) }
{
    if superclass.number < program.len() {
        found.insert(superclass)?;
    }
    Ok(())
}

/// Adds the superinterfaces of a class that come first in the program's edition, unless they are there already: in edition 7
/// none (JVMS SE 7 5.5 step 7).
fn add_interfaces(
    program: &Program,
    id: ClassId,
    found: &mut IndexSet<ClassId>,
) -> Result<(), AllocError>
    ensures { OnOk result (found.new.keys ≡ add_all found.old.keys (interfaces_first program.now.edition program.now (interfaces_of program.now.classes id))) }
{
    match program.edition() {
        Edition::Seven => Ok(()),
        Edition::Eight => add_defaults(program, program.superinterfaces(id), found),
    }
}

/// What a class with this superclass needs; the classes are gathered in the set, which is empty before.
fn gather_needs(
    alloc: Global,
    program: &Program,
    id: ClassId,
    superclass: ClassId,
    found: &mut IndexSet<ClassId>,
) -> Result<Vec<ClassId>, AllocError>
    requires { found.old.keys ≡ [] }
    ensures { IfOk result (λ needed. needed.items ≡ class_needs program.now superclass (interfaces_of program.now.classes id)) }
{
    add_superclass(program, superclass, found)?;
    add_interfaces(program, id, found)?;
    Vec::from_slice(alloc, found.as_slice())
}

/// What a class with this superclass needs.
fn needs_of_class(
    alloc: Global,
    program: &Program,
    id: ClassId,
    superclass: ClassId,
) -> Result<Vec<ClassId>, AllocError>
    ensures { IfOk result (λ found. found.items ≡ class_needs program.now superclass (interfaces_of program.now.classes id)) }
{
    let mut found = IndexSet::new(alloc);
    gather_needs(alloc, program, id, superclass, &mut found)
}

/// The classes whose procedure is done before the initializer of a class runs, in order: none for an
/// interface; for a class its superclass, if that is in a file, and then, in edition 8, the enumeration of its
/// superinterfaces, of those that declare a non-abstract, non-static method; of repeats the first is kept.
#[tactic(auto, using(crate::proofs::NeedsByKind::needs_rules))]
pub fn needs(alloc: Global, program: &Program, id: ClassId) -> Result<Vec<ClassId>, AllocError>
    ensures { IfOk result (λ found. found.items ≡ needs_of program.now id) }
{
    match program.class(id) {
        None => Ok(Vec::new(alloc)),
        Some(class) => match class.kind {
            ClassKind::Interface => Ok(Vec::new(alloc)),
            ClassKind::Class => needs_of_class(alloc, program, id, class.superclass),
        },
    }
}

/// How superinterfaces are enumerated: for each interface the enumeration of each of its direct superinterfaces
/// in order, and then the interface itself (JVMS SE 8 5.5 step 7: "recurses on I's superinterfaces before
/// returning I").
pub fn superinterfaces_come_first(program: &Program, id: ClassId)
    ensures { enumeration program.now.classes id ≡ flat_map (enumeration program.now.classes) (interfaces_of program.now.classes id) ++ id ∷ [] }
{
    program.is_linked();
}
