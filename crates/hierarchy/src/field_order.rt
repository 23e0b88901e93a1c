//! The classes in which a field is looked up, for each class.

ghost use Rattle.std.specs.Prelude.{◌≡◌, ◌<◌, ◌≤◌, true, IfOk, OnOk, length};
ghost use Rattle.hierarchy.specs.ClassLists.{Among, add_all, add_new, distinct};
ghost use Rattle.hierarchy.specs.FinishedLists.{AreFinished, listed};
ghost use Rattle.hierarchy.specs.Hierarchy.{IsAcyclic, IsSubtype, Reaches};
ghost use Rattle.hierarchy.specs.Ancestry.{superclass_of, superclasses, IsWholeAbove};
ghost use Rattle.hierarchy.specs.Fields.{field_order, interfaces_first};
ghost use Rattle.hierarchy.specs.Superinterfaces.{IsTable, superinterfaces as superinterfaces_of};
ghost use Rattle.hierarchy.specs.UpwardOrder.{IsUpwardOrder};

use crate::built_in::BuiltIn;
use crate::class::{Class, ClassId};
use crate::class_set::ClassSet;
use crate::finished_lists::{add_list, add_list_unless, empty_sets, is_covered, last_listed};
use crate::order::interfaces;
use std::alloc::{AllocError, Global};

/// The direct superclass, if there is one.
pub(crate) fn superclass(classes: &[Class], id: ClassId) -> Option<ClassId>
    requires { length classes.now ≤ 1024 }
    ensures { result ≡ superclass_of classes.now id }
{
    match classes.get(id.number) {
        Some(class) => Some(class.superclass),
        None => match BuiltIn::at(id.number - classes.len()) {
            Some(class) => match class.superclass() {
                Some(superclass) => Some(ClassId {
                    number: classes.len() + superclass.number(),
                }),
                None => None,
            },
            None => None,
        },
    }
}

/// Adds a class, its superclass, and so on up to java/lang/Object, each once.
fn add_superclasses(classes: &[Class], id: ClassId, found: &mut ClassSet) -> Result<(), AllocError>
    requires few { length classes.now ≤ 1024 }
    requires acyclic { IsAcyclic classes.now }
    ensures { OnOk result (found.new ≡ add_all found.old (superclasses classes.now id)) }
{
    found.add(id)?;
    match superclass(classes, id) {
        Some(superclass) => {
            add_superclasses(classes, superclass, found)?;
            Ok(())
        }
        None => Ok(()),
    }
}

/// Whether all classes in which a field of a class of the files is looked up, but itself, are seen to have been found: by the
/// nearest superinterface, in a time that doesn't grow with their number, or by the direct supertypes.
fn is_order_found(
    classes: &[Class],
    superinterfaces: &[ClassSet],
    finished: &[ClassSet],
    id: ClassId,
    found: &ClassSet,
) -> bool
    requires few { length classes.now ≤ 1024 }
    requires acyclic { IsAcyclic classes.now }
    requires of_files { id.number < length classes.now }
    requires superinterfaces { IsTable (superinterfaces_of classes.now) (length classes.now) superinterfaces.now }
    requires finished { AreFinished (λ c. distinct (field_order classes.now c)) classes.now (IsSubtype classes.now id) finished.now }
    requires whole { IsWholeAbove classes.now (interfaces_first classes.now) id found.now }
    ensures { result ≡ true → (c : ClassId) → Among c (listed finished.now id.number) → Among c (add_new found.now id) }
{
    let nearest = last_listed(superinterfaces, id.number);
    if is_covered(finished, id.number, nearest, found) {
        return true;
    }
    let Some(superclass) = superclass(classes, id) else {
        return false;
    };
    found.contains(superclass) && found.contains_all(interfaces(classes, id))
}

/// Adds the classes in which a field of a direct supertype is looked up, each once: what was found before is left
/// out.
fn add_order(
    classes: &[Class],
    superinterfaces: &[ClassSet],
    finished: &[ClassSet],
    id: ClassId,
    found: &mut ClassSet,
) -> Result<(), AllocError>
    requires few { length classes.now ≤ 1024 }
    requires acyclic { IsAcyclic classes.now }
    requires superinterfaces { IsTable (superinterfaces_of classes.now) (length classes.now) superinterfaces.now }
    requires finished { AreFinished (λ c. distinct (field_order classes.now c)) classes.now (IsSubtype classes.now id) finished.now }
    requires whole { IsWholeAbove classes.now (interfaces_first classes.now) id found.old }
    ensures { OnOk result (found.new ≡ add_all found.old (field_order classes.now id)) }
{
    if found.contains(id) {
        return Ok(());
    }
    if id.number < classes.len() {
        if found.len() < 2 {
            // So short a list is made longer by a copy, in which the class itself comes first.
            add_list(finished, id.number, found)?;
            return Ok(());
        }
        let is_there = is_order_found(classes, superinterfaces, finished, id, found);
        found.add(id)?;
        add_list_unless(is_there, finished, id.number, found)?;
        Ok(())
    } else {
        // A built-in class has no superinterfaces.
        add_superclasses(classes, id, found)?;
        Ok(())
    }
}

/// The classes in which a field of this class is looked up, each once, where the lists of those above are finished.
fn order_of(
    alloc: Global,
    classes: &[Class],
    superinterfaces: &[ClassSet],
    finished: &[ClassSet],
    id: ClassId,
) -> Result<ClassSet, AllocError>
    requires few { length classes.now ≤ 1024 }
    requires acyclic { IsAcyclic classes.now }
    requires superinterfaces { IsTable (superinterfaces_of classes.now) (length classes.now) superinterfaces.now }
    requires finished { AreFinished (λ c. distinct (field_order classes.now c)) classes.now (Reaches classes.now id) finished.now }
    ensures { IfOk result (λ found. found ≡ distinct (field_order classes.now id)) }
{
    let mut found = ClassSet::new(alloc);
    found.add(id)?;
    for interface in interfaces(classes, id) {
        add_order(classes, superinterfaces, finished, *interface, &mut found)?;
    }
    match superclass(classes, id) {
        Some(superclass) => {
            add_order(classes, superinterfaces, finished, superclass, &mut found)?;
            Ok(found)
        }
        None => Ok(found),
    }
}

/// The classes in which a field is looked up, for each class in file order, made in an order in which each class
/// comes after its direct supertypes.
pub(crate) fn field_orders(
    alloc: Global,
    classes: &[Class],
    superinterfaces: &[ClassSet],
    order: &[ClassId],
) -> Result<Vec<ClassSet>, AllocError>
    requires few { length classes.now ≤ 1024 }
    requires acyclic { IsAcyclic classes.now }
    requires superinterfaces { IsTable (superinterfaces_of classes.now) (length classes.now) superinterfaces.now }
    requires upward { IsUpwardOrder classes.now order.now }
    ensures { IfOk result (λ all. IsTable (λ c. distinct (field_order classes.now c)) (length classes.now) all.items) }
{
    let mut all = empty_sets(alloc, classes.len())?;
    for id in order {
        if id.number < classes.len() {
            let found = order_of(alloc, classes, superinterfaces, &all, *id)?;
            all[id.number] = found;
        }
    }
    Ok(all)
}
