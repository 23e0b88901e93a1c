//! The superinterfaces of each class, in the order of their enumeration.

ghost use Rattle.std.specs.Prelude.{◌≡◌, ◌≤◌, true, IfOk, OnOk, length};
ghost use Rattle.hierarchy.specs.ClassLists.{Among, add_all};
ghost use Rattle.hierarchy.specs.FinishedLists.{AreFinished, listed};
ghost use Rattle.hierarchy.specs.Hierarchy.{IsAcyclic, IsSubtype, Reaches, interfaces_of};
ghost use Rattle.hierarchy.specs.Superinterfaces.{enumeration, superinterfaces as superinterfaces_of, IsClosed, IsTable};
ghost use Rattle.hierarchy.specs.InheritedLists.{inherited as inherited_by};
ghost use Rattle.hierarchy.specs.UpwardOrder.{IsUpwardOrder};

use crate::class::{Class, ClassId};
use crate::class_set::ClassSet;
use crate::field_order::superclass;
use crate::finished_lists::{
    add_list, add_list_unless, empty_sets, is_covered, last_listed, list_or_other,
};
use std::alloc::{AllocError, Global};

/// The direct superinterfaces, in order.
pub(crate) fn interfaces(classes: &[Class], id: ClassId) -> &[ClassId]
    ensures { result.now ≡ interfaces_of classes.now id }
{
    match classes.get(id.number) {
        Some(class) => class.interfaces.as_slice(),
        None => &[],
    }
}

/// Whether the superinterfaces of an interface are seen to have been found: by the nearest, in a time that doesn't grow with
/// their number, as long chains of interfaces want it, each listed; or by the direct ones.
fn are_found(classes: &[Class], finished: &[ClassSet], id: ClassId, found: &ClassSet) -> bool
    requires acyclic { IsAcyclic classes.now }
    requires finished { AreFinished (superinterfaces_of classes.now) classes.now (IsSubtype classes.now id) finished.now }
    requires closed { IsClosed classes.now found.now }
    ensures { result ≡ true → (c : ClassId) → Among c (listed finished.now id.number) → Among c found.now }
{
    let nearest = last_listed(finished, id.number);
    if is_covered(finished, id.number, nearest, found) {
        return true;
    }
    found.contains_all(interfaces(classes, id))
}

/// Adds the enumeration of a direct superinterface, each once: what was found before is left out.
fn add_enumeration(
    classes: &[Class],
    finished: &[ClassSet],
    id: ClassId,
    found: &mut ClassSet,
) -> Result<(), AllocError>
    requires acyclic { IsAcyclic classes.now }
    requires finished { AreFinished (superinterfaces_of classes.now) classes.now (IsSubtype classes.now id) finished.now }
    requires closed { IsClosed classes.now found.old }
    ensures found { OnOk result (found.new ≡ add_all found.old (enumeration classes.now id)) }
    ensures closed { OnOk result (IsClosed classes.now found.new) }
{
    if found.contains(id) {
        return Ok(());
    }
    let is_there = are_found(classes, finished, id, found);
    add_list_unless(is_there, finished, id.number, found)?;
    found.add(id)?;
    Ok(())
}

/// The superinterfaces that a class implements by itself, each once, where the lists of those above are finished.
fn superinterfaces(
    alloc: Global,
    classes: &[Class],
    finished: &[ClassSet],
    id: ClassId,
) -> Result<ClassSet, AllocError>
    requires acyclic { IsAcyclic classes.now }
    requires finished { AreFinished (superinterfaces_of classes.now) classes.now (Reaches classes.now id) finished.now }
    ensures { IfOk result (λ found. found ≡ superinterfaces_of classes.now id) }
{
    let mut found = ClassSet::new(alloc);
    for interface in interfaces(classes, id) {
        add_enumeration(classes, finished, *interface, &mut found)?;
    }
    Ok(found)
}

/// The superinterfaces of each class, in file order, made in an order in which each class comes after its
/// direct supertypes.
pub(crate) fn all_superinterfaces(
    alloc: Global,
    classes: &[Class],
    order: &[ClassId],
) -> Result<Vec<ClassSet>, AllocError>
    requires acyclic { IsAcyclic classes.now }
    requires upward { IsUpwardOrder classes.now order.now }
    ensures { IfOk result (λ all. IsTable (superinterfaces_of classes.now) (length classes.now) all.items) }
{
    let mut all = empty_sets(alloc, classes.len())?;
    for id in order {
        if id.number < classes.len() {
            let found = superinterfaces(alloc, classes, &all, *id)?;
            all[id.number] = found;
        }
    }
    Ok(all)
}

/// The superinterfaces of a class, direct and indirect, each once, where the list of its superclass is finished; none where
/// the superclass has none.
fn inherited(
    alloc: Global,
    classes: &[Class],
    superinterfaces: &[ClassSet],
    finished: &[ClassSet],
    id: ClassId,
) -> Result<ClassSet, AllocError>
    requires few { length classes.now ≤ 1024 }
    requires acyclic { IsAcyclic classes.now }
    requires superinterfaces { IsTable (superinterfaces_of classes.now) (length classes.now) superinterfaces.now }
    requires finished { AreFinished (inherited_by classes.now) classes.now (Reaches classes.now id) finished.now }
    ensures { IfOk result (λ found. found ≡ inherited_by classes.now id) }
{
    let mut found = ClassSet::new(alloc);
    let Some(superclass) = superclass(classes, id) else {
        return Ok(found);
    };
    match list_or_other(finished, superinterfaces, superclass.number) {
        Some(above) => {
            add_list(superinterfaces, id.number, &mut found)?;
            found.add_set(above)?;
            Ok(found)
        }
        None => Ok(found),
    }
}

/// The superinterfaces of each class, direct and indirect, in file order, none where its superclass has none, made in an
/// order in which each class comes after its direct supertypes.
pub(crate) fn all_inherited(
    alloc: Global,
    classes: &[Class],
    superinterfaces: &[ClassSet],
    order: &[ClassId],
) -> Result<Vec<ClassSet>, AllocError>
    requires few { length classes.now ≤ 1024 }
    requires acyclic { IsAcyclic classes.now }
    requires superinterfaces { IsTable (superinterfaces_of classes.now) (length classes.now) superinterfaces.now }
    requires upward { IsUpwardOrder classes.now order.now }
    ensures { IfOk result (λ all. IsTable (inherited_by classes.now) (length classes.now) all.items) }
{
    let mut all = empty_sets(alloc, classes.len())?;
    for id in order {
        if id.number < classes.len() {
            let found = inherited(alloc, classes, superinterfaces, &all, *id)?;
            all[id.number] = found;
        }
    }
    Ok(all)
}
