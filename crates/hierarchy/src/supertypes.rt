//! The supertypes of a class, and the first class that is its own.

ghost use Rattle.std.specs.Prelude.{◌≡◌, ◌≤◌, OnOk, IfOk, length};
ghost use Rattle.hierarchy.specs.ClassLists.{add_all};
ghost use Rattle.hierarchy.specs.Hierarchy.{IsAcyclic, IsInRange, AreSupertypes, IsFirstCyclic, supers};

use crate::built_in::{BUILT_IN_COUNT, BuiltIn};
use crate::class::{Class, ClassId};
use crate::class_set::ClassSet;
use std::alloc::{AllocError, Global};

/// Adds the direct supertypes of a class.
fn add_supers(classes: &[Class], id: ClassId, found: &mut ClassSet) -> Result<(), AllocError>
    requires { length classes.now ≤ 1024 }
    ensures { OnOk result (found.new ≡ add_all found.old (supers classes.now id)) }
{
    match classes.get(id.number) {
        Some(class) => {
            found.add(class.superclass)?;
            found.add_each(class.interfaces.as_slice())?;
            Ok(())
        }
        None => match BuiltIn::at(id.number - classes.len()) {
            Some(class) => match class.superclass() {
                Some(superclass) => {
                    found.add(ClassId {
                        number: classes.len() + superclass.number(),
                    })?;
                    Ok(())
                }
                None => Ok(()),
            },
            None => Ok(()),
        },
    }
}

/// All supertypes of a class.
fn supertypes(alloc: Global, classes: &[Class], id: ClassId) -> Result<ClassSet, AllocError>
    requires few { length classes.now ≤ 1024 }
    requires in_range { IsInRange classes.now }
    ensures { IfOk result (λ found. AreSupertypes classes.now id found) }
{
    let mut found = ClassSet::new(alloc);
    add_supers(classes, id, &mut found)?;
    for place in 0..classes.len() + BUILT_IN_COUNT {
        let Some(next) = found.at(place) else {
            break;
        };
        add_supers(classes, next, &mut found)?;
    }
    // No two are equal, so there are at most as many as classes, and none is left.
    found.is_distinct();
    Ok(found)
}

/// The first class in file order that is on a cycle, where some class is. The time is that of the direct
/// supertypes of all classes above each class.
pub(crate) fn first_cyclic(alloc: Global, classes: &[Class]) -> Result<usize, AllocError>
    requires few { length classes.now ≤ 1024 }
    requires in_range { IsInRange classes.now }
    requires cyclic { IsAcyclic classes.now → ⊥ }
    ensures { IfOk result (IsFirstCyclic classes.now) }
{
    for number in 0..classes.len() {
        let id = ClassId { number };
        let found = supertypes(alloc, classes, id)?;
        if found.contains(id) {
            return Ok(number);
        }
    }
    unreachable!()
}
