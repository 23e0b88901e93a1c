//! An order of the classes in which each comes after all that is above it, if there is one.

ghost use Rattle.std.specs.Prelude.{◌≡◌, ◌≤◌, true, false, OnOk, IfOk, length};
ghost use Rattle.hierarchy.specs.ClassLists.{Among};
ghost use Rattle.hierarchy.specs.Hierarchy.{IsInRange, IsWithin};
ghost use Rattle.hierarchy.specs.Searched.{SearchOf};
ghost use Rattle.hierarchy.specs.UpwardOrder.{Rises};

use crate::built_in::BUILT_IN_COUNT;
use crate::class::{Class, ClassId};
use crate::class_set::ClassSet;
use crate::field_order::superclass;
use crate::order::interfaces;
use crate::supertypes::first_cyclic;
use std::alloc::{AllocError, Global};

/// Notes a class after all that is above it, or says that some way up from it takes more than so many steps. No class
/// is gone over again once it is noted, so the time is that of the direct supertypes of the classes that are added.
fn note_upward(
    classes: &[Class],
    id: ClassId,
    steps: usize,
    order: &mut ClassSet,
) -> Result<bool, AllocError>
    requires few { length classes.now ≤ 1024 }
    requires rises { Rises classes.now order.old }
    ensures rises { OnOk result (Rises classes.now order.new) }
    ensures keeps { OnOk result ((d : ClassId) → Among d order.old → Among d order.new) }
    ensures there { IfOk result (λ noted. noted ≡ true → Among id order.new) }
    ensures endless { IfOk result (λ noted. noted ≡ false → IsWithin steps classes.now id → ⊥) }
{
    if order.contains(id) {
        return Ok(true);
    }
    if steps == 0 {
        return Ok(false);
    }
    for interface in interfaces(classes, id) {
        if !note_upward(classes, *interface, steps - 1, order)? {
            return Ok(false);
        }
    }
    // Only java/lang/Object has no superclass.
    let Some(superclass) = superclass(classes, id) else {
        order.add(id)?;
        return Ok(true);
    };
    if !note_upward(classes, superclass, steps - 1, order)? {
        return Ok(false);
    }
    order.add(id)?;
    Ok(true)
}

/// What a search for cycles found.
#[derive(Drop)]
pub(crate) enum SearchResult {
    /// The first class that is on a cycle, by its place.
    Cycle(usize),
    /// The classes of the files and all that is above them, each after its direct supertypes.
    Upward(Vec<ClassId>),
}

/// The first class in file order that is on a cycle; else an order in which each class comes after its direct
/// supertypes. Where no class is on a cycle, the time is that of all direct supertypes.
pub(crate) fn search(alloc: Global, classes: &[Class]) -> Result<SearchResult, AllocError>
    requires few { length classes.now ≤ 1024 }
    requires in_range { IsInRange classes.now }
    ensures { IfOk result (SearchOf classes.now) }
{
    // Where no class is on a cycle, no way up has more steps.
    let steps = classes.len() + 2 * BUILT_IN_COUNT + 2;
    let mut order = ClassSet::new(alloc);
    for number in 0..classes.len() {
        if !note_upward(classes, ClassId { number }, steps, &mut order)? {
            return Ok(SearchResult::Cycle(first_cyclic(alloc, classes)?));
        }
    }
    order.is_distinct();
    Ok(SearchResult::Upward(order.to_vec(alloc)?))
}
