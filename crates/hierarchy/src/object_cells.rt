//! How many cells an object of each class has.

ghost use Rattle.std.specs.Prelude.{◌≡◌, ◌≤◌, IfOk, length, option_copied, slice_get};
ghost use Rattle.std.specs.Option.{unwrap_or};
ghost use Rattle.hierarchy.specs.Hierarchy.{IsAcyclic};
ghost use Rattle.hierarchy.specs.LinkedProgram.{class_among as class_of, linked};
ghost use Rattle.hierarchy.specs.Objects.{HaveFewFields, object_fields};
ghost use Rattle.hierarchy.specs.Superinterfaces.{IsTable};
ghost use Rattle.hierarchy.specs.UpwardOrder.{IsUpwardOrder};

use crate::class::{Class, ClassId};
use crate::objects::instance_count;
use std::alloc::{AllocError, Global};

/// The class of that number, if it is one of these.
fn class_among(classes: &[Class], id: ClassId) -> Option<&Class>
    ensures { option_copied result ≡ class_of classes.now id }
{
    classes.get(id.number)
}

/// How many cells an object of a class has, where those of the files' classes are counted: none of another class, which
/// has no instance fields.
pub(crate) fn cells_among(all: &[usize], id: ClassId) -> usize
    ensures { result ≡ unwrap_or (slice_get all.now id.number) 0 }
{
    match all.get(id.number) {
        Some(cells) => *cells,
        None => 0,
    }
}

/// Of each class in file order how many cells an object of it has: those of its superclass, none of a built-in one,
/// and one for each instance field of its own. In the order each class comes after its superclass, so one pass is enough.
pub(crate) fn all_object_cells(
    alloc: Global,
    classes: &[Class],
    order: &[ClassId],
) -> Result<Vec<usize>, AllocError>
    requires few { length classes.now ≤ 1024 }
    requires fields { HaveFewFields classes.now }
    requires acyclic { IsAcyclic classes.now }
    requires upward { IsUpwardOrder classes.now order.now }
    ensures { IfOk result (λ all. IsTable (λ c. length (object_fields (linked classes.now) c)) (length classes.now) all.items) }
{
    let mut all = vec![in alloc; 0; classes.len()]?;
    for id in order {
        if let Some(class) = class_among(classes, *id) {
            let above = cells_among(&all, class.superclass);
            all[id.number] = above + instance_count(class.fields.as_slice());
        }
    }
    Ok(all)
}
