//! Lists of classes, each made from the finished lists of the classes above.

ghost use Rattle.std.specs.Prelude.{◌≡◌, ◌<◌, [], true, None, IfOk, IfSome, OnOk, length};
ghost use Rattle.hierarchy.specs.ClassLists.{Among, add_all};
ghost use Rattle.hierarchy.specs.FinishedLists.{listed, IsCovered};
ghost use Rattle.hierarchy.specs.InheritedLists.{or_other};
ghost use Rattle.hierarchy.specs.Superinterfaces.{IsTable};

use crate::class::ClassId;
use crate::class_set::ClassSet;
use crate::subtype::list_at;
use std::alloc::{AllocError, Global};

/// So many sets without a class.
pub(crate) fn empty_sets(alloc: Global, count: usize) -> Result<Vec<ClassSet>, AllocError>
    ensures { IfOk result (λ all. IsTable (λ c. []) count all.items) }
{
    let mut all = Vec::new(alloc);
    for _ in 0..count {
        all.push(ClassSet::new(alloc))?;
    }
    Ok(all)
}

/// The list at that number, if it has a class.
fn filled(all: &[ClassSet], number: usize) -> Option<&ClassSet>
    ensures some { IfSome result (λ list. (list.now ≡ listed all.now number) × (0 < length list.now)) }
    ensures none { result ≡ None → listed all.now number ≡ [] }
{
    let list = list_at(all, number)?;
    if list.len() > 0 { Some(list) } else { None }
}

/// The list at that number, or that of the other table where it is empty, if it has a class.
pub(crate) fn list_or_other<'a>(
    all: &'a [ClassSet],
    others: &'a [ClassSet],
    number: usize,
) -> Option<&'a ClassSet>
    ensures some { IfSome result (λ list. (list.now ≡ or_other (listed others.now number) (listed all.now number)) × (0 < length list.now)) }
    ensures none { result ≡ None → or_other (listed others.now number) (listed all.now number) ≡ [] }
{
    match filled(all, number) {
        Some(list) => Some(list),
        None => filled(others, number),
    }
}

/// The last class of the list at that number.
pub(crate) fn last_listed(all: &[ClassSet], number: usize) -> Option<ClassId>
    ensures { IfSome result (λ last. Among last (listed all.now number)) }
{
    match list_at(all, number) {
        Some(list) => list.last(),
        None => None,
    }
}

/// Adds the list at that number, each class once.
pub(crate) fn add_list(
    all: &[ClassSet],
    number: usize,
    found: &mut ClassSet,
) -> Result<(), AllocError>
    ensures { OnOk result (found.new ≡ add_all found.old (listed all.now number)) }
{
    match list_at(all, number) {
        Some(list) => {
            found.add_set(list)?;
            Ok(())
        }
        None => Ok(()),
    }
}

/// Whether the nearest class was found and its list is shorter by one than the list at that number.
pub(crate) fn is_covered(
    all: &[ClassSet],
    number: usize,
    nearest: Option<ClassId>,
    found: &ClassSet,
) -> bool
    ensures { result ≡ true → IsCovered all.now (listed all.now number) nearest found.now }
{
    let Some(class) = nearest else {
        return false;
    };
    let Some(list) = list_at(all, number) else {
        return false;
    };
    let Some(above) = list_at(all, class.number) else {
        return false;
    };
    found.contains(class) && list.len() > 0 && above.len() == list.len() - 1
}

/// Adds the list at that number, each class once; where all of it is there, nothing is to be done.
pub(crate) fn add_list_unless(
    is_there: bool,
    all: &[ClassSet],
    number: usize,
    found: &mut ClassSet,
) -> Result<(), AllocError>
    requires there { is_there ≡ true → (c : ClassId) → Among c (listed all.now number) → Among c found.old }
    ensures { OnOk result (found.new ≡ add_all found.old (listed all.now number)) }
{
    if is_there {
        return Ok(());
    }
    add_list(all, number, found)?;
    Ok(())
}
