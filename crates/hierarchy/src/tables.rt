//! What a program keeps beside its classes, so that no call goes up the hierarchy by more than one way.

ghost use Rattle.std.specs.Prelude.{◌≡◌, ◌≤◌, [], IfOk, length};
ghost use Rattle.hierarchy.specs.ClassLists.{distinct};
ghost use Rattle.hierarchy.specs.Fields.{field_order};
ghost use Rattle.hierarchy.specs.Hierarchy.{IsAcyclic};
ghost use Rattle.hierarchy.specs.InheritedLists.{inherited as inherited_of};
ghost use Rattle.hierarchy.specs.Superinterfaces.{IsTable, superinterfaces as superinterfaces_of};
ghost use Rattle.hierarchy.specs.UpwardOrder.{IsUpwardOrder};
ghost use Rattle.hierarchy.specs.MemberPlaces.{HavePlaces};
ghost use Rattle.hierarchy.specs.Tables.{AreTables};
ghost use Rattle.hierarchy.specs.Objects.{HaveFewFields};
ghost use Rattle.hierarchy.specs.Quoted.{quoted_texts, cells_of};

use crate::class::{Class, ClassId};
use crate::class_set::ClassSet;
use crate::field_order::field_orders;
use crate::member_places::MemberPlaces;
use crate::object_cells::all_object_cells;
use crate::order::{all_inherited, all_superinterfaces};
use std::alloc::{AllocError, Global};
use texts::Texts;

/// What a program keeps beside its classes: of each class in file order, lists of classes, the cells of
/// an object and the places of its members; and of all classes the quoted texts.
#[derive(Drop)]
pub(crate) struct Tables {
    /// The superinterfaces that the class implements by itself, in the order of their enumeration.
    pub(crate) superinterfaces: Vec<ClassSet>,
    /// The classes in which a field is looked up, in order: the class itself and all its supertypes.
    pub(crate) field_orders: Vec<ClassSet>,
    /// All superinterfaces, direct and indirect, in the order in which methods are looked up; none where the superclass has
    /// none, since they are then those that the class implements by itself.
    pub(crate) inherited: Vec<ClassSet>,
    /// How many cells an object of the class has.
    pub(crate) object_cells: Vec<usize>,
    /// The places of the members, in the order in which they are searched.
    pub(crate) members: Vec<MemberPlaces>,
    /// The quoted texts of all classes, in order.
    pub(crate) quoted: Texts,
}

/// No table, for no class. Takes no memory.
pub(crate) fn no_tables(alloc: Global) -> Tables
    ensures { AreTables [] result }
{
    Tables {
        superinterfaces: Vec::new(alloc),
        field_orders: Vec::new(alloc),
        inherited: Vec::new(alloc),
        object_cells: Vec::new(alloc),
        members: Vec::new(alloc),
        quoted: Texts::new(alloc),
    }
}

/// Of each class in file order, classes in the orders in which they are looked through.
#[derive(Drop)]
struct Orders {
    superinterfaces: Vec<ClassSet>,
    field_orders: Vec<ClassSet>,
    inherited: Vec<ClassSet>,
}

fn orders_of(alloc: Global, classes: &[Class], order: &[ClassId]) -> Result<Orders, AllocError>
    requires few { length classes.now ≤ 1024 }
    requires acyclic { IsAcyclic classes.now }
    requires upward { IsUpwardOrder classes.now order.now }
    ensures superinterfaces { IfOk result (λ made. IsTable (superinterfaces_of classes.now) (length classes.now) made.superinterfaces.items) }
    ensures field_orders { IfOk result (λ made. IsTable (λ c. distinct (field_order classes.now c)) (length classes.now) made.field_orders.items) }
    ensures inherited { IfOk result (λ made. IsTable (inherited_of classes.now) (length classes.now) made.inherited.items) }
{
    let superinterfaces = all_superinterfaces(alloc, classes, order)?;
    let field_orders = field_orders(alloc, classes, &superinterfaces, order)?;
    let inherited = all_inherited(alloc, classes, &superinterfaces, order)?;
    Ok(Orders {
        superinterfaces,
        field_orders,
        inherited,
    })
}

/// The tables of classes whose members and quoted texts are found, from an order in which each class comes after its
/// direct supertypes.
pub(crate) fn tables_with(
    alloc: Global,
    classes: &[Class],
    order: &[ClassId],
    members: Vec<MemberPlaces>,
    quoted: Texts,
) -> Result<Tables, AllocError>
    requires few { length classes.now ≤ 1024 }
    requires acyclic { IsAcyclic classes.now }
    requires upward { IsUpwardOrder classes.now order.now }
    requires fields { HaveFewFields classes.now }
    requires members { HavePlaces classes.now members.items }
    requires quoted { quoted ≡ quoted_texts classes.now }
    requires cells { cells_of classes.now ≤ 1000000 }
    ensures { IfOk result (λ made. AreTables classes.now made) }
{
    let Orders {
        superinterfaces,
        field_orders,
        inherited,
    } = orders_of(alloc, classes, order)?;
    let object_cells = all_object_cells(alloc, classes, order)?;
    Ok(Tables {
        superinterfaces,
        field_orders,
        inherited,
        object_cells,
        members,
        quoted,
    })
}
