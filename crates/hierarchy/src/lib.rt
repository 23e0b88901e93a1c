//! Linked classes.
//!
//! Enter by [`link_as`], or by [`link`] for edition 8 of JVMS: it takes the class texts of all files, in order, and
//! answers the [`Program`] that they make, or the first fault with its class (JVMS SE 8 5.3.5, 5.4). A program numbers
//! its classes in file order and the built-in ones after them; a [`ClassId`] is such a number, and everything above
//! speaks of classes by it.
//!
//! Contracts see a program as one value, the list of its linked classes and the edition. In every program each way up
//! the hierarchy ends, which [`Program::is_linked`] says. What linking found out beside the classes, as the
//! superinterfaces of each and the classes in which its fields are looked up, is kept in the program and is no part
//! of that value: so no call goes up the hierarchy by more than one way, that of the superclasses.
//!
//! Members are found by [`Program::resolve_field`] and [`Program::resolve_method`], and the method that a call
//! runs by [`Program::select_for`], or by name with [`Program::select`]; a [`FieldId`] or a [`MethodId`] names the class that declares it, and its place there.
//!
//! In `specs/`, `FirstFault` orders the passes, `Linking` and `Supertypes` say what each looks at, `Hierarchy`
//! what a supertype is, and `Superinterfaces` how superinterfaces are enumerated. `Fields`, `Methods`,
//! `MethodResolution` and `Selection` say which member is found, and [`members_are_looked_up_upward`] in which order.
#![tactic(auto)]

mod assembly;
pub mod built_in;
pub mod built_in_method;
pub mod class;
pub mod class_list;
mod class_set;
pub mod declared_method;
pub mod edition;
pub mod fault;
mod field_order;
pub mod fields;
mod finished_lists;
pub mod laws;
pub mod linking;
mod lookup;
mod member_order;
mod member_places;
pub mod methods;
mod naming;
mod object_cells;
pub mod objects;
mod order;
pub mod program;
mod quoted;
pub mod ready;
pub mod selection;
mod subtype;
mod supertype_names;
mod supertypes;
mod tables;
mod upward;
pub mod value;
mod walk;

pub use built_in::{BUILT_IN_COUNT, BuiltIn};
pub use built_in_method::{BuiltInMethod, Printed};
pub use class::{Class, ClassId};
pub use class_list::ClassList;
pub use declared_method::MethodId;
pub use edition::Edition;
pub use fault::{LinkFault, LinkFaultKind};
pub use fields::{FieldId, FieldKind, static_count};
pub use laws::{
    classes_are_found_by_name, fields_keep_their_cells, members_are_looked_up_upward,
    members_have_own_descriptors, texts_have_own_references, throwables_are_subclasses,
};
pub use linking::{link, link_as};
pub use methods::Invoke;
pub use objects::instance_count;
pub use program::Program;
pub use ready::ReadyObject;
pub use selection::Call;
pub use value::Value;
