//! Field and method descriptors (JVMS SE 8 4.3.2, 4.3.3), read and written.
//!
//! A descriptor is the text by which a class file names the type of a field or of a method, as
//! `[Ljava/lang/String;` or `(I[Z)V`. [`parse_field`] and [`parse_method`] read one into a
//! [`FieldType`] or a [`MethodType`] and answer the first fault from the left where it is none;
//! [`write_field`] and [`write_method`] write the one text of a type. Text and type determine each
//! other: what was written is read back as the same type, and what was read is written as the same text.
//!
//! The types are those that the machine knows: boolean, byte, char, short, int, classes, and arrays of
//! these. Long, float and double are left out, and their letters have a fault of their own.
//!
//! To enter: `class_name` says what the name of a class is, `field` and `method` what the types are,
//! `reading` and `writing` go between them and texts, and `laws` says what holds of texts and types
//! whatever memory there is. In `specs/`, `ClassName` is the test of a name, `Spelling` the text of each
//! type, and `Reading` says where each fault is met.
//!
//! Contracts see a class name as its bytes, a method type as a `Signature`, and all other types as the
//! plain values that they are, so they compare whole types with `≡`.
#![tactic(auto)]

mod base;
mod class_name;
mod fault;
mod field;
mod laws;
mod method;
mod reading;
mod writing;

pub use base::BaseType;
pub use class_name::{ClassName, ClassNameKind, is_class_name};
pub use fault::DescriptorFault;
pub use field::{ElementType, FieldType};
pub use laws::{field_text_is_one, method_text_is_one};
pub use method::MethodType;
pub use reading::{parse_field, parse_method};
pub use writing::{write_field, write_method};
