//! The types of fields, parameters and results.

use crate::base::BaseType;
use crate::class_name::ClassName;

/// What an array has in the end, or what a type without dimensions is.
#[derive(Drop)]
pub enum ElementType {
    /// A base type.
    Base(BaseType),
    /// A class or interface, as `Ljava/lang/Object;`.
    Class(ClassName),
}

/// The type of a field, a parameter or a result (JVMS SE 8 4.3.2).
pub struct FieldType {
    /// How many dimensions an array has, at most 255 (JVMS SE 8 4.3.2). A type that is no array has 0.
    pub dimensions: u8,
    /// What follows the dimensions.
    pub element: ElementType,
}

impl Drop for FieldType {
    fn drop(self) {
        let Self {
            dimensions: _,
            element: _,
        } = self;
    }
}
