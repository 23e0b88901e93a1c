//! The editions of the Java Virtual Machine Specification in which classes are initialized differently.

/// The edition of JVMS whose 5.5 says what a class needs first: SE 8 its superclass and the superinterfaces that
/// declare a non-abstract, non-static method, SE 7 its superclass alone. All else is as in SE 8.
#[derive(Clone, Copy)]
pub enum Edition {
    /// JVMS SE 7.
    Seven,
    /// JVMS SE 8.
    Eight,
}
