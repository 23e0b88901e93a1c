//! Thrown objects.

use hierarchy::ClassId;

/// A thrown object: its reference, and its class.
#[derive(Clone, Copy)]
pub struct Thrown {
    /// The reference to the object.
    pub reference: u32,
    /// Its class, a throwable.
    pub class: ClassId,
}
