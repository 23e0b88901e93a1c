//! The cells of objects.

ghost use Rattle.std.specs.Prelude.{◌≡◌, ◌≤◌, filter, length};
ghost use Rattle.hierarchy.specs.Objects.{is_instance_field, object_fields};

use crate::class::ClassId;
use crate::program::Program;
use jasmin_text::Field;

/// How many of these fields are instance fields. Takes no memory.
pub fn instance_count(fields: &[Field]) -> usize
    ensures count { result ≡ length (filter is_instance_field fields.now) }
    ensures within { result ≤ length fields.now }
{
    let mut count = 0;
    let mut rest = fields;
    while let [field, after @ ..] = rest {
        if !field.access.is_static {
            count += 1;
        }
        rest = after;
    }
    count
}

impl Program {
    /// How many cells an object of a class has: one for each instance field that the class or a superclass declares
    /// (JLS SE 8 12.5), hidden ones included. Takes no memory.
    pub fn object_cells(&self, id: ClassId) -> usize
        ensures cells { result ≡ length (object_fields self.now id) }
        ensures within { result ≤ 2000000 }
    {
        self.is_linked();
        self.kept_cells(id)
    }
}
