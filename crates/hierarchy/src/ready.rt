//! The objects that are there before a program runs.

ghost use Rattle.std.specs.Prelude.{◌≡◌, slice_get};
ghost use Rattle.hierarchy.specs.Objects.{objects_at_start};

use crate::program::Program;

/// An object that is there before a program runs, with the reference of its place here from 0 on; after the first
/// three each quoted text has one.
#[derive(Clone, Copy)]
pub enum ReadyObject {
    /// What java/lang/System.out holds.
    Out,
    /// The OutOfMemoryError that is thrown where the heap has no cell left (JVMS SE 8 6.3).
    OutOfMemoryError,
    /// The NoClassDefFoundError of a request for a class that failed before (JLS SE 8 12.4.2, step 5).
    NoClassDefFoundError,
    /// A quoted text, which [`Program::text_at`] gives.
    Text,
}

/// The objects that are ready, in the order of their references.
const READY: [ReadyObject; 3] = [
    ReadyObject::Out,
    ReadyObject::OutOfMemoryError,
    ReadyObject::NoClassDefFoundError,
];

fn object_in(objects: &[ReadyObject], place: usize) -> Option<ReadyObject>
    ensures { result ≡ slice_get objects.now place }
{
    objects.get(place).copied()
}

impl Program {
    /// What a reference refers to before the program runs, if it does: 0 to 2 the three ready objects, the next
    /// numbers the quoted texts in their order. Takes no memory.
    #[tactic(auto, using(crate::proofs::TextReferences::ready_first))]
    pub fn ready_object(&self, reference: u32) -> Option<ReadyObject>
        ensures { result ≡ slice_get (objects_at_start self.now) reference }
    {
        if let Some(object) = object_in(&READY, reference as usize) {
            return Some(object);
        }
        match self.text_at(reference) {
            Some(_) => Some(ReadyObject::Text),
            None => None,
        }
    }
}
