//! The heap: what references refer to while a program runs (JVMS SE 8 2.5.3), and who holds which monitor.
//!
//! Enter by [`Heap`]. It has a million cells. Before the program runs three ready objects and each quoted text take one; an object
//! takes one and one for each of its fields, an array one and one for each element. Where there is no room for an object or array
//! none is made; what the machine throws is then its ready OutOfMemoryError.
//!
//! [`Monitors`] says which thread holds the monitor of an object or a class, and how often.
//!
//! Contracts see a heap as the list of what was made. `specs/Objects` says what is made and what references refer to, `Contents`
//! what fields and elements hold, `Instances` which types references fit, and `Monitors` who holds what.
#![tactic(auto)]

ghost use Rattle.std.specs.Prelude.{◌≡◌, [], option_copied, slice_get};
ghost use Rattle.heap.specs.Objects.{made_at as made_at_of, ready_class as ready_class_of};

mod arrays;
pub mod cells;
mod fields;
mod instances;
mod making;
pub mod monitors;
pub mod object;
mod types;

use hierarchy::{BuiltIn, ClassId, Program, ReadyObject};
pub use making::{no_class, out_of_memory};
pub use monitors::{Entry, Holder, Monitor, Monitors};
pub use object::HeapObject;
use std::alloc::Global;
use std::marker::Model;

/// What was made while a program runs, in order; after the program's ready objects and quoted texts each has the next reference.
pub struct Heap {
    made: Vec<HeapObject>,
    taken: usize,
}

impl Drop for Heap {
    fn drop(self) {
        let Self { made: _, taken: _ } = self;
    }
}

impl Model for Heap {
    ghost use Rattle.std.specs.Prelude.{◌≡◌, ◌≤◌, List};
    ghost use Rattle.heap.specs.declared.object.HeapObject.{HeapObject};
    ghost use Rattle.heap.specs.Objects.{cells_of_all};

    ghost Value = { List HeapObject };

    ghost view = { λ h. h.made.items };

    ghost invariant = { λ h. record {
      cells : h.taken ≡ cells_of_all h.made.items;
      few : h.taken ≤ 1000000;
    } };
}

/// What a ready object is of.
fn ready_class(program: &Program, object: ReadyObject) -> ClassId
    ensures { result ≡ ready_class_of program.now object }
{
    program.built_in(match object {
        ReadyObject::Out => BuiltIn::PrintStream,
        ReadyObject::OutOfMemoryError => BuiltIn::OutOfMemoryError,
        ReadyObject::NoClassDefFoundError => BuiltIn::NoClassDefFoundError,
        ReadyObject::Text => BuiltIn::String,
    })
}

fn object_in(made: &[HeapObject], place: usize) -> Option<&HeapObject>
    ensures { option_copied result ≡ slice_get made.now place }
{
    made.get(place)
}

impl Heap {
    /// The heap before the program runs. Takes no memory.
    pub fn new(alloc: Global) -> Self
        ensures { result ≡ [] }
    {
        Heap {
            made: Vec::new(alloc),
            taken: 0,
        }
    }

    /// What was made and has a reference.
    fn made_at(&self, program: &Program, reference: u32) -> Option<&HeapObject>
        ensures { option_copied result ≡ made_at_of program.now self.now reference }
    {
        let (reference, ready) = (reference as usize, program.ready_count());
        if reference < ready {
            return None;
        }
        object_in(self.made.as_slice(), reference - ready)
    }
}
