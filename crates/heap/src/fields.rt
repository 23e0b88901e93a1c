//! The fields of objects.

ghost use Rattle.std.specs.Prelude.{◌≡◌};
ghost use Rattle.heap.specs.Contents.{PutsField, PutsCell, field_at};
ghost use Rattle.heap.specs.Objects.{cells_of_all};

use crate::Heap;
use crate::object::HeapObject;
use crate::types::{default_of, kept_by};
use code::ResolvedType;
use hierarchy::{Program, Value};

/// Writes a cell of the object at a place, if there is one.
fn put_cell(made: &mut Vec<HeapObject>, place: usize, cell: usize, value: Value) -> bool
    ensures put { PutsCell made.old.items place cell value result made.new.items }
    ensures cells { cells_of_all made.new.items ≡ cells_of_all made.old.items }
{
    if place >= made.len() {
        return false;
    }
    let object = &mut made[place];
    object.put_cell(cell, value)
}

impl Heap {
    /// What a field of this type holds that is in this cell of an object (`hierarchy::fields_keep_their_cells` says which it is): its default
    /// where it was never written, none where the reference refers to no object with such a cell (JVMS SE 8 6.5 getfield). Takes no
    /// memory.
    pub fn field(
        &self,
        program: &Program,
        held: ResolvedType,
        reference: u32,
        cell: usize,
    ) -> Option<Value>
        ensures { result ≡ field_at program.now self.now held reference cell }
    {
        match self.made_at(program, reference)?.cell(cell)? {
            Some(value) => Some(value),
            None => Some(default_of(held)),
        }
    }

    /// Writes a field of this type that is in this cell of an object, which keeps an int as its type does (JVMS SE 8 6.5 putfield).
    /// Answers whether the reference refers to an object with such a cell; where it doesn't, nothing changes. Takes no memory.
    #[tactic(auto, using(crate::proofs::Puts::field_put, crate::proofs::Puts::field_missing))]
    pub fn put_field(
        &mut self,
        program: &Program,
        held: ResolvedType,
        reference: u32,
        cell: usize,
        value: Value,
    ) -> bool
        ensures { PutsField program.now self.old held reference cell value result self.new }
    {
        let (place, ready) = (reference as usize, program.ready_count());
        if place < ready {
            return false;
        }
        put_cell(&mut self.made, place - ready, cell, kept_by(held, value))
    }
}
