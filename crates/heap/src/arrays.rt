//! The elements of arrays.

ghost use Rattle.std.specs.Prelude.{◌≡◌, ◌<◌, ◌≤◌, IfSome};
ghost use Rattle.heap.specs.Contents.{PutsElement, PutsItem, array_length, element_at, element_type as element_type_of};
ghost use Rattle.heap.specs.Objects.{cells_of_all};

use crate::Heap;
use crate::object::HeapObject;
use code::ResolvedType;
use hierarchy::{Program, Value};

/// Writes an element of the array at a place, if there is one.
fn put_item(made: &mut Vec<HeapObject>, place: usize, index: usize, value: Value) -> bool
    ensures put { PutsItem made.old.items place index value result made.new.items }
    ensures cells { cells_of_all made.new.items ≡ cells_of_all made.old.items }
{
    if place >= made.len() {
        return false;
    }
    let object = &mut made[place];
    object.put_element(index, value)
}

impl Heap {
    /// The type of the elements of the array to which a reference refers, if it refers to one. Takes no memory.
    pub fn element_type(&self, program: &Program, reference: u32) -> Option<ResolvedType>
        ensures { result ≡ element_type_of program.now self.now reference }
    {
        self.made_at(program, reference)?.element_type()
    }

    /// No more cells are taken than the heap has.
    fn is_within(&self)
        ensures { cells_of_all self.now ≤ 1000000 }
    {
        let _taken = self.taken;
    }

    fn length_at(&self, program: &Program, reference: u32) -> Option<usize>
        ensures { result ≡ array_length program.now self.now reference }
    {
        self.made_at(program, reference)?.length()
    }

    /// How many elements the array has to which a reference refers, if it refers to one (JVMS SE 8 6.5 arraylength): fewer than the heap has
    /// cells. Takes no memory.
    pub fn length(&self, program: &Program, reference: u32) -> Option<usize>
        ensures length { result ≡ array_length program.now self.now reference }
        ensures few { IfSome result (λ length. length < 1000000) }
    {
        self.is_within();
        self.length_at(program, reference)
    }

    /// What an element of an array holds: none where the reference refers to no array with such an element (JVMS SE 8 6.5 iaload).
    /// Takes no memory.
    pub fn element(&self, program: &Program, reference: u32, index: usize) -> Option<Value>
        ensures { result ≡ element_at program.now self.now reference index }
    {
        self.made_at(program, reference)?.element(index)
    }

    /// The type of an array's elements and what one of them holds, as [`Heap::element_type`] and [`Heap::element`] give them.
    /// Takes no memory.
    pub fn typed_element(
        &self,
        program: &Program,
        reference: u32,
        index: usize,
    ) -> (Option<ResolvedType>, Option<Value>)
        ensures held { result.0 ≡ element_type_of program.now self.now reference }
        ensures element { result.1 ≡ element_at program.now self.now reference index }
    {
        match self.made_at(program, reference) {
            Some(object) => (object.element_type(), object.element(index)),
            None => (None, None),
        }
    }

    /// Writes an element of an array, which keeps an int as its type does (JVMS SE 8 6.5 iastore, bastore, castore, sastore, aastore).
    /// Answers whether the reference refers to an array with such an element; where it doesn't, nothing changes. Takes no memory.
    #[tactic(auto, using(crate::proofs::Puts::element_put, crate::proofs::Puts::element_missing))]
    pub fn put_element(
        &mut self,
        program: &Program,
        reference: u32,
        index: usize,
        value: Value,
    ) -> bool
        ensures { PutsElement program.now self.old reference index value result self.new }
    {
        let (place, ready) = (reference as usize, program.ready_count());
        if place < ready {
            return false;
        }
        put_item(&mut self.made, place - ready, index, value)
    }
}
