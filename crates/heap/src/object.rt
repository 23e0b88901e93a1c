//! What the heap holds.

ghost use Rattle.std.specs.Prelude.{◌≡◌, Some};
ghost use Rattle.heap.specs.Contents.{cell_in, element_in, has_cell, has_element, length_in, type_in, with_cell, with_element};

use crate::cells::Cells;
use crate::types::kept_by;
use code::ResolvedType;
use hierarchy::{ClassId, Value};

/// An object or an array that was made while the program runs.
#[derive(Drop)]
pub enum HeapObject {
    /// An object: its class, and its instance fields cell by cell, none where one was never written and holds its default.
    Instance(ClassId, Cells<Option<Value>>),
    /// An array: the type of its elements, and these.
    Array(ResolvedType, Cells<Value>),
}

impl HeapObject {
    /// What a cell of an object holds.
    pub(crate) fn cell(&self, cell: usize) -> Option<Option<Value>>
        ensures { result ≡ cell_in (Some self.now) cell }
    {
        match self {
            HeapObject::Instance(_, fields) => fields.get(cell),
            HeapObject::Array(_, _) => None,
        }
    }

    /// Writes a cell of an object. Answers whether there is one.
    pub(crate) fn put_cell(&mut self, cell: usize, value: Value) -> bool
        ensures found { result ≡ has_cell self.old cell }
        ensures written { self.new ≡ with_cell self.old cell value }
    {
        match self {
            HeapObject::Instance(_, fields) => fields.put(cell, Some(value)),
            HeapObject::Array(_, _) => false,
        }
    }

    /// The type of an array's elements.
    pub(crate) fn element_type(&self) -> Option<ResolvedType>
        ensures { result ≡ type_in (Some self.now) }
    {
        match self {
            HeapObject::Instance(_, _) => None,
            HeapObject::Array(element, _) => Some(*element),
        }
    }

    /// How many elements an array has.
    pub(crate) fn length(&self) -> Option<usize>
        ensures { result ≡ length_in (Some self.now) }
    {
        match self {
            HeapObject::Instance(_, _) => None,
            HeapObject::Array(_, elements) => Some(elements.len()),
        }
    }

    /// An element of an array.
    pub(crate) fn element(&self, index: usize) -> Option<Value>
        ensures { result ≡ element_in (Some self.now) index }
    {
        match self {
            HeapObject::Instance(_, _) => None,
            HeapObject::Array(_, elements) => elements.get(index),
        }
    }

    /// Writes an element of an array, as its type keeps it. Answers whether there is one.
    pub(crate) fn put_element(&mut self, index: usize, value: Value) -> bool
        ensures found { result ≡ has_element self.old index }
        ensures written { self.new ≡ with_element self.old index value }
    {
        match self {
            HeapObject::Instance(_, _) => false,
            HeapObject::Array(element, elements) => {
                let kept = kept_by(*element, value);
                elements.put(index, kept)
            }
        }
    }
}
