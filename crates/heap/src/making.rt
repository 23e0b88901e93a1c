//! Making objects and arrays.

ghost use Rattle.std.specs.Prelude.{◌≡◌, ◌+◌, ◌∷◌, ◌++◌, ◌<◌, [], true, IfOk, IsTrue, OnErr, OnOk};
ghost use Rattle.hierarchy.specs.declared.built_in.BuiltIn.TheVariants.{ExceptionInInitializerError};
ghost use Rattle.heap.specs.Objects.{cells_of, has_cells as has_cells_of, is_no_class as is_no_class_of, makes_thrown, new_array as new_array_of, new_object as new_object_of, next_reference, ready_no_class, ready_out_of_memory, reference_of_new, thrown_by, with_new, with_thrown};

use crate::Heap;
use crate::cells::Cells;
use crate::object::HeapObject;
use crate::types::default_of;
use code::ResolvedType;
use frames::Thrown;
use hierarchy::{BuiltIn, ClassId, Program};
use std::alloc::AllocError;

/// The heap has so many cells.
const CELLS: usize = 1_000_000;

fn is_no_class(class: BuiltIn) -> bool
    ensures { result ≡ is_no_class_of class }
{
    match class {
        BuiltIn::NoClassDefFoundError => true,
        _ => false,
    }
}

impl Heap {
    /// Whether there is room for an object or array with so many fields or elements.
    #[tactic(auto, using(crate::proofs::Taken::made_within))]
    fn has_cells(&self, program: &Program, count: usize) -> bool
        ensures room { result ≡ has_cells_of program.now self.now (1 + count) }
        ensures reference { IsTrue result → next_reference program.now self.now < 1000000 }
    {
        let left = CELLS.saturating_sub(program.ready_count());
        count < left.saturating_sub(self.taken)
    }

    /// Adds an object or array with so many fields or elements, for which there is room, and answers its reference. An `Err`
    /// means out of memory, and changes nothing.
    fn add(
        &mut self,
        program: &Program,
        object: HeapObject,
        count: usize,
    ) -> Result<u32, AllocError>
        requires count { 1 + count ≡ cells_of object }
        requires room { has_cells_of program.now self.old (1 + count) ≡ true }
        ensures reference { IfOk result (λ r. r ≡ next_reference program.now self.old) }
        ensures made { OnOk result (self.new ≡ self.old ++ object ∷ []) }
        ensures err { OnErr result (self.new ≡ self.old) }
    {
        let reference = (program.ready_count() + self.made.len()) as u32;
        self.made.push(object)?;
        self.taken += 1 + count;
        Ok(reference)
    }

    /// A new object of a class, whose fields hold their defaults, if the heap has room for it.
    ///
    /// # Errors
    ///
    /// Out of memory, which changes nothing.
    pub fn new_object(
        &mut self,
        program: &Program,
        class: ClassId,
    ) -> Result<Option<u32>, AllocError>
        ensures reference { IfOk result (λ r. r ≡ reference_of_new program.now self.old (new_object_of program.now class)) }
        ensures made { OnOk result (self.new ≡ with_new program.now self.old (new_object_of program.now class)) }
        ensures room { OnErr result (has_cells_of program.now self.old (cells_of (new_object_of program.now class)) ≡ true) }
        ensures err { OnErr result (self.new ≡ self.old) }
    {
        let count = program.object_cells(class);
        if !self.has_cells(program, count) {
            return Ok(None);
        }
        let fields = Cells::filled(*self.made.allocator(), count, None)?;
        let reference = self.add(program, HeapObject::Instance(class, fields), count)?;
        Ok(Some(reference))
    }

    /// A new array of elements of a type, which hold its default, if the heap has room for it. The room is tested before any memory
    /// is taken, so that a length may be any number.
    ///
    /// # Errors
    ///
    /// Out of memory, which changes nothing.
    pub fn new_array(
        &mut self,
        program: &Program,
        element: ResolvedType,
        length: usize,
    ) -> Result<Option<u32>, AllocError>
        ensures reference { IfOk result (λ r. r ≡ reference_of_new program.now self.old (new_array_of element length)) }
        ensures made { OnOk result (self.new ≡ with_new program.now self.old (new_array_of element length)) }
        ensures room { OnErr result (has_cells_of program.now self.old (cells_of (new_array_of element length)) ≡ true) }
        ensures err { OnErr result (self.new ≡ self.old) }
    {
        if !self.has_cells(program, length) {
            return Ok(None);
        }
        let elements = Cells::filled(*self.made.allocator(), length, default_of(element))?;
        let reference = self.add(program, HeapObject::Array(element, elements), length)?;
        Ok(Some(reference))
    }

    /// What the machine throws for a built-in throwable: the ready NoClassDefFoundError for that class, else a new object, or the
    /// ready OutOfMemoryError where the heap is full. Where a new object is made, room for the error that step 11 of JLS SE 8 12.4.2 makes
    /// in its place is kept too.
    ///
    /// # Errors
    ///
    /// Out of memory where a new object is made, which changes nothing.
    pub fn throwable(&mut self, program: &Program, class: BuiltIn) -> Result<Thrown, AllocError>
        ensures thrown { IfOk result (λ t. t ≡ thrown_by program.now class self.old) }
        ensures made { OnOk result (self.new ≡ with_thrown program.now class self.old) }
        ensures room { OnErr result (makes_thrown program.now class self.old ≡ true) }
        ensures err { OnErr result (self.new ≡ self.old) }
    {
        self.keep_room(program, class)?;
        self.instance(program, class)
    }

    /// Takes the memory for the object that is made of a built-in throwable, and for one more. An `Err` means out of memory.
    fn keep_room(&mut self, program: &Program, class: BuiltIn) -> Result<(), AllocError>
        ensures same { self.new ≡ self.old }
        ensures room { OnErr result (makes_thrown program.now class self.old ≡ true) }
    {
        if is_no_class(class) || !self.has_cells(program, 0) {
            return Ok(());
        }
        self.made.reserve(2)?;
        Ok(())
    }

    /// A new ExceptionInInitializerError, or the ready OutOfMemoryError where the heap is full: the error that step 11 of JLS SE 8
    /// 12.4.2 makes.
    ///
    /// # Errors
    ///
    /// Out of memory where a new object is made, which changes nothing. Directly after a
    /// [`Heap::throwable`] that made an object it doesn't come; no clause says so.
    pub fn initializer_error(&mut self, program: &Program) -> Result<Thrown, AllocError>
        ensures thrown { IfOk result (λ t. t ≡ thrown_by program.now ExceptionInInitializerError self.old) }
        ensures made { OnOk result (self.new ≡ with_thrown program.now ExceptionInInitializerError self.old) }
        ensures room { OnErr result (makes_thrown program.now ExceptionInInitializerError self.old ≡ true) }
        ensures err { OnErr result (self.new ≡ self.old) }
    {
        self.instance(program, BuiltIn::ExceptionInInitializerError)
    }

    /// What the machine throws for a built-in throwable. An `Err` means out of memory where a new object is made, and changes nothing.
    fn instance(&mut self, program: &Program, class: BuiltIn) -> Result<Thrown, AllocError>
        ensures thrown { IfOk result (λ t. t ≡ thrown_by program.now class self.old) }
        ensures made { OnOk result (self.new ≡ with_thrown program.now class self.old) }
        ensures room { OnErr result (makes_thrown program.now class self.old ≡ true) }
        ensures err { OnErr result (self.new ≡ self.old) }
    {
        if is_no_class(class) {
            return Ok(no_class(program));
        }
        if !self.has_cells(program, 0) {
            return Ok(out_of_memory(program));
        }
        let fields = Cells::new(*self.made.allocator());
        let class = program.built_in(class);
        let reference = self.add(program, HeapObject::Instance(class, fields), 0)?;
        Ok(Thrown { reference, class })
    }
}

/// The ready OutOfMemoryError.
pub fn out_of_memory(program: &Program) -> Thrown
    ensures { result ≡ ready_out_of_memory program.now }
{
    Thrown {
        reference: 1,
        class: program.built_in(BuiltIn::OutOfMemoryError),
    }
}

/// The ready NoClassDefFoundError, which step 5 of JLS SE 8 12.4.2 throws.
pub fn no_class(program: &Program) -> Thrown
    ensures { result ≡ ready_no_class program.now }
{
    Thrown {
        reference: 2,
        class: program.built_in(BuiltIn::NoClassDefFoundError),
    }
}
