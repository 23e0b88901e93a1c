//! Sets of classes in the order in which they were found.

ghost use Rattle.std.specs.Prelude.{◌≡◌, ◌<◌, ◌≤◌, ℕ, [], ◌++◌, true, false, IfOk, IfSome, OnOk, OnErr, length, slice_get, slice_index_or};
ghost use Rattle.std.specs.List.{list_all, IsDistinct};
ghost use Rattle.hierarchy.specs.ClassLists.{Among, is_among, add_new, add_all, same_class};
ghost use Rattle.hierarchy.specs.ClassNumbers.{classes_in};

use crate::class::ClassId;
use crate::class_list::ClassList;
use std::alloc::{AllocError, Global};
use std::marker::Model;

/// Classes in the order in which they were found, each once.
///
/// Each takes three bytes or a few more: a program keeps many long sets, and to fill new memory takes long.
#[derive(Drop)]
pub(crate) struct ClassSet {
    numbers: Vec<u16>,
    /// Whether the class of each number is there; those past the end are not.
    marks: Vec<bool>,
}

impl Model for ClassSet {
    ghost use Rattle.std.specs.Prelude.{◌≡◌, ℕ, List, false, slice_index_or};
    ghost use Rattle.std.specs.List.{IsDistinct};
    ghost use Rattle.hierarchy.specs.ClassLists.{is_among, same_class};
    ghost use Rattle.hierarchy.specs.ClassNumbers.{ids};
    ghost use Rattle.hierarchy.specs.LinkedProgram.{id};
    ghost use Rattle.hierarchy.specs.declared.class.ClassId.{ClassId};

    ghost Value = { List ClassId };

    ghost view = { λ s. ids s.numbers.items };

    ghost invariant = { λ s. record {
      once : IsDistinct same_class (ids s.numbers.items);
      marked : (n : ℕ) → slice_index_or s.marks.items n false ≡ is_among (id n) (ids s.numbers.items);
    } };
}

impl ClassSet {
    /// No class. Takes no memory.
    pub(crate) fn new(alloc: Global) -> Self
        ensures { result ≡ [] }
    {
        ClassSet {
            numbers: Vec::new(alloc),
            marks: Vec::new(alloc),
        }
    }

    /// Each class is there once.
    pub(crate) fn is_distinct(&self)
        ensures { IsDistinct same_class self.now }
    {
        let _ = &self.numbers;
    }

    /// The classes in order.
    pub(crate) fn list(&self) -> ClassList<'_>
        ensures { classes_in result ≡ self.now }
    {
        ClassList {
            numbers: self.numbers.as_slice(),
        }
    }

    /// How many classes there are.
    pub(crate) fn len(&self) -> usize
        ensures { result ≡ length self.now }
    {
        self.numbers.len()
    }

    /// Whether the class is there.
    pub(crate) fn contains(&self, id: ClassId) -> bool
        ensures { result ≡ is_among id self.now }
    {
        match self.marks.get(id.number) {
            Some(mark) => *mark,
            None => false,
        }
    }

    /// Whether each of these classes is there.
    pub(crate) fn contains_all(&self, ids: &[ClassId]) -> bool
        ensures { result ≡ list_all (λ c. is_among c self.now) ids.now }
    {
        let mut rest = ids;
        while let [id, after @ ..] = rest {
            if !self.contains(*id) {
                return false;
            }
            rest = after;
        }
        true
    }

    /// The class at that place.
    pub(crate) fn at(&self, place: usize) -> Option<ClassId>
        ensures { result ≡ slice_get self.now place }
    {
        let number = self.numbers.get(place)?;
        Some(ClassId {
            number: usize::from(*number),
        })
    }

    /// The last class.
    pub(crate) fn last(&self) -> Option<ClassId>
        ensures { IfSome result (λ last. Among last self.now) }
    {
        let before = self.len().checked_sub(1)?;
        self.at(before)
    }

    /// The classes in order, each with its number alone.
    pub(crate) fn to_vec(&self, alloc: Global) -> Result<Vec<ClassId>, AllocError>
        ensures { IfOk result (λ all. all.items ≡ self.now) }
    {
        let mut all = Vec::new(alloc);
        for id in self.list() {
            all.push(id)?;
        }
        Ok(all)
    }

    /// Adds a class at the end unless it is there already. A number above 65,535, which no class of a program has, is
    /// refused as if there were no memory for it.
    pub(crate) fn add(&mut self, id: ClassId) -> Result<(), AllocError>
        ensures added { OnOk result (self.new ≡ add_new self.old id) }
        ensures refused { OnErr result (self.new ≡ self.old) }
    {
        if self.contains(id) {
            return Ok(());
        }
        let Ok(number) = u16::try_from(id.number) else {
            return Err(AllocError);
        };
        make_room(&mut self.marks, id.number)?;
        self.numbers.push(number)?;
        self.marks[id.number] = true;
        Ok(())
    }

    /// Adds each class, in order.
    pub(crate) fn add_each(&mut self, ids: &[ClassId]) -> Result<(), AllocError>
        ensures { OnOk result (self.new ≡ add_all self.old ids.now) }
    {
        let mut rest = ids;
        while let [id, after @ ..] = rest {
            self.add(*id)?;
            rest = after;
        }
        Ok(())
    }

    /// Adds each class of a list, in order.
    fn add_list(&mut self, list: ClassList<'_>) -> Result<(), AllocError>
        ensures { OnOk result (self.new ≡ add_all self.old (classes_in list.entry)) }
    {
        for id in list {
            self.add(id)?;
        }
        Ok(())
    }

    /// Whether there is at most one class, and the other set lacks it.
    fn is_short_of(&self, other: &ClassSet) -> bool
        ensures few { result ≡ true → length self.now ≤ 1 }
        ensures apart { result ≡ true → add_all self.now other.now ≡ self.now ++ other.now }
    {
        other.is_distinct();
        match self.at(0) {
            Some(first) => self.len() < 2 && !other.contains(first),
            None => true,
        }
    }

    /// Adds each class of the other set, in order. A set with at most one class, which the other lacks, takes
    /// copies of what the other has: much faster than class by class.
    pub(crate) fn add_set(&mut self, other: &ClassSet) -> Result<(), AllocError>
        ensures { OnOk result (self.new ≡ add_all self.old other.now) }
    {
        if !self.is_short_of(other) {
            return self.add_list(other.list());
        }
        let mut marks = Vec::from_slice(*self.numbers.allocator(), other.marks.as_slice())?;
        if let Some(id) = self.at(0) {
            make_room(&mut marks, id.number)?;
            marks[id.number] = true;
        }
        // A few places more than are filled, as a few classes mostly follow.
        self.numbers.reserve(other.numbers.len().saturating_add(4))?;
        self.numbers.extend_from_slice(other.numbers.as_slice())?;
        self.marks = marks;
        Ok(())
    }
}

/// Makes marks long enough for that number; what is added is no mark.
fn make_room(marks: &mut Vec<bool>, number: usize) -> Result<(), AllocError>
    ensures room { OnOk result (number < length marks.new.items) }
    ensures same { (n : ℕ) → slice_index_or marks.new.items n false ≡ slice_index_or marks.old.items n false }
{
    if number < marks.len() {
        return Ok(());
    }
    let Some(end) = number.checked_add(1) else {
        return Err(AllocError);
    };
    marks.resize(end, false)?;
    Ok(())
}
