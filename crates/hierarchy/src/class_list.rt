//! Lists of classes that a program keeps.

ghost use Rattle.std.specs.Prelude.{◌≡◌, []};
ghost use Rattle.hierarchy.specs.ClassNumbers.{classes_in};

use crate::class::ClassId;

/// Classes that a program keeps in an order, each once: an iterator over them, which takes no memory.
#[derive(Clone, Copy)]
pub struct ClassList<'a> {
    pub(crate) numbers: &'a [u16],
}

impl Iterator for ClassList<'_> {
    type Item = ClassId;

    ghost use Rattle.std.specs.Iterator.{YieldsFirst, item_count};

    ghost next_gives = { YieldsFirst classes_in };

    ghost remaining = { item_count classes_in };

    fn next(&mut self) -> Option<ClassId> {
        match self.numbers {
            [] => None,
            [number, after @ ..] => {
                self.numbers = after;
                Some(ClassId {
                    number: usize::from(*number),
                })
            }
        }
    }
}

impl ClassList<'_> {
    /// No class.
    pub(crate) fn empty() -> Self
        ensures { classes_in result ≡ [] }
    {
        ClassList { numbers: &[] }
    }
}
