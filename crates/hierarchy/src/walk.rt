//! The walk up the superclasses of a class.

ghost use Rattle.std.specs.Prelude.{◌≡◌, ◌≤◌, ◌+◌, ◌*◌, length};
ghost use Rattle.hierarchy.specs.Ancestry.{superclasses};
ghost use Rattle.hierarchy.specs.declared.built_in.TheConstants.{BUILT_IN_COUNT};
ghost use Rattle.hierarchy.specs.Walking.{left};

use crate::class::ClassId;
use crate::program::Program;

/// A class, its superclass, and so on up to java/lang/Object.
#[derive(Drop)]
pub(crate) struct Superclasses<'a> {
    program: &'a Program,
    next: Option<ClassId>,
}

impl Iterator for Superclasses<'_> {
    type Item = ClassId;

    ghost use Rattle.std.specs.Iterator.{YieldsFirst, item_count};

    ghost next_gives = { YieldsFirst left };

    ghost remaining = { item_count left };

    fn next(&mut self) -> Option<ClassId> {
        let id = self.next?;
        self.program.is_linked();
        self.next = self.program.superclass(id);
        Some(id)
    }
}

impl Program {
    /// The class itself, its superclass, and so on up to java/lang/Object. Takes no memory.
    pub(crate) fn superclasses(&self, id: ClassId) -> Superclasses<'_>
        ensures classes { left result ≡ superclasses self.now.classes id }
        ensures few { length (superclasses self.now.classes id) ≤ 1026 + 2 * BUILT_IN_COUNT }
    {
        self.is_linked();
        Superclasses {
            program: self,
            next: Some(id),
        }
    }
}
