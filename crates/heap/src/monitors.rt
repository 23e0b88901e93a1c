//! Who holds the monitors of objects and classes (JLS SE 8 17.1).

ghost use Rattle.std.specs.Prelude.{◌≡◌, IfOk, OnErr, OnOk, map, slice_get, slice_set};
ghost use Rattle.heap.specs.Monitors.{Enters, Exits, NotesHolder, held_in, holder_of, left_once, no_holders, released, with_changed, with_entry, with_holder, with_released};

use hierarchy::ClassId;
use std::alloc::{AllocError, Global};
use std::marker::Model;

/// What has a monitor.
#[derive(Clone, Copy)]
pub enum Monitor {
    /// The object or array to which a reference refers.
    Object(u32),
    /// The Class object of a class.
    Class(ClassId),
}

/// A thread that holds a monitor.
#[derive(Clone, Copy, PartialEq, Eq)]
pub struct Holder {
    /// The thread's number.
    pub thread: u8,
    /// How often it entered the monitor more than it left it, at least 1.
    pub count: u64,
}

/// What came of an attempt to enter a monitor.
#[derive(Clone, Copy, PartialEq, Eq)]
pub enum Entry {
    /// The thread holds the monitor once more.
    Entered,
    /// Another thread holds it.
    Busy,
}

/// Who holds which monitor, and how often. Contracts see that alone; beside it is kept whether a monitor became free.
pub struct Monitors {
    objects: Vec<Option<Holder>>,
    classes: Vec<Option<Holder>>,
    freed: bool,
}

impl Drop for Monitors {
    fn drop(self) {
        let Self {
            objects: _,
            classes: _,
            freed: _,
        } = self;
    }
}

impl Model for Monitors {
    ghost use Rattle.heap.specs.Monitors.{Holders};

    ghost Value = { Holders };

    ghost view = { λ m. record { objects = m.objects.items; classes = m.classes.items } };
}

/// Who holds the monitor at a place.
fn held_at(held: &[Option<Holder>], place: usize) -> Option<Holder>
    ensures { result ≡ held_in (slice_get held.now place) }
{
    *held.get(place)?
}

/// Changes who holds the monitor at a place, which nobody holds where the list ends before it. An `Err` means out of memory, and
/// changes nothing.
fn hold_at(
    held: &mut Vec<Option<Holder>>,
    place: usize,
    holder: Option<Holder>,
) -> Result<(), AllocError>
    ensures ok { OnOk result (held.new.items ≡ with_entry held.old.items place holder) }
    ensures err { OnErr result (held.new.items ≡ held.old.items) }
{
    if place < held.len() {
        held[place] = holder;
        return Ok(());
    }
    let Some(missing) = (place - held.len()).checked_add(1) else {
        return Err(AllocError);
    };
    held.reserve(missing)?;
    held.resize(place, None)?;
    held.push_reserved(holder);
    Ok(())
}

/// Changes who holds the monitor at a place, if the list has one.
fn change_at(held: &mut Vec<Option<Holder>>, place: usize, holder: Option<Holder>)
    ensures { held.new.items ≡ slice_set held.old.items place holder }
{
    if place < held.len() {
        held[place] = holder;
    }
}

/// What a thread holds that left a monitor once.
fn left(holder: Holder) -> Option<Holder>
    ensures { result ≡ left_once holder }
{
    if 1 < holder.count {
        return Some(Holder {
            thread: holder.thread,
            count: holder.count - 1,
        });
    }
    None
}

/// What is left where a thread leaves all that it holds.
fn released_by(thread: u8, holder: Option<Holder>) -> Option<Holder>
    ensures { result ≡ released thread holder }
{
    match holder {
        Some(held) if held.thread == thread => None,
        _ => holder,
    }
}

/// A thread leaves all monitors of a list that it holds.
fn release(held: &mut [Option<Holder>], thread: u8)
    ensures { held.new ≡ map (released thread) held.old }
{
    for place in 0..held.len() {
        let holder = held[place];
        held[place] = released_by(thread, holder);
    }
}

impl Monitors {
    /// The monitors before a program runs, which nobody holds. Takes no memory.
    pub fn new(alloc: Global) -> Self
        ensures { result ≡ no_holders }
    {
        Monitors {
            objects: Vec::new(alloc),
            classes: Vec::new(alloc),
            freed: false,
        }
    }

    /// Who holds a monitor. Takes no memory.
    pub fn holder(&self, monitor: Monitor) -> Option<Holder>
        ensures { result ≡ holder_of self.now monitor }
    {
        match monitor {
            Monitor::Object(reference) => held_at(&self.objects, reference as usize),
            Monitor::Class(class) => held_at(&self.classes, class.number),
        }
    }

    /// Changes who holds a monitor. An `Err` means out of memory, and changes nothing.
    fn hold(&mut self, monitor: Monitor, holder: Option<Holder>) -> Result<(), AllocError>
        ensures ok { OnOk result (self.new ≡ with_holder self.old monitor holder) }
        ensures err { OnErr result (self.new ≡ self.old) }
    {
        match monitor {
            Monitor::Object(reference) => hold_at(&mut self.objects, reference as usize, holder),
            Monitor::Class(class) => hold_at(&mut self.classes, class.number, holder),
        }
    }

    /// A thread enters a monitor that nobody holds, or once more one that it holds (JVMS SE 8 6.5 monitorenter); one that another
    /// thread holds is busy, and nothing changes.
    ///
    /// # Errors
    ///
    /// Out of memory where nobody held the monitor, or the thread entered it 2^64 - 1 times; nothing changes.
    pub fn enter(&mut self, thread: u8, monitor: Monitor) -> Result<Entry, AllocError>
        ensures entered { IfOk result (λ entry. Enters self.old thread monitor entry self.new) }
        ensures memory { OnErr result (NotesHolder self.old thread monitor) }
        ensures err { OnErr result (self.new ≡ self.old) }
    {
        match self.holder(monitor) {
            None => {
                self.hold(monitor, Some(Holder { thread, count: 1 }))?;
                Ok(Entry::Entered)
            }
            Some(holder) if holder.thread == thread => {
                let Some(count) = holder.count.checked_add(1) else {
                    return Err(AllocError);
                };
                self.change(monitor, Some(Holder { thread, count }));
                Ok(Entry::Entered)
            }
            Some(_) => Ok(Entry::Busy),
        }
    }

    /// Changes who holds a monitor that is held.
    fn change(&mut self, monitor: Monitor, holder: Option<Holder>)
        ensures { self.new ≡ with_changed self.old monitor holder }
    {
        self.freed = self.freed || holder.is_none();
        match monitor {
            Monitor::Object(reference) => {
                change_at(&mut self.objects, reference as usize, holder);
            }
            Monitor::Class(class) => change_at(&mut self.classes, class.number, holder),
        }
    }

    /// A thread leaves a monitor that it holds, once (JVMS SE 8 6.5 monitorexit). Answers whether it holds it; where it doesn't, nothing
    /// changes. Takes no memory.
    #[tactic(auto, using(crate::proofs::Held::leaves_held, crate::proofs::Held::none_held, crate::proofs::Held::other_held))]
    pub fn exit(&mut self, thread: u8, monitor: Monitor) -> bool
        ensures { Exits self.old thread monitor result self.new }
    {
        match self.holder(monitor) {
            Some(holder) if holder.thread == thread => {
                self.change(monitor, left(holder));
                true
            }
            _ => false,
        }
    }

    /// A thread leaves all monitors that it holds. Takes no memory.
    pub fn release_all(&mut self, thread: u8)
        ensures { self.new ≡ with_released self.old thread }
    {
        release(&mut self.objects, thread);
        release(&mut self.classes, thread);
        self.freed = true;
    }

    /// Whether a monitor may have become free since this was last asked, so that those who wait for one may ask again.
    /// Takes no memory.
    pub fn take_freed(&mut self) -> bool
        ensures { self.new ≡ self.old }
    {
        std::mem::replace(&mut self.freed, false)
    }
}
