//! What instructions do that lead out of their frame and make no event.

ghost use Rattle.std.specs.Prelude.{◌≡◌, ◌≢◌, ◌≤◌, ◌∷◌, [], List, Some, OnErr, OnOk, length, true};
ghost use Rattle.code.specs.IsCode.{IsCode};
ghost use Rattle.frames.specs.Activations.{Activation, can_replace, left, operands_of, place_of};
ghost use Rattle.heap.specs.Objects.{new_array, new_object};
ghost use Rattle.interpreter.specs.Memory.{LeadTakesMemory, MakesNew, TakesFrame};
ghost use Rattle.interpreter.specs.Methods.{method_at};
ghost use Rattle.interpreter.specs.Operands.{FindsOperands};
ghost use Rattle.interpreter.specs.Rows.{Calls, Does as DoesLead, EntersMonitor, ExitsMonitor, HasRoomFor, IsLeftBy, Makes, PutsElementOf, PutsFieldOf, Returns, phase_of as phase_by, taken_at};
ghost use Rattle.interpreter.specs.Taken.{last_of};
ghost use Rattle.interpreter.specs.declared.lead.Lead.TheVariants as leads;

use crate::interpreter::Interpreter;
use crate::lead::Lead;
use crate::methods::method_code;
use crate::moves::{come_back, give, jump, take};
use crate::phase::Phase;
use code::{Code, MethodCode, ResolvedType};
use frames::{Cell, FramePlace};
use heap::{Monitor, out_of_memory};
use hierarchy::{BuiltIn, ClassId, Program, Value};
use std::alloc::AllocError;

/// The phase of a body whose innermost frame was just entered: a synchronized method takes its monitor first (JVMS SE 8 2.11.10).
pub(crate) fn phase_of(code: &MethodCode, monitor: Monitor) -> Phase
    ensures { result ≡ phase_by code.now monitor }
{
    if code.synchronized {
        Phase::Locks(monitor, true)
    } else {
        Phase::Runs
    }
}

impl Interpreter {
    /// The innermost frame is left with a result, and the body is over or the frame's caller goes on.
    pub(crate) fn leave_frame(&mut self, at: FramePlace, value: Option<Cell>)
        requires at { place_of self.old.frames ≡ Some at }
        requires room { HasRoomFor (left self.old.frames) value }
        ensures { (a : Activation) (below : List Activation) → self.old.frames ≡ a ∷ below → IsLeftBy a below value self.old self.new }
    {
        self.frames.leave();
        if at.is_first {
            self.phase = Phase::Over(None);
        } else {
            come_back(&mut self.frames, value);
        }
    }

    /// The monitor that the method of the innermost frame took, if it is synchronized.
    pub(crate) fn taken_here(&self) -> Option<Monitor>
        ensures { result ≡ taken_at (length self.now.frames) (last_of self.now.taken) }
    {
        let last = self.taken.last()?;
        if last.depth < self.frames.len() {
            return None;
        }
        Some(last.monitor)
    }

    /// The innermost frame's method returns (JVMS SE 8 2.6.4, 2.11.10). An `Err` means out of memory, and changes nothing.
    #[tactic(auto, using(crate::proofs::NotDone::not_exited))]
    fn return_from(
        &mut self,
        program: &Program,
        at: FramePlace,
        value: Option<Cell>,
    ) -> Result<(), AllocError>
        requires at { place_of self.old.frames ≡ Some at }
        requires room { HasRoomFor (left self.old.frames) value }
        ensures ok { OnOk result ((a : Activation) (below : List Activation) → self.old.frames ≡ a ∷ below → Returns program.now a below value self.old self.new) }
        ensures memory { OnErr result (LeadTakesMemory program.now (leads.Returns value) self.old) }
        ensures err { OnErr result (self.new ≡ self.old) }
    {
        let Some(monitor) = self.taken_here() else {
            self.leave_frame(at, value);
            return Ok(());
        };
        if !self.monitors.exit(self.thread, monitor) {
            return self.throw_new(program, BuiltIn::IllegalMonitorStateException);
        }
        self.taken.drop_last();
        self.leave_frame(at, value);
        Ok(())
    }

    /// An array is made in the place of its length. An `Err` means out of memory, and changes nothing.
    fn make_array(
        &mut self,
        program: &Program,
        element: ResolvedType,
        length: usize,
    ) -> Result<(), AllocError>
        requires { can_replace 1 self.old.frames ≡ true }
        ensures ok { OnOk result (Makes program.now (new_array element length) 1 self.old self.new) }
        ensures memory { OnErr result (MakesNew program.now (new_array element length) self.old) }
        ensures err { OnErr result (self.new ≡ self.old) }
    {
        match self.heap.new_array(program, element, length)? {
            Some(reference) => give(&mut self.frames, 1, Cell::Reference(reference)),
            None => self.throw(program, out_of_memory(program)),
        }
        Ok(())
    }

    /// An object is made, whose fields hold their defaults. An `Err` means out of memory, and changes nothing.
    pub(crate) fn make_object(
        &mut self,
        program: &Program,
        class: ClassId,
    ) -> Result<(), AllocError>
        requires { can_replace 0 self.old.frames ≡ true }
        ensures ok { OnOk result (Makes program.now (new_object program.now class) 0 self.old self.new) }
        ensures memory { OnErr result (MakesNew program.now (new_object program.now class) self.old) }
        ensures err { OnErr result (self.new ≡ self.old) }
    {
        match self.heap.new_object(program, class)? {
            Some(reference) => give(&mut self.frames, 0, Cell::Reference(reference)),
            None => self.throw(program, out_of_memory(program)),
        }
        Ok(())
    }

    /// A field is written. An `Err` means out of memory, and changes nothing.
    #[tactic(auto, using(crate::proofs::NotDone::no_field_put))]
    fn put_field(
        &mut self,
        program: &Program,
        held: ResolvedType,
        reference: u32,
        cell: usize,
        value: Value,
    ) -> Result<(), AllocError>
        ensures ok { OnOk result (PutsFieldOf program.now held reference cell value self.old self.new) }
        ensures memory { OnErr result (LeadTakesMemory program.now (leads.PutsField held reference cell value) self.old) }
        ensures err { OnErr result (self.new ≡ self.old) }
    {
        if !self.heap.put_field(program, held, reference, cell, value) {
            return self.throw_new(program, BuiltIn::VerifyError);
        }
        take(&mut self.frames, 2);
        Ok(())
    }

    /// An element is written. An `Err` means out of memory, and changes nothing.
    #[tactic(auto, using(crate::proofs::NotDone::no_element_put))]
    fn put_element(
        &mut self,
        program: &Program,
        reference: u32,
        index: usize,
        value: Value,
    ) -> Result<(), AllocError>
        ensures ok { OnOk result (PutsElementOf program.now reference index value self.old self.new) }
        ensures memory { OnErr result (LeadTakesMemory program.now (leads.PutsElement reference index value) self.old) }
        ensures err { OnErr result (self.new ≡ self.old) }
    {
        if !self.heap.put_element(program, reference, index, value) {
            return self.throw_new(program, BuiltIn::VerifyError);
        }
        take(&mut self.frames, 3);
        Ok(())
    }

    /// A method is called with so many operands, and takes this monitor if it is synchronized (JVMS SE 8 2.6.1, 2.11.10). An `Err`
    /// means out of memory, and changes nothing.
    pub(crate) fn call(
        &mut self,
        program: &Program,
        class: usize,
        method: usize,
        callee: &MethodCode,
        count: usize,
        monitor: Monitor,
    ) -> Result<(), AllocError>
        requires callee { method_at program.now class method ≡ Some callee.now }
        requires frame { self.old.frames ≢ [] }
        requires few { count ≤ length (operands_of self.old.frames) }
        requires fits { count ≤ callee.now.locals }
        ensures ok { OnOk result (Calls program.now class method count monitor self.old self.new) }
        ensures memory { OnErr result (TakesFrame program.now self.old) }
        ensures err { OnErr result (self.new ≡ self.old) }
    {
        if self.frames.len() >= 512 {
            return self.throw_new(program, BuiltIn::StackOverflowError);
        }
        self.frames.call(class, method, callee, count)?;
        self.phase = phase_of(callee, monitor);
        Ok(())
    }

    /// A monitor is to be entered before the frame goes on.
    pub(crate) fn enter_monitor(&mut self, reference: u32)
        ensures { EntersMonitor reference self.old self.new }
    {
        take(&mut self.frames, 1);
        self.phase = Phase::Locks(Monitor::Object(reference), false);
    }

    /// A monitor is left. An `Err` means out of memory, and changes nothing.
    #[tactic(auto, using(crate::proofs::NotDone::not_exited))]
    fn exit_monitor(&mut self, program: &Program, reference: u32) -> Result<(), AllocError>
        ensures ok { OnOk result (ExitsMonitor program.now reference self.old self.new) }
        ensures memory { OnErr result (LeadTakesMemory program.now (leads.ExitsMonitor reference) self.old) }
        ensures err { OnErr result (self.new ≡ self.old) }
    {
        if !self.monitors.exit(self.thread, Monitor::Object(reference)) {
            return self.throw_new(program, BuiltIn::IllegalMonitorStateException);
        }
        take(&mut self.frames, 1);
        Ok(())
    }

    /// Does what an instruction comes to, up to its second half. An `Err` means out of memory, and changes nothing.
    pub(crate) fn perform(
        &mut self,
        program: &Program,
        resolved: &Code,
        at: FramePlace,
        lead: Lead,
    ) -> Result<(), AllocError>
        requires code { IsCode resolved.now program.now }
        requires at { place_of self.old.frames ≡ Some at }
        requires served { FindsOperands program.now self.old.frames lead }
        ensures ok { OnOk result ((a : Activation) (below : List Activation) → self.old.frames ≡ a ∷ below → DoesLead program.now a below lead self.old self.new) }
        ensures memory { OnErr result (LeadTakesMemory program.now lead self.old) }
        ensures err { OnErr result (self.new ≡ self.old) }
    {
        match lead {
            Lead::Jumps(to) => jump(&mut self.frames, to),
            Lead::Gives(count, value) => give(&mut self.frames, count, value),
            Lead::Drops(count) => take(&mut self.frames, count),
            Lead::Returns(value) => return self.return_from(program, at, value),
            Lead::Throws(class) => return self.throw_new(program, class),
            Lead::ThrowsObject(thrown) => self.throw(program, thrown),
            Lead::MakesArray(element, length) => return self.make_array(program, element, length),
            Lead::MakesObject(class) => return self.make_object(program, class),
            Lead::PutsField(held, reference, cell, value) => {
                return self.put_field(program, held, reference, cell, value);
            }
            Lead::PutsElement(reference, index, value) => {
                return self.put_element(program, reference, index, value);
            }
            Lead::Calls(class, method, count, receiver) => {
                let Some(callee) = method_code(program, resolved, class, method) else {
                    unreachable!()
                };
                let monitor = Monitor::Object(receiver);
                return self.call(program, class, method, callee, count, monitor);
            }
            Lead::EntersMonitor(reference) => self.enter_monitor(reference),
            Lead::ExitsMonitor(reference) => return self.exit_monitor(program, reference),
            Lead::Uses(_) | Lead::Prints(_) => self.phase = Phase::Half,
        }
        Ok(())
    }
}
