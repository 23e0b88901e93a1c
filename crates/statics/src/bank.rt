//! What the static fields of a class hold.

ghost use Rattle.std.specs.Prelude.{◌≡◌, ◌<◌, Some, IfOk, length, map, filter, set, slice_get};
ghost use Rattle.statics.specs.Statics.{statics_of, static_field as static_field_of, default_of, with_constants};
ghost use Rattle.hierarchy.specs.StaticFields.{is_static_field};

use crate::static_field::{StaticField, static_field};
use hierarchy::{ClassId, Program, Value};
use jasmin_text::Field;
use std::alloc::{AllocError, Global};
use std::marker::Model;

/// The static fields of a class in file order, with what each holds.
///
/// A field is found by its place among the class's static fields, from 0.
pub struct Bank {
    fields: Vec<StaticField>,
    values: Vec<Value>,
}

impl Drop for Bank {
    fn drop(self) {
        let Self {
            fields: _,
            values: _,
        } = self;
    }
}

impl Model for Bank {
    ghost use Rattle.std.specs.Prelude.{◌≡◌, length};
    ghost use Rattle.statics.specs.BankState.{BankState};

    ghost Value = { BankState };

    ghost view = { λ b. record { fields = b.fields.items; values = b.values.items } };

    ghost invariant = { λ b. length b.fields.items ≡ length b.values.items };
}

/// What is known of the static ones of these fields, in order.
fn static_fields(
    alloc: Global,
    program: &Program,
    fields: &[Field],
) -> Result<Vec<StaticField>, AllocError>
    ensures { IfOk result (λ made. made.items ≡ map (static_field_of program.now) (filter is_static_field fields.now)) }
{
    let mut made = Vec::new(alloc);
    let mut rest = fields;
    while let [field, after @ ..] = rest {
        if field.access.is_static {
            made.push(static_field(program, field))?;
        }
        rest = after;
    }
    Ok(made)
}

/// The defaults of these fields, in order.
fn default_values(alloc: Global, fields: &[StaticField]) -> Result<Vec<Value>, AllocError>
    ensures { IfOk result (λ made. made.items ≡ map default_of fields.now) }
{
    let mut made = Vec::new(alloc);
    let mut rest = fields;
    while let [field, after @ ..] = rest {
        made.push(field.default_value())?;
        rest = after;
    }
    Ok(made)
}

/// Has each of these fields that has a constant hold it.
fn give_constants(fields: &[StaticField], values: &mut [Value])
    requires { length fields.now ≡ length values.old }
    ensures { values.new ≡ with_constants fields.now values.old }
{
    for place in 0..values.len() {
        let field = fields[place];
        let value = values[place];
        values[place] = field.with_constant(value);
    }
}

impl Bank {
    /// The static fields of a class with their defaults (JVMS SE 8 5.4.2): none of a class that isn't one of the
    /// files'.
    ///
    /// An `Err` means out of memory.
    pub fn prepared(alloc: Global, program: &Program, class: ClassId) -> Result<Self, AllocError>
        ensures fields { IfOk result (λ bank. bank.fields ≡ statics_of program.now class) }
        ensures values { IfOk result (λ bank. bank.values ≡ map default_of (statics_of program.now class)) }
    {
        let fields = match program.class(class) {
            Some(class) => static_fields(alloc, program, class.fields.as_slice())?,
            None => Vec::new(alloc),
        };
        let values = default_values(alloc, &fields)?;
        Ok(Bank { fields, values })
    }

    /// How many static fields the class has.
    pub fn len(&self) -> usize
        ensures fields { result ≡ length self.now.fields }
        ensures values { result ≡ length self.now.values }
    {
        self.values.len()
    }

    /// What is known of a field before the program runs.
    pub fn field(&self, place: usize) -> StaticField
        requires { place < length self.now.fields }
        ensures { Some result ≡ slice_get self.now.fields place }
    {
        self.fields[place]
    }

    /// Gives each field that has a constant its constant: part of step 6 of JLS SE 8 12.4.2. Takes no memory.
    pub fn constants(&mut self)
        ensures fields { self.new.fields ≡ self.old.fields }
        ensures values { self.new.values ≡ with_constants self.old.fields self.old.values }
    {
        give_constants(&self.fields, &mut self.values);
    }

    /// What a field holds. Takes no memory.
    pub fn get(&self, place: usize) -> Value
        requires { place < length self.now.fields }
        ensures { Some result ≡ slice_get self.now.values place }
    {
        self.values[place]
    }

    /// Has a field hold a value as it is handed in: the caller narrows it ([`crate::narrowed`]). Takes no memory.
    pub fn put(&mut self, place: usize, value: Value)
        requires { place < length self.old.fields }
        ensures fields { self.new.fields ≡ self.old.fields }
        ensures values { self.new.values ≡ set self.old.values place value }
    {
        let held = &mut self.values;
        held[place] = value;
    }
}
