//! What holds of static fields by their definitions alone.

ghost use Rattle.std.specs.Prelude.{◌≡◌, ℕ, Some, slice_get, true};
ghost use Rattle.jasmin_text.specs.declared.class_text.Field.{Field};
ghost use Rattle.hierarchy.specs.LinkedProgram.{LinkedProgram};
ghost use Rattle.hierarchy.specs.StaticFields.{is_static_field, place_among_statics};
ghost use Rattle.hierarchy.specs.OwnNames.{fields_of};
ghost use Rattle.hierarchy.specs.declared.class.ClassId.{ClassId};
ghost use Rattle.statics.specs.Statics.{static_fields};

/// The place that a resolved `getstatic` or `putstatic` names, which is the number of static fields before the one that field
/// resolution found (JVMS SE 8 5.4.3.2), is that of this field in a [`crate::Bank`].
pub fn static_fields_keep_their_places()
    ensures { (p : LinkedProgram) (c : ClassId) (place : ℕ) (f : Field) → slice_get (fields_of p c) place ≡ Some f → is_static_field f ≡ true
        → slice_get (static_fields p c) (place_among_statics p c place) ≡ Some f }
{}
