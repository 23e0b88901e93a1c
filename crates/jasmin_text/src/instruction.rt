//! Instructions in their canonical forms (JVMS SE 8 chapter 6).
//!
//! What a file may spell in several ways is one instruction here: `iconst_1`, `bipush 1`, `sipush 1`, `ldc 1`
//! and `ldc_w 1` are one constant, `iload_0` and `iload 0` one load, `goto` and `goto_w` one jump,
//! `invokespecial` and `invokenonvirtual` one call, `i2b` and `int2byte` one conversion.

use crate::boxed::Boxed;
use crate::class_text::Constant;
use descriptors::{BaseType, ClassName, FieldType, MethodType};
use jasmin_words::name::MemberName;
use sequence::Sequence;

/// Instructions without operands.
#[derive(Clone, Copy, PartialEq, Eq)]
pub enum Plain {
    /// `nop`
    Nop,
    /// `aconst_null`
    AConstNull,
    /// `pop`
    Pop,
    /// `pop2`
    Pop2,
    /// `dup`
    Dup,
    /// `dup_x1`
    DupX1,
    /// `dup_x2`
    DupX2,
    /// `dup2`
    Dup2,
    /// `dup2_x1`
    Dup2X1,
    /// `dup2_x2`
    Dup2X2,
    /// `swap`
    Swap,
    /// `iadd`
    IAdd,
    /// `isub`
    ISub,
    /// `imul`
    IMul,
    /// `ineg`
    INeg,
    /// `iand`
    IAnd,
    /// `ior`
    IOr,
    /// `ixor`
    IXor,
    /// `idiv`
    IDiv,
    /// `irem`
    IRem,
    /// `ishl`
    IShl,
    /// `ishr`
    IShr,
    /// `iushr`
    IUshr,
    /// `i2b`
    I2B,
    /// `i2c`
    I2C,
    /// `i2s`
    I2S,
    /// `ireturn`
    IReturn,
    /// `areturn`
    AReturn,
    /// `return`
    Return,
    /// `arraylength`
    ArrayLength,
    /// `iaload`
    IALoad,
    /// `baload`
    BALoad,
    /// `caload`
    CALoad,
    /// `saload`
    SALoad,
    /// `aaload`
    AALoad,
    /// `iastore`
    IAStore,
    /// `bastore`
    BAStore,
    /// `castore`
    CAStore,
    /// `sastore`
    SAStore,
    /// `aastore`
    AAStore,
    /// `athrow`
    AThrow,
    /// `monitorenter`
    MonitorEnter,
    /// `monitorexit`
    MonitorExit,
}

/// Instructions with the number of a local.
#[derive(Clone, Copy, PartialEq, Eq)]
pub enum Local {
    /// `iload`
    ILoad,
    /// `aload`
    ALoad,
    /// `istore`
    IStore,
    /// `astore`
    AStore,
}

/// Instructions with a target.
#[derive(Clone, Copy, PartialEq, Eq)]
pub enum Jump {
    /// `ifeq`
    IfEq,
    /// `ifne`
    IfNe,
    /// `iflt`
    IfLt,
    /// `ifge`
    IfGe,
    /// `ifgt`
    IfGt,
    /// `ifle`
    IfLe,
    /// `if_icmpeq`
    IfICmpEq,
    /// `if_icmpne`
    IfICmpNe,
    /// `if_icmplt`
    IfICmpLt,
    /// `if_icmpge`
    IfICmpGe,
    /// `if_icmpgt`
    IfICmpGt,
    /// `if_icmple`
    IfICmpLe,
    /// `if_acmpeq`
    IfACmpEq,
    /// `if_acmpne`
    IfACmpNe,
    /// `ifnull`
    IfNull,
    /// `ifnonnull`
    IfNonNull,
    /// `goto`
    Goto,
}

/// Instructions on a field.
#[derive(Clone, Copy, PartialEq, Eq)]
pub enum FieldAccess {
    /// `getstatic`
    GetStatic,
    /// `putstatic`
    PutStatic,
    /// `getfield`
    GetField,
    /// `putfield`
    PutField,
}

/// Calls but `invokeinterface`.
#[derive(Clone, Copy, PartialEq, Eq)]
pub enum Call {
    /// `invokestatic`
    InvokeStatic,
    /// `invokevirtual`
    InvokeVirtual,
    /// `invokespecial`
    InvokeSpecial,
}

/// Instructions on a class or the type of an array.
#[derive(Clone, Copy, PartialEq, Eq)]
pub enum TypeUse {
    /// `anewarray`, whose operand is the type of the elements
    ANewArray,
    /// `checkcast`
    CheckCast,
    /// `instanceof`
    InstanceOf,
}

/// A class, or the type of an array.
#[derive(Drop)]
pub enum ReferenceType {
    /// A class or interface by its name.
    Class(ClassName),
    /// The type of an array: one dimension at least.
    Array(FieldType),
}

/// A field as an instruction names it (JVMS SE 8 5.4.3.2).
pub struct FieldReference {
    /// The class or interface that is named.
    pub class: ClassName,
    /// The field's name.
    pub name: MemberName,
    /// The field's type.
    pub field_type: FieldType,
}

impl Drop for FieldReference {
    fn drop(self) {
        let Self {
            class: _,
            name: _,
            field_type: _,
        } = self;
    }
}

/// A method as an instruction names it (JVMS SE 8 5.4.3.3, 5.4.3.4).
pub struct MethodReference {
    /// The class or interface that is named.
    pub class: ClassName,
    /// The method's name.
    pub name: MemberName,
    /// The method's type.
    pub method_type: MethodType,
}

impl Drop for MethodReference {
    fn drop(self) {
        let Self {
            class: _,
            name: _,
            method_type: _,
        } = self;
    }
}

/// An instruction whose targets are of type `L`: places, which are numbers of instructions, in a class text,
/// and names of labels while a method is read. Operands that are large are kept in memory of their own, so that an
/// instruction of a class text takes 24 bytes.
#[derive(Drop)]
pub enum Instruction<L> {
    /// One without operands.
    Plain(Plain),
    /// `ldc` of an int or a text.
    Constant(Constant),
    /// One with the number of a local, 0 to 65,535.
    Local(Local, u16),
    /// `iinc`: the local, and what is added.
    Increment(u16, i16),
    /// A jump and its target.
    Jump(Jump, L),
    /// `tableswitch`: the first key, the targets from there on, and the target of all other keys.
    TableSwitch(i32, Boxed<Sequence<L>>, L),
    /// `lookupswitch`: the keys with their targets, and the target of all other keys.
    LookupSwitch(Boxed<Sequence<(i32, L)>>, L),
    /// One on a field.
    Field(FieldAccess, Boxed<FieldReference>),
    /// A call but `invokeinterface`.
    Call(Call, Boxed<MethodReference>),
    /// `invokeinterface`. Its count has no effect and isn't kept.
    CallInterface(Boxed<MethodReference>),
    /// `new`
    New(Boxed<ClassName>),
    /// `newarray` of a base type.
    NewArray(BaseType),
    /// One on a class or the type of an array.
    TypeUse(TypeUse, Boxed<ReferenceType>),
}

const _: () = prove!(size_of::<Instruction<u16>>() == 24);
