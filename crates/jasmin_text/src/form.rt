//! The words that begin a line, with what they ask for.

ghost use Rattle.std.specs.Prelude.{◌≡◌};
ghost use Rattle.jasmin_text.specs.Forms.{form_at, directive_at, is_left_out};

use crate::instruction::{Call, FieldAccess, Jump, Local, Plain, TypeUse};
use crate::table::{find, stands_in};

/// What an instruction's word asks for after it.
#[derive(Clone, Copy, PartialEq, Eq)]
pub enum Form {
    /// No operand.
    Plain(Plain),
    /// No operand: it pushes this int.
    Number(i32),
    /// An int from -128 to 127, which it pushes.
    Byte,
    /// An int from -32,768 to 32,767, which it pushes.
    Short,
    /// An int or a string, which it pushes.
    Constant,
    /// The number of a local.
    Local(Local),
    /// No operand: it takes this local.
    LocalAt(Local, u16),
    /// The number of a local, and an int from -32,768 to 32,767.
    Increment,
    /// A label.
    Jump(Jump),
    /// The first key and perhaps the last; then lines of labels.
    TableSwitch,
    /// Nothing; then lines of keys and labels.
    LookupSwitch,
    /// A class, a slash and a name; a descriptor.
    Field(FieldAccess),
    /// A class, a slash, a name and a descriptor in one word.
    Call(Call),
    /// The same, and perhaps a count from 1 to 255.
    CallInterface,
    /// A class.
    New,
    /// The word of a base type.
    NewArray,
    /// A class or the descriptor of an array.
    TypeUse(TypeUse),
}

/// The words of instructions that are common in code, with what each asks for. A word is compared with one row after the other, here
/// and then in [`OTHER_FORMS`], so the commonest come first. Of several words that ask for the same, the canonical spelling has the first.
pub const COMMON_FORMS: [(&[u8], Form); 56] = [
    (b"iload_1", Form::LocalAt(Local::ILoad, 1)),
    (b"aload_0", Form::LocalAt(Local::ALoad, 0)),
    (b"iload_2", Form::LocalAt(Local::ILoad, 2)),
    (b"aload_1", Form::LocalAt(Local::ALoad, 1)),
    (b"iload", Form::Local(Local::ILoad)),
    (b"iload_0", Form::LocalAt(Local::ILoad, 0)),
    (b"aload", Form::Local(Local::ALoad)),
    (b"iload_3", Form::LocalAt(Local::ILoad, 3)),
    (b"aload_2", Form::LocalAt(Local::ALoad, 2)),
    (b"istore_1", Form::LocalAt(Local::IStore, 1)),
    (b"istore_2", Form::LocalAt(Local::IStore, 2)),
    (b"istore", Form::Local(Local::IStore)),
    (b"dup", Form::Plain(Plain::Dup)),
    (b"getfield", Form::Field(FieldAccess::GetField)),
    (b"invokevirtual", Form::Call(Call::InvokeVirtual)),
    (b"goto", Form::Jump(Jump::Goto)),
    (b"iconst_0", Form::Number(0)),
    (b"iconst_1", Form::Number(1)),
    (b"putfield", Form::Field(FieldAccess::PutField)),
    (b"getstatic", Form::Field(FieldAccess::GetStatic)),
    (b"iadd", Form::Plain(Plain::IAdd)),
    (b"bipush", Form::Byte),
    (b"ldc", Form::Constant),
    (b"invokespecial", Form::Call(Call::InvokeSpecial)),
    (b"invokestatic", Form::Call(Call::InvokeStatic)),
    (b"astore", Form::Local(Local::AStore)),
    (b"astore_1", Form::LocalAt(Local::AStore, 1)),
    (b"istore_3", Form::LocalAt(Local::IStore, 3)),
    (b"astore_2", Form::LocalAt(Local::AStore, 2)),
    (b"aload_3", Form::LocalAt(Local::ALoad, 3)),
    (b"ireturn", Form::Plain(Plain::IReturn)),
    (b"return", Form::Plain(Plain::Return)),
    (b"iinc", Form::Increment),
    (b"new", Form::New),
    (b"if_icmplt", Form::Jump(Jump::IfICmpLt)),
    (b"if_icmpge", Form::Jump(Jump::IfICmpGe)),
    (b"ifeq", Form::Jump(Jump::IfEq)),
    (b"ifne", Form::Jump(Jump::IfNe)),
    (b"isub", Form::Plain(Plain::ISub)),
    (b"putstatic", Form::Field(FieldAccess::PutStatic)),
    (b"areturn", Form::Plain(Plain::AReturn)),
    (b"pop", Form::Plain(Plain::Pop)),
    (b"iaload", Form::Plain(Plain::IALoad)),
    (b"iastore", Form::Plain(Plain::IAStore)),
    (b"sipush", Form::Short),
    (b"astore_3", Form::LocalAt(Local::AStore, 3)),
    (b"istore_0", Form::LocalAt(Local::IStore, 0)),
    (b"astore_0", Form::LocalAt(Local::AStore, 0)),
    (b"if_icmpne", Form::Jump(Jump::IfICmpNe)),
    (b"if_icmpeq", Form::Jump(Jump::IfICmpEq)),
    (b"iand", Form::Plain(Plain::IAnd)),
    (b"imul", Form::Plain(Plain::IMul)),
    (b"aaload", Form::Plain(Plain::AALoad)),
    (b"aastore", Form::Plain(Plain::AAStore)),
    (b"ifnull", Form::Jump(Jump::IfNull)),
    (b"ifnonnull", Form::Jump(Jump::IfNonNull)),
];

/// The other words that begin an instruction, with what each asks for.
pub const OTHER_FORMS: [(&[u8], Form); 56] = [
    (b"ifle", Form::Jump(Jump::IfLe)),
    (b"iflt", Form::Jump(Jump::IfLt)),
    (b"ifge", Form::Jump(Jump::IfGe)),
    (b"ifgt", Form::Jump(Jump::IfGt)),
    (b"nop", Form::Plain(Plain::Nop)),
    (b"aconst_null", Form::Plain(Plain::AConstNull)),
    (b"pop2", Form::Plain(Plain::Pop2)),
    (b"dup_x1", Form::Plain(Plain::DupX1)),
    (b"dup_x2", Form::Plain(Plain::DupX2)),
    (b"dup2", Form::Plain(Plain::Dup2)),
    (b"dup2_x1", Form::Plain(Plain::Dup2X1)),
    (b"dup2_x2", Form::Plain(Plain::Dup2X2)),
    (b"swap", Form::Plain(Plain::Swap)),
    (b"ineg", Form::Plain(Plain::INeg)),
    (b"ior", Form::Plain(Plain::IOr)),
    (b"ixor", Form::Plain(Plain::IXor)),
    (b"idiv", Form::Plain(Plain::IDiv)),
    (b"irem", Form::Plain(Plain::IRem)),
    (b"ishl", Form::Plain(Plain::IShl)),
    (b"ishr", Form::Plain(Plain::IShr)),
    (b"iushr", Form::Plain(Plain::IUshr)),
    (b"i2b", Form::Plain(Plain::I2B)),
    (b"i2c", Form::Plain(Plain::I2C)),
    (b"i2s", Form::Plain(Plain::I2S)),
    (b"arraylength", Form::Plain(Plain::ArrayLength)),
    (b"baload", Form::Plain(Plain::BALoad)),
    (b"caload", Form::Plain(Plain::CALoad)),
    (b"saload", Form::Plain(Plain::SALoad)),
    (b"bastore", Form::Plain(Plain::BAStore)),
    (b"castore", Form::Plain(Plain::CAStore)),
    (b"sastore", Form::Plain(Plain::SAStore)),
    (b"athrow", Form::Plain(Plain::AThrow)),
    (b"monitorenter", Form::Plain(Plain::MonitorEnter)),
    (b"monitorexit", Form::Plain(Plain::MonitorExit)),
    (b"int2byte", Form::Plain(Plain::I2B)),
    (b"int2char", Form::Plain(Plain::I2C)),
    (b"int2short", Form::Plain(Plain::I2S)),
    (b"iconst_m1", Form::Number(-1)),
    (b"iconst_2", Form::Number(2)),
    (b"iconst_3", Form::Number(3)),
    (b"iconst_4", Form::Number(4)),
    (b"iconst_5", Form::Number(5)),
    (b"ldc_w", Form::Constant),
    (b"if_icmpgt", Form::Jump(Jump::IfICmpGt)),
    (b"if_icmple", Form::Jump(Jump::IfICmpLe)),
    (b"if_acmpeq", Form::Jump(Jump::IfACmpEq)),
    (b"if_acmpne", Form::Jump(Jump::IfACmpNe)),
    (b"goto_w", Form::Jump(Jump::Goto)),
    (b"tableswitch", Form::TableSwitch),
    (b"lookupswitch", Form::LookupSwitch),
    (b"invokenonvirtual", Form::Call(Call::InvokeSpecial)),
    (b"invokeinterface", Form::CallInterface),
    (b"newarray", Form::NewArray),
    (b"anewarray", Form::TypeUse(TypeUse::ANewArray)),
    (b"checkcast", Form::TypeUse(TypeUse::CheckCast)),
    (b"instanceof", Form::TypeUse(TypeUse::InstanceOf)),
];

/// What the words of instructions on longs, on floats and on doubles all have after the letter `l`, `f` or `d`. All three are left out.
pub const LONG_FLOAT_DOUBLE: [&[u8]; 22] = [
    b"const_0", b"const_1", b"load", b"load_0", b"load_1", b"load_2", b"load_3", b"aload",
    b"store", b"store_0", b"store_1", b"store_2", b"store_3", b"astore", b"add", b"sub", b"mul",
    b"div", b"rem", b"neg", b"2i", b"return",
];

/// The other words of instructions that are left out.
pub const LEFT_OUT: [&[u8]; 29] = [
    b"jsr",
    b"jsr_w",
    b"ret",
    b"wide",
    b"multianewarray",
    b"invokedynamic",
    b"breakpoint",
    b"ldc2_w",
    b"fconst_2",
    b"lshl",
    b"lshr",
    b"lushr",
    b"land",
    b"lor",
    b"lxor",
    b"i2l",
    b"i2f",
    b"i2d",
    b"l2f",
    b"l2d",
    b"f2l",
    b"f2d",
    b"d2l",
    b"d2f",
    b"lcmp",
    b"fcmpl",
    b"fcmpg",
    b"dcmpl",
    b"dcmpg",
];

/// What the word asks for, if it begins an instruction.
pub fn form_of(word: &[u8]) -> Option<Form>
    ensures { result ≡ form_at word.now }
{
    match find(word, &COMMON_FORMS) {
        None => find(word, &OTHER_FORMS),
        // (a closure for `or_else` would be proved as three functions)
        common => common,
    }
}

/// Whether the word begins an instruction that is left out.
#[tactic(auto, unfolding(crate::specs::Forms::is_left_out))]
pub fn left_out(word: &[u8]) -> bool
    ensures { result ≡ is_left_out word.now }
{
    match word {
        [b'l' | b'f' | b'd', rest @ ..] if stands_in(rest, &LONG_FLOAT_DOUBLE) => true,
        _ => stands_in(word, &LEFT_OUT),
    }
}

/// What a line that begins with a dot says.
#[derive(Clone, Copy)]
pub enum Directive {
    /// `.class`
    Class,
    /// `.interface`
    Interface,
    /// `.super`
    Super,
    /// `.implements`
    Implements,
    /// `.field`
    Field,
    /// `.method`
    Method,
    /// `.end`
    End,
    /// `.limit`
    Limit,
    /// `.catch`
    Catch,
    /// A line that is skipped whole.
    Skipped,
    /// A line that is left out.
    LeftOut,
}

/// Each directive.
pub const DIRECTIVES: [(&[u8], Directive); 23] = [
    (b".class", Directive::Class),
    (b".interface", Directive::Interface),
    (b".super", Directive::Super),
    (b".implements", Directive::Implements),
    (b".field", Directive::Field),
    (b".method", Directive::Method),
    (b".end", Directive::End),
    (b".limit", Directive::Limit),
    (b".catch", Directive::Catch),
    (b".bytecode", Directive::Skipped),
    (b".source", Directive::Skipped),
    (b".signature", Directive::Skipped),
    (b".deprecated", Directive::Skipped),
    (b".debug", Directive::Skipped),
    (b".line", Directive::Skipped),
    (b".var", Directive::Skipped),
    (b".throws", Directive::Skipped),
    (b".inner", Directive::LeftOut),
    (b".enclosing", Directive::LeftOut),
    (b".annotation", Directive::LeftOut),
    (b".stack", Directive::LeftOut),
    (b".set", Directive::LeftOut),
    (b".attribute", Directive::LeftOut),
];

/// What the word says, if it is a directive.
#[tactic(auto, unfolding(crate::specs::Forms::directive_at, crate::specs::Forms::directives))]
pub fn directive_of(word: &[u8]) -> Option<Directive>
    ensures { result ≡ directive_at word.now }
{
    match word {
        [b'.', ..] => find(word, &DIRECTIVES),
        _ => None,
    }
}
