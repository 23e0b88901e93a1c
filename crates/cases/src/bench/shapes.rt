//! Shapes of code: parts of files that `reader` reads.

use crate::bench::reader::Part;

const FRONT: &[u8] = b".class public Shape
.super java/lang/Object
.field public static total I
.field private next LShape;
.field private count I
";

/// Methods of arithmetic and jumps on locals.
pub(crate) const ARITHMETIC: &Part = &Part {
    front: FRONT,
    text: b"
.method public static sum#(II)I
.limit stack 3
.limit locals 4
    iconst_0
    istore_2
    iload_0
    istore_3
Next:
    iload_3
    iload_1
    if_icmpge Done
    iload_2
    iload_3
    bipush 17
    imul
    sipush 1000
    irem
    iadd
    istore_2
    iinc 3 1
    goto Next
Done:
    iload_2
    ldc 65521
    iand
    ireturn
.end method
",
    back: b"",
    is_of_bytes: true,
};

/// Methods that make an object and call methods of other classes.
pub(crate) const CALLS: &Part = &Part {
    front: FRONT,
    text: b"
.method public call#(LShape;I)I
.limit stack 4
.limit locals 4
    new java/lang/Object
    dup
    invokespecial java/lang/Object/<init>()V
    astore_3
    aload_0
    aload_1
    iload_2
    iconst_1
    isub
    invokevirtual Shape/call#(LShape;I)I
    iload_2
    invokestatic tools/Numbers/larger(II)I
    aload_1
    invokeinterface tools/Sized/size()I 1
    iadd
    ireturn
.end method
",
    back: b"",
    is_of_bytes: true,
};

/// Methods that read and write fields, static ones and those of an object.
pub(crate) const FIELDS: &Part = &Part {
    front: FRONT,
    text: b"
.method public count#(LShape;)V
.limit stack 3
.limit locals 2
    aload_0
    aload_1
    putfield Shape/next LShape;
    aload_0
    dup
    getfield Shape/count I
    iconst_1
    iadd
    putfield Shape/count I
    getstatic Shape/total I
    aload_0
    getfield Shape/count I
    iadd
    putstatic Shape/total I
    return
.end method
",
    back: b"",
    is_of_bytes: true,
};

/// Methods with a switch of each kind.
pub(crate) const SWITCHES: &Part = &Part {
    front: FRONT,
    text: b"
.method public static choose#(I)I
.limit stack 1
.limit locals 1
    iload_0
    tableswitch 0 3
        Zero
        One
        Two
        One
        default : Other
Zero:
    iconst_0
    ireturn
One:
    iconst_1
    ireturn
Two:
    iconst_2
    ireturn
Other:
    iload_0
    lookupswitch
        -1 : One
        10 : Two
        1000 : Zero
        default : Last
Last:
    iconst_m1
    ireturn
.end method
",
    back: b"",
    is_of_bytes: true,
};

/// Methods that print strings.
pub(crate) const STRINGS: &Part = &Part {
    front: FRONT,
    text: b"
.method public static print#()V
.limit stack 2
.limit locals 0
    getstatic java/lang/System/out Ljava/io/PrintStream;
    ldc \"a line of some forty bytes, with number #\"
    invokevirtual java/io/PrintStream/println(Ljava/lang/String;)V
    getstatic java/lang/System/out Ljava/io/PrintStream;
    ldc \"one with\\ttwo escapes\\n\"
    invokevirtual java/io/PrintStream/print(Ljava/lang/String;)V
    return
.end method
",
    back: b"",
    is_of_bytes: true,
};

/// One long method after the other with all of these. A file of a MiB has less than 1,024 of them.
pub(crate) const MIXED: &Part = &Part {
    front: FRONT,
    text: b"
; Adds up what the shape counts, and prints it now and then.
.method public visit#(LShape;I)I
.limit stack 4
.limit locals 6
.catch java/lang/ArithmeticException from Begin to End using Handler
    iconst_0
    istore_3
    aload_1
    astore 4
Begin:
    aload 4
    ifnull End
    iload_3
    aload 4
    getfield Shape/count I
    iload_2
    idiv
    bipush 31
    imul
    iadd
    istore_3
    aload 4
    getfield Shape/next LShape;
    astore 4
    iinc 2 -1
    goto Begin
End:
    iload_3
    iconst_3
    iand
    tableswitch 0 2
        Quiet
        Quiet
        Loud
        default : Loud
Loud:
    getstatic java/lang/System/out Ljava/io/PrintStream;
    ldc \"visited by method #\\tof the shape\"
    invokevirtual java/io/PrintStream/println(Ljava/lang/String;)V
    getstatic Shape/total I
    iload_3
    invokestatic tools/Numbers/larger(II)I
    putstatic Shape/total I
Quiet:
    iload_3
    lookupswitch
        -1 : Loud
        100000 : Restart
        default : Done
Restart:
    aload_0
    aload_1
    iload_3
    sipush 255
    iand
    invokevirtual Shape/visit#(LShape;I)I
    istore_3
    goto Done
Handler: ; division by a zero count
    pop
    aload_0
    dup
    getfield Shape/count I
    iconst_1
    iadd
    putfield Shape/count I
    ldc \"division by zero\"
    astore 5
Done:
    iload_3
    ldc 65521
    irem
    ireturn
.end method
",
    back: b"",
    is_of_bytes: true,
};
