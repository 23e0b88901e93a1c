//! What the program says of each code of a fault: what it means, an example, the repair, and the page to read.
//!
//! The texts are data, in two constants. docs/TESTING.md says what holds them against the documents.

ghost use Rattle.std.specs.Prelude.{[], ◌≡◌, ◌≢◌};
ghost use Rattle.std.specs.Option.{option_copied};
ghost use Rattle.std.specs.Str.{str_eq_ignore_ascii_case};
ghost use Rattle.explanations.specs.Codes as spec;
ghost use Rattle.explanations.specs.Codes.{code_list_of, code_text_of};

/// A section for each code, separated by `~`: its first line is the code. The sentence after it is the row of the
/// table in the documents. A line that is a file's name and a colon makes the indented lines after it that file; a line that
/// begins with `$ ` is a command, followed by what it writes on standard error.
const TEXTS: &str = r#"J1
A byte above 127 or a control byte outside comment and string, or a string that isn't UTF-8.
T.j:
    .class Café
$ jinit needs T.j
T.j:1: J1
Repair: write names in ASCII. Other characters may only be in comments and strings, as UTF-8.
Page: docs/JASMIN.md, "Lines and words", "Faults"
~J2
A word that begins with a dot and is no directive.
T.j:
    .klass T
$ jinit needs T.j
T.j:1: J2
Repair: mend the directive's spelling, here `.class`. A label doesn't begin with a dot.
Page: docs/JASMIN.md, "What a line may say", "Faults"
~J3
A word in an instruction's place that is none: another word, a string, `=`, `:`, or a digit before
a colon.
T.j:
    .class T
    .method static m()V
    iload_4
    return
    .end method
$ jinit needs T.j
T.j:3: J3
Repair: write an instruction that there is, here `iload 4`: the short forms end at `iload_3`.
Page: docs/JASMIN.md, "Instructions", "Faults"
~J4
Something that is left out. Jasmin has it, but Jinit doesn't: `long`, `float` and `double` with
their instructions, subroutines, `native`, some directives.
T.j:
    .class T
    .field static total J
$ jinit needs T.j
T.j:2: J4
Repair: do without it. Here an int, whose descriptor is `I`, takes the place of the `long`, `J`.
Page: docs/JASMIN.md, "What is left out", "Faults"
~J5
A bad, missing or superfluous operand that no other code names. Operands are the words after the
first one of a line.
T.j:
    .class T
    .method static m()V
    bipush 128
    return
    .end method
$ jinit needs T.j
T.j:3: J5
Repair: give as many operands as the table says, in its form; here `sipush 128`: `bipush` ends at
127.
Page: docs/JASMIN.md, "Instructions", "What a line may say", "Faults"
~J6
A label that its method doesn't have, reported at `.end method`.
T.j:
    .class T
    .method static m()V
    goto Done
    return
    .end method
$ jinit needs T.j
T.j:5: J6
Repair: write the label before the instruction that it names, as `Done: return`, or mend its name.
Page: docs/JASMIN.md, "Labels", "Faults"
~J7
A label that its method has already, reported at the second.
T.j:
    .class T
    .method static m()V
    L: nop
    L: return
    .end method
$ jinit needs T.j
T.j:4: J7
Repair: give one of the two another name. Two methods may each have a label of one name.
Page: docs/JASMIN.md, "Labels", "Faults"
~J8
A string without its end; a method or switch without its end, reported at the last line.
T.j:
    .class T
    .method static m()V
    ldc "hello
    return
    .end method
$ jinit needs T.j
T.j:3: J8
Repair: end a string by `"` on its line, a method by `.end method`, a switch by `default : Label`.
Page: docs/JASMIN.md, "Strings", "Methods", "Switches", "Faults"
~J9
A line where it may not be, an instruction or label outside a method, a second `.class` or `.super`;
no `.class`, reported at line 1.
T.j:
    .class T
    .field x I
    .super java/lang/Object
$ jinit needs T.j
T.j:3: J9
Repair: write `.class` first, then `.super` and `.implements`, then the fields and methods, and
instructions only between `.method` and `.end method`.
Page: docs/JASMIN.md, "What a line may say", "Faults"
~J10
A bad descriptor. A descriptor is the type of a field, as `I` or `Ljava/lang/String;`, or the types
of a method's parameters and of its result, as `(II)I`.
T.j:
    .class T
    .method m()
$ jinit needs T.j
T.j:2: J10
Repair: write all types of it. Here `m()V` is a method without a result: `V` is for no value.
Page: docs/JASMIN.md, "Names", "Faults"
~J11
A limit exceeded.
T.j:
    .class T
    .method static m()V
    .limit stack 1025
    return
    .end method
$ jinit needs T.j
T.j:3: J11
Repair: keep to the numbers of the page, here 1024 at most. Split a method that is too long.
Page: docs/JASMIN.md, "Limits", "Faults"
~J12
A `<clinit>` that isn't static, isn't void or has parameters. This method is what initializes its
class.
T.j:
    .class T
    .method <clinit>()V
$ jinit needs T.j
T.j:2: J12
Repair: write its line as `.method static <clinit>()V`.
Page: docs/JASMIN.md, "Methods", "Faults"
~J13
A body that is missing, or not allowed under `abstract`, reported at `.end method`. A body is one
instruction or more.
T.j:
    .class T
    .method static m()V
    .end method
$ jinit needs T.j
T.j:3: J13
Repair: write the instructions, here `return` at least. A method without any must be `abstract`.
Page: docs/JASMIN.md, "Methods", "Faults"
~J14
No memory; the line is open. It is the code of the library's `read_class` alone, which may report
any line then. The program writes `memory` in its place.
Example: any file, where memory is refused.
Repair: give the program more memory: end other programs, or raise the limit that `ulimit -v` shows.
Page: docs/JASMIN.md, "Faults"
~L1
A word doesn't have the form of its place, or is empty, missing or one too many; or the last line
has no LF.
T.j:
    .class T
T.trace:
    0 t0 step6
$ jinit check --mains T --trace T.trace T.j
T.trace:1: L1
Repair: write lines as `0 t0 step6 T`, with one space between words and a newline at each end.
Page: docs/TRACES.md, "Traces", "Reading"
~L2
The line's number is not the one whose turn it is.
T.j:
    .class T
T.trace:
    1 t0 step6 T
$ jinit check --mains T --trace T.trace T.j
T.trace:1: L2
Repair: number the lines from 0 on, each once: the first line of a file begins with 0.
Page: docs/TRACES.md, "Traces", "Reading"
~L3
The third word is no event: none of `step2` to `step7`, `step9`, `step10`, `step12`, `get`, `put`
and `print`.
T.j:
    .class T
T.trace:
    0 t0 step8 T
$ jinit check --mains T --trace T.trace T.j
T.trace:1: L3
Repair: write the event's word. Steps 1, 8 and 11 of the standard's procedure have no event.
Page: docs/TRACES.md, "Traces", "Reading"
~L4
There is no such thread; no such class in the files, or for a throwable in the program; no such
static field in that class.
T.j:
    .class T
T.trace:
    0 t0 step6 U
$ jinit check --mains T --trace T.trace T.j
T.trace:1: L4
Repair: name what there is, or give the files that the trace was made of: threads are `t0`, `t1` ..
by the order of `--mains`, and a field's class is the one that declares it.
Page: docs/TRACES.md, "Traces", "Reading"
~L5
A value that the field can't hold, or a value or text in another spelling than that of traces.
T.j:
    .class T
    .field static b B
T.trace:
    0 t0 put T b:B 300
$ jinit check --mains T --trace T.trace T.j
T.trace:1: L5
Repair: write the value as the field keeps it: here a byte, whose low 8 bits are 44; a reference as
`null` or `#` and a number, a text in double quotes.
Page: docs/TRACES.md, "Traces", "Reading"
~L6
Line 1,000,001, or the line whose end lies past 64 MiB; nothing is read of such a line.
T.j:
    .class T
$ seq -f '%.0f t0 print ""' 0 1000000 > T.trace
$ jinit check --mains T --trace T.trace T.j
T.trace:1000001: L6
Repair: cut the trace off before that line: its beginning can be judged.
Page: docs/TRACES.md, "Reading"
~L7
Out of memory. It is the code of the library's `read_trace` alone. The program writes `memory` in
its place.
Example: any trace, where memory is refused.
Repair: give the program more memory: end other programs, or raise the limit that `ulimit -v` shows.
Page: docs/TRACES.md, "Reading"
~H1
Two classes have one name. The line has that name.
T.j:
    .class T
$ jinit needs T.j T.j
link: H1 T
Repair: give each file once, and each class a name of its own.
Page: docs/MESSAGES.md, "Faults of linking"
~H2
A superclass or superinterface is unknown. The line has the class that names it.
T.j:
    .class T
    .super Gone
$ jinit needs T.j
link: H2 T
Repair: give the file of the missing class too, or mend the name. Of the library a class may only
extend `java/lang/Object` and the throwables.
Page: docs/MESSAGES.md, "Faults of linking"; docs/JASMIN.md, "Built-in classes"
~H3
A class is its own superclass or superinterface, directly or further up. The line has the first in
file order that is itself on the circle.
A.j:
    .class A
    .super B
B.j:
    .class B
    .super A
$ jinit needs A.j B.j
link: H3 A
Repair: take one `.super` or `.implements` line out of the circle.
Page: docs/MESSAGES.md, "Faults of linking"
~H4
The superclass of a class is an interface, or that of an interface isn't java/lang/Object. The line
has the class or interface that names it.
A.j:
    .class A
    .super I
I.j:
    .interface I
$ jinit needs A.j I.j
link: H4 A
Repair: name an interface by `.implements`, from an interface too.
Page: docs/MESSAGES.md, "Faults of linking"
~H5
A superinterface is a class, of the files or built in. The line has the class that names it.
A.j:
    .class A
    .implements B
B.j:
    .class B
$ jinit needs A.j B.j
link: H5 A
Repair: name a class by `.super`, or make an interface of it: `.interface B`.
Page: docs/MESSAGES.md, "Faults of linking"
~H6
A name lies under `java/`. The line has that class. All classes there are built in.
T.j:
    .class java/lang/T
$ jinit needs T.j
link: H6 java/lang/T
Repair: give the class a name that doesn't begin with `java/`.
Page: docs/MESSAGES.md, "Faults of linking"; docs/JASMIN.md, "Built-in classes"
~H7
Two fields, or two methods, have one name and one descriptor. The line has the class that declares
both.
T.j:
    .class T
    .field x I
    .field x I
$ jinit needs T.j
link: H7 T
Repair: delete one of the two, or give it another name or descriptor.
Page: docs/MESSAGES.md, "Faults of linking"
~H8
More than 1,024 classes, or quoted texts beyond the heap's 1,000,000 cells, of which three are
taken. The line has the 1,025th class, or the first whose texts are too many.
$ for c in $(seq 62); do { echo .class T$c; echo .method static m'()'V
> seq -f 'ldc "%.0f"' ${c}00001 ${c}16200; echo .end method; } > T$c.j; done
$ jinit needs $(seq -f T%g.j 62)
link: H8 T62
Repair: use fewer different texts. Texts that are equal take one cell together.
Page: docs/MESSAGES.md, "Faults of linking"; docs/JASMIN.md, "Limits"
~H9
Memory was refused. It is the code of the library's `link` alone. The program writes `memory` in its
place.
Example: any files, where memory is refused.
Repair: give the program more memory: end other programs, or raise the limit that `ulimit -v` shows.
Page: docs/MESSAGES.md, "Faults of linking"
~cli: words
An option of one subcommand with another that doesn't take it: `jinit needs --mains A A.j`; `check`
without `--trace`; `--order` with `--replay`. Or the trace would replace a file that is read, also
by another name of it; or `-` is given more than once.
T.j:
    .class T
$ jinit needs --mains T T.j
cli: words
Repair: take the option out, or give the missing one (`jinit needs --help` lists those of `needs`);
write the trace to a file of its own.
Page: docs/MESSAGES.md, "The lines"
~cli: files
More than 256 files, or a file over 1 MiB.
$ jinit needs $(seq -f T%g.j 257)
cli: files
Repair: give fewer files, or make two classes of the one whose file is too long.
Page: docs/MESSAGES.md, "The lines"; docs/JASMIN.md, "Limits"
~cli: order
An entry of `--order` is no decimal number (digits alone, zeros may lead) below the number of names
in `--mains`; or `--mains` is absent.
T.j:
    .class T
$ jinit run --mains T --order 0,1 T.j
cli: order
Repair: write numbers of threads with commas between them. Threads are numbered from 0, so one main
class has the number 0 alone.
Page: docs/TRACES.md, "Orders"
~cli: steps
The text of `--steps` is no decimal number from 1 to 100,000,000: digits alone, zeros may lead.
T.j:
    .class T
$ jinit run --mains T --steps 1,000 T.j
cli: steps
Repair: write digits alone, here `--steps 1000`.
Page: docs/MESSAGES.md, "The lines"; docs/JASMIN.md, "Limits"
~cli: patience
The text of `--patience` is no decimal number up to 1,000,000,000: digits alone, zeros may lead.
T.j:
    .class T
$ jinit run --mains T --patience none T.j
cli: patience
Repair: write digits alone. 0 is for no limit, as where the option isn't given.
Page: docs/MESSAGES.md, "The lines"; docs/JASMIN.md, "Limits"
~cli: edition
The text of `--edition` is neither `7` nor `8`.
T.j:
    .class T
$ jinit needs --edition 11 T.j
cli: edition
Repair: write `--edition 7`, or leave it out for 8: no other edition of the standard is there.
Page: docs/MESSAGES.md, "The lines"; docs/INITIALIZATION.md, "What a class needs"
~cli: mains
`--mains` is absent, has an empty name or one of no class of the files, or more than 16 names.
T.j:
    .class T
$ jinit run --mains U T.j
cli: mains
Repair: name classes as the `.class` lines of the files do, with commas and no spaces between them.
Page: docs/MESSAGES.md, "The lines"
~cli: code
`jinit explain` was given a word that is no code.
$ jinit explain J99
cli: code
Repair: give a code as `jinit explain` lists it, as `J6` or `mains`; letters of either case.
Page: docs/MESSAGES.md, "The lines", "Explanations"
~io
`io: <file>`: the file can't be read, or the trace can't be written there.
`io: output`: standard output can't be written.
$ jinit needs Gone.j
io: Gone.j
Repair: mend the path, or ask `ls -l` who may read and write there; see whether the disk is full
(`df`), and whether what reads the output still runs.
Page: docs/MESSAGES.md, "The lines"
~threads
A thread of the machine couldn't be started. Several main classes have one each, unless `--order`
is given.
Example: `jinit run` with more main classes than the system allows threads.
Repair: raise the limit that `ulimit -u` shows, name fewer main classes, or give an `--order`.
Page: docs/MESSAGES.md, "The lines"
~memory
Memory was refused. What was written by then stays.
Example: `jinit run` under a limit of a few MB, as one that `ulimit -v` sets.
Repair: give the program more memory: end other programs, or raise the limit that `ulimit -v` shows.
Page: docs/MESSAGES.md, "The lines"
"#;

/// A line for each section of `TEXTS`, in their order: its code and a few words.
const CODES: &str = "J1             bytes that may not be where they are
J2             an unknown directive
J3             an unknown instruction
J4             a word of Jasmin that Jinit doesn't have
J5             a bad, missing or superfluous operand
J6             a label that isn't there
J7             a label twice
J8             a string, method or switch without its end
J9             a line where it may not be
J10            a bad descriptor
J11            a limit exceeded
J12            a wrong `<clinit>`
J13            a method without a body, or an abstract one with it
J14            no memory for a file
L1             a trace's word of the wrong form
L2             a trace's line with a wrong number
L3             a trace's unknown event
L4             a thread, class or field that isn't there
L5             a value or text of the wrong form
L6             a trace that is too long
L7             no memory for a trace
H1             two classes of one name
H2             an unknown superclass or superinterface
H3             a class that is its own superclass or superinterface
H4             a superclass of the wrong kind
H5             a superinterface that is a class
H6             a class under `java/`
H7             two fields or methods of one name and descriptor
H8             too many classes or quoted texts
H9             no memory for the classes
cli: words     an option that the subcommand doesn't take, or a missing one
cli: files     too many files, or one that is too long
cli: order     a wrong `--order`
cli: steps     a wrong `--steps`
cli: patience  a wrong `--patience`
cli: edition   a wrong `--edition`
cli: mains     a wrong `--mains`
cli: code      a word that is no code
io             a file or the output can't be read or written
threads        a thread couldn't be started
memory         memory was refused
";

/// The first line of a section.
fn head_of(section: &str) -> &[u8]
    ensures { result.now ≡ spec.head_of section.now }
{
    match section.split_once('\n') {
        Some((head, _)) => head.as_bytes(),
        None => section.as_bytes(),
    }
}

/// Whether two words are the same, where letters of either case are.
fn is_same(word: &[u8], other: &[u8]) -> bool
    ensures { result ≡ str_eq_ignore_ascii_case word.now other.now }
{
    word.eq_ignore_ascii_case(other)
}

/// Whether a section's first line is that of a code, as `J6`, `mains` or `cli: mains`.
fn is_code_line(line: &[u8], code: &[u8]) -> bool
    ensures { result ≡ spec.is_code_line line.now code.now }
{
    let is_whole = is_same(line, code);
    match line.strip_prefix(b"cli: ") {
        Some(word) => is_whole || is_same(word, code),
        None => is_whole,
    }
}

/// The section of a code.
fn section_of<'a>(text: &'a str, code: &str) -> Option<&'a str>
    ensures { option_copied result ≡ spec.section_of text.now code.now }
{
    text.split('~')
        .find(|section| is_code_line(head_of(section), code.as_bytes()))
}

/// What is to be said of the fault with that code, as `J6`, `mains` or `cli: mains`: lines, the first of which is the code, and the
/// last of which ends too. `None` where no fault has it. Letters of either case are the same. Takes no memory.
pub fn code_text(code: &str) -> Option<&'static [u8]>
    ensures { option_copied result ≡ code_text_of code.now }
{
    Some(section_of(TEXTS, code)?.as_bytes())
}

/// A line for each code: the code and its meaning in a few words.
#[tactic(auto, unfolding(crate::specs::Codes::code_list_of))]
pub fn code_list() -> &'static [u8]
    ensures text { result.now ≡ code_list_of }
    ensures some { result.now ≢ [] }
{
    CODES.as_bytes()
}
