//! Cases of classes: which files are linked, and what is known of the classes.
//!
//! A program begins as in all files of [`linked`](crate::linked). What follows, up to the next one, is asked of it:
//!
//! - `-- linked: 3 classes --` and `-- refused: H6 java/A --` are what linking answers, a case each.
//! - Any other part asks a question a line, each a case: ` = ` separates the question from the answer. The head says what
//!   is asked: [`answer`] has them.

use crate::archive::Part;
use crate::classes_fields::{puts, static_fields};
use crate::classes_hierarchy::{
    built_in_names, needed, numbers, subtypes, superinterfaces_of, supertypes, text_references,
};
use crate::classes_members::resolves;
use crate::classes_selection::selects;
use crate::linked::push_linked;
use crate::report::Report;
use crate::text::Text;
use hierarchy::{LinkFault, Program};
use std::alloc::Global;
use std::str::from_utf8;

/// Adds what the program answers to a question under this head, and answers whether there is such a question.
///
/// - `resolve`: `getstatic Sub/top I = Top/top I`, `invokevirtual A/gone()V = NoSuchMethodError`: the field or
///   method to which the instruction's reference resolves, where it is declared, or the error.
/// - `select`: `invokevirtual A/own()V on C = C/own()V`, `invokespecial P/f()V in R = Q/f()V`: the method that the
///   instruction runs, on an object of this class, or in the code of that class, or the error.
/// - `needs`: `C = A K J`, `A = none`: the classes that are initialized before the initializer of the class runs.
/// - `numbers`: `a/B = 1`, `1 = a/B`, `B = none`: the number of the class of that name, the name of the class of that
///   number.
/// - `built-in`: `Object = java/lang/Object`: the whole name of a built-in class.
/// - `supertypes`: `C = A K J`: the direct superclass, and then the direct superinterfaces, of a class of the files.
/// - `superinterfaces`: `C = K J`: those that the class implements by itself, directly or not.
/// - `subtypes`: `C <: K = true`.
/// - `texts`: `"7" = 3`: the number of a quoted text.
/// - `static fields`: `C 0 = b B 0 44`: the name and type of a class's first static field, what it holds before step 6
///   of the class's initialization, and after it.
/// - `puts`: `C 3 -7 = 44 0 #3 -7`: what the static fields hold after a put to the one of place 3.
fn answer(alloc: Global, program: &Program, head: &str, asked: &str, came: &mut Text) -> bool {
    match head {
        "resolve" => resolves(alloc, program, asked, came),
        "select" => selects(alloc, program, asked, came),
        "needs" => needed(alloc, program, asked, came),
        "numbers" => numbers(program, asked, came),
        "built-in" => built_in_names(program, asked, came),
        "supertypes" => supertypes(program, asked, came),
        "superinterfaces" => superinterfaces_of(program, asked, came),
        "subtypes" => subtypes(program, asked, came),
        "texts" => text_references(program, asked, came),
        "static fields" => static_fields(alloc, program, asked, came),
        "puts" => puts(alloc, program, asked, came),
        _ => false,
    }
}

/// Judges a question with its answer.
fn judge_line(
    alloc: Global,
    program: &Program,
    head: &str,
    number: usize,
    line: &str,
    report: &mut Report<'_>,
) {
    let Some((asked, wanted)) = line.split_once(" = ") else {
        report.fails(number, b"a question = an answer", line.as_bytes());
        return;
    };
    if answer(alloc, program, head, asked, &mut report.came) {
        report.wanted.push(wanted.as_bytes());
        report.judges(number);
    } else {
        report.fails(number, wanted.as_bytes(), b"no such question");
    }
}

/// Judges the questions of a part.
fn judge_lines(alloc: Global, program: &Program, part: &Part<'_>, report: &mut Report<'_>) {
    let mut number = part.line;
    for line in from_utf8(&part.body).unwrap_or("?").lines() {
        number = number.saturating_add(1);
        if !line.is_empty() {
            judge_line(alloc, program, part.head, number, line, report);
        }
    }
}

/// Judges the parts of a program.
pub(crate) fn judge(
    alloc: Global,
    linked: &Result<Program, LinkFault>,
    parts: &[Part<'_>],
    report: &mut Report<'_>,
) {
    for part in parts {
        let is_of_linking = part.head.starts_with("linked: ") || part.head.starts_with("refused: ");
        match linked {
            _ if part.is_group => {}
            Ok(program) if !is_of_linking => judge_lines(alloc, program, part, report),
            _ => {
                report.wanted.push(part.head.as_bytes());
                push_linked(&mut report.came, linked);
                report.judges(part.line);
            }
        }
    }
}
