//! Lines that may not be where they are.

use crate::context::Spot;
use crate::findings::because;
use crate::line::{Row, Word, row_of};
use crate::page::Page;
use jasmin_text::form::{Directive, directive_of};

/// Of a line in a file that has no `.class` yet.
fn before_class(page: &mut Page, spot: &Spot<'_, '_>, word: &Word<'_>) {
    if word.bytes.is_empty() {
        page.say("the file has no .class and no .interface line");
        return;
    }
    page.show(spot.number, spot.line, word);
    page.about(
        "",
        word.bytes,
        " may not come before .class or .interface, with which a file begins",
    );
}

/// Of a directive in a method that may be in none.
fn in_method(page: &mut Page, spot: &Spot<'_, '_>, word: &Word<'_>, from: usize) {
    page.about("", word.bytes, " may not come in a method, and ");
    page.name(spot.method_name(from).bytes);
    because(page, ", begun in line ", from);
    page.say(", has no .end method yet");
}

/// Of a line of the class that comes a second time or too late.
fn too_late(page: &mut Page, spot: &Spot<'_, '_>, word: &Word<'_>, directive: Directive) {
    let class = match directive {
        Directive::Class | Directive::Interface => spot.context.class,
        _ => None,
    };
    page.name(word.bytes);
    if let Some(number) = class {
        because(
            page,
            " may come once, and the class is named in line ",
            number,
        );
    } else if let Some(number) = spot.context.member {
        because(
            page,
            " comes before the first field or method, which is in line ",
            number,
        );
    } else if let Some(number) = spot.context.superclass {
        because(
            page,
            " may come once, and the superclass is named in line ",
            number,
        );
    } else {
        page.say(" may not come here");
    }
}

/// Of a directive outside of methods.
fn outside(page: &mut Page, spot: &Spot<'_, '_>, word: &Word<'_>, directive: Directive) {
    match directive {
        Directive::End => page.say("no method is open here that could end"),
        Directive::Limit | Directive::Catch => {
            page.about("", word.bytes, " comes in a method, and none is open here");
        }
        _ => too_late(page, spot, word, directive),
    }
}

/// Of a directive.
fn directive_place(
    page: &mut Page,
    spot: &Spot<'_, '_>,
    row: &Row<'_>,
    word: &Word<'_>,
    directive: Directive,
) {
    page.show(spot.number, spot.line, word);
    match (spot.context.switch, spot.context.method) {
        _ if row.label.is_some() => {
            page.about("", word.bytes, " may not come after a label on its line");
        }
        (Some(number), _) => {
            page.about(
                "",
                word.bytes,
                " may not come in a switch, which ends by a line as default : Label",
            );
            because(page, "; this one begins in line ", number);
        }
        (None, Some(from)) => in_method(page, spot, word, from),
        (None, None) => outside(page, spot, word, directive),
    }
}

/// Of `J9`: the line, and why it may not be there.
pub(crate) fn misplaced(page: &mut Page, spot: &Spot<'_, '_>) {
    let row = row_of(spot.line);
    let word = row.word.or(row.label).unwrap_or(Word::NONE);
    let directive = directive_of(word.bytes);
    match (directive, spot.context.class) {
        (_, None) => before_class(page, spot, &word),
        (Some(directive), _) => directive_place(page, spot, &row, &word, directive),
        (None, _) => {
            let first = row.label.unwrap_or(word);
            page.show(spot.number, spot.line, &first);
            page.about("", first.bytes, " comes in a method, and none is open here");
        }
    }
}
