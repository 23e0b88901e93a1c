//! Options of the command line.

ghost use Rattle.std.specs.Prelude.{◌≤◌, IfOk, vec_len};

use crate::Source;
use crate::classes::{Class, class_named, classes_of, nearest_class};
use crate::page::Page;
use std::alloc::{AllocError, Global};

/// The most main classes of a run.
const MOST_MAINS: usize = 16;

/// The most classes whose names are written.
const MOST_LISTED: usize = 20;

/// How many main classes `--mains` names.
pub(crate) fn count_of(mains: Option<&str>) -> usize {
    let mut count: usize = 0;
    if let Some(names) = mains {
        count = 1;
        for byte in names.as_bytes() {
            if *byte == b',' {
                count = count.saturating_add(1);
            }
        }
    }
    count
}

/// Says which classes the files have.
fn list_classes(page: &mut Page, classes: &[Class<'_>]) {
    page.say("\nthe files have ");
    for (count, class) in classes.iter().enumerate() {
        if count == MOST_LISTED {
            page.say(" and ");
            page.number(classes.len().saturating_sub(count));
            page.say(" more");
            return;
        }
        page.about(if count == 0 { "" } else { ", " }, class.name(), "");
    }
}

/// The first name that is no class of the files.
fn wrong_main<'a>(classes: &[Class<'_>], mains: &'a str) -> Option<&'a str> {
    for name in mains.split(',') {
        if name.is_empty() || class_named(classes, name.as_bytes()).is_none() {
            return Some(name);
        }
    }
    None
}

/// Says what is wrong with the main classes, as `--mains` has them or `None` where it is absent.
///
/// An `Err` means out of memory.
pub fn explain_mains(
    alloc: Global,
    sources: &[Source<'_>],
    mains: Option<&str>,
) -> Result<Vec<u8>, AllocError>
    ensures some { IfOk result (λ text. 1 ≤ vec_len text) }
{
    let classes = classes_of(alloc, sources)?;
    let mut page = Page::new(alloc);
    let names = mains.unwrap_or("");
    let wrong = wrong_main(&classes, names);
    let name = wrong.unwrap_or("").as_bytes();
    if mains.is_none() {
        page.say("--mains is missing: it names the main classes, with commas between them");
    } else if wrong.is_none() {
        page.say("--mains names ");
        page.number(count_of(mains));
        page.say(" classes, and a run has at most ");
        page.number(MOST_MAINS);
    } else if name.is_empty() {
        page.say("a name in --mains is empty: its names have one comma between them");
    } else {
        page.about("there is no class ", name, " in the files");
        page.perhaps(nearest_class(&classes, name, false));
    }
    list_classes(&mut page, &classes);
    page.ended("mains")
}

/// Whether the text is a decimal number below this.
fn is_below(text: &str, limit: usize) -> bool {
    let mut number: usize = 0;
    for byte in text.as_bytes() {
        if *byte < b'0' || b'9' < *byte {
            return false;
        }
        number = number
            .saturating_mul(10)
            .saturating_add((*byte - b'0') as usize);
    }
    !text.is_empty() && number < limit
}

/// The first entry of an order that is no number of a thread, and how many come before it.
fn wrong_entry(order: &str, threads: usize) -> Option<(usize, &str)> {
    for (count, entry) in order.split(',').enumerate() {
        if !is_below(entry, threads) {
            return Some((count, entry));
        }
    }
    None
}

/// Says what is wrong with the text of `--order`, with the main classes that `--mains` has, or `None` where it is absent.
///
/// An `Err` means out of memory.
pub fn explain_order(alloc: Global, order: &str, mains: Option<&str>) -> Result<Vec<u8>, AllocError>
    ensures some { IfOk result (λ text. 1 ≤ vec_len text) }
{
    let threads = count_of(mains);
    let mut page = Page::new(alloc);
    match wrong_entry(order, threads) {
        _ if mains.is_none() => page.say(
            "--order is given without --mains, which says how many threads there are",
        ),
        None => page.say("--order has the numbers of threads, with commas between them"),
        Some((count, entry)) => {
            page.say("entry ");
            page.number(count.saturating_add(1));
            page.about(
                " of --order, ",
                entry.as_bytes(),
                ", is no number of a thread: --mains gives 0",
            );
            if 1 < threads {
                page.say(" to ");
                page.number(threads.saturating_sub(1));
            }
            page.say(if entry.is_empty() {
                "; an entry is empty where two commas meet"
            } else {
                ""
            });
        }
    }
    page.ended("order")
}

/// Of an option that is one number or word.
fn one_value(
    alloc: Global,
    option: &str,
    text: &str,
    wanted: &str,
    code: &str,
) -> Result<Vec<u8>, AllocError>
    ensures some { IfOk result (λ text. 1 ≤ vec_len text) }
{
    let mut page = Page::new(alloc);
    page.say(option);
    page.about(" was given `", text.as_bytes(), "`, and takes ");
    page.say(wanted);
    page.ended(code)
}

/// Says what is wrong with the text of `--steps`.
///
/// An `Err` means out of memory.
pub fn explain_steps(alloc: Global, text: &str) -> Result<Vec<u8>, AllocError>
    ensures some { IfOk result (λ text. 1 ≤ vec_len text) }
{
    let wanted = "a number from 1 to 100000000, of digits alone";
    one_value(alloc, "--steps", text, wanted, "steps")
}

/// Says what is wrong with the text of `--patience`.
///
/// An `Err` means out of memory.
pub fn explain_patience(alloc: Global, text: &str) -> Result<Vec<u8>, AllocError>
    ensures some { IfOk result (λ text. 1 ≤ vec_len text) }
{
    let wanted = "a number from 0 to 1000000000, of digits alone; 0 is no limit";
    one_value(alloc, "--patience", text, wanted, "patience")
}

/// Says what is wrong with the text of `--edition`.
///
/// An `Err` means out of memory.
pub fn explain_edition(alloc: Global, text: &str) -> Result<Vec<u8>, AllocError>
    ensures some { IfOk result (λ text. 1 ≤ vec_len text) }
{
    one_value(alloc, "--edition", text, "7 or 8", "edition")
}

/// Says what is wrong with the files: how many they are, or the first that is too large, with its bytes.
///
/// An `Err` means out of memory.
pub fn explain_files(
    alloc: Global,
    count: usize,
    largest: Option<(&str, usize)>,
) -> Result<Vec<u8>, AllocError>
    ensures some { IfOk result (λ text. 1 ≤ vec_len text) }
{
    let mut page = Page::new(alloc);
    match largest {
        Some((name, bytes)) => {
            page.about("", name.as_bytes(), " has ");
            page.number(bytes);
            page.say(" bytes, and a file has at most 1048576, which are 1 MiB");
        }
        None => {
            page.say("the command line names ");
            page.number(count);
            page.say(" files, and a run takes at most 256");
        }
    }
    page.ended("files")
}
