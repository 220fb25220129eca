//! Rows of tables.

use std::str::SplitWhitespace;

/// A row of a table, in words: a use and, behind `=`, what it comes to. The use has the class and the
/// method at the site, the instruction, the kind of its constant, the class that this names, a member's
/// name and descriptor, and the class of an object, `[` for an array; words behind the last that it needs
/// are left out.
#[derive(Clone, Copy)]
pub(crate) struct Row<'a> {
    pub(crate) class: &'a str,
    pub(crate) method: &'a str,
    pub(crate) how: &'a str,
    pub(crate) constant: &'a str,
    pub(crate) named: &'a str,
    pub(crate) name: &'a str,
    pub(crate) descriptor: &'a str,
    pub(crate) object: &'a str,
    pub(crate) answer: &'a str,
}

/// The next word, nothing behind the last.
pub(crate) fn next_word<'a>(words: &mut SplitWhitespace<'a>) -> &'a str {
    match words.next() {
        Some(word) => word,
        None => "",
    }
}

/// The row that a line has.
pub(crate) fn read_row(line: &str) -> Row<'_> {
    let (left, answer) = match line.split_once(" = ") {
        Some(parts) => parts,
        None => (line, ""),
    };
    let mut words = left.split_whitespace();
    Row {
        class: next_word(&mut words),
        method: next_word(&mut words),
        how: next_word(&mut words),
        constant: next_word(&mut words),
        named: next_word(&mut words),
        name: next_word(&mut words),
        descriptor: next_word(&mut words),
        object: next_word(&mut words),
        answer,
    }
}

/// Whether a line says nothing but what stands behind it.
pub(crate) fn is_comment(line: &str) -> bool {
    line.starts_with("--")
}
