//! What files begin with that are no CSV.

use crate::records::without_mark;
use rp_wording::{Hint, said};

/// What is said of a page of the web.
const PAGE: &str = "this is a page of the web (HTML), and no CSV";

/// What to do about such a page.
const PAGE_HELP: &str = "was the address that of the file itself, and were you signed in?";

/// What is said of a first line that is for spreadsheets.
const SEPARATOR: &str =
    "the first line says what is between fields, for a spreadsheet, and the names are below it";

/// What bytes begin with that are no CSV text, what they are, and what to do.
const FRONTS: [(&[u8], &str, &str); 22] = [
    (
        b"\xff\xfe",
        "this is UTF-16, and UTF-8 is read",
        "iconv -f UTF-16 -t UTF-8 FILE | rowmatch ..",
    ),
    (
        b"\xfe\xff",
        "this is UTF-16, and UTF-8 is read",
        "iconv -f UTF-16 -t UTF-8 FILE | rowmatch ..",
    ),
    (
        b"\x1f\x8b",
        "this is a gzip file",
        "zcat FILE | rowmatch ..",
    ),
    (
        b"\x28\xb5\x2f\xfd",
        "this is a zstd file",
        "zstdcat FILE | rowmatch ..",
    ),
    (
        b"PK\x03\x04",
        "this is a zip file, or a workbook of a spreadsheet",
        "unzip -p FILE | rowmatch .., or save the sheet as CSV",
    ),
    (b"BZh", "this is a bzip2 file", "bzcat FILE | rowmatch .."),
    (
        b"\xfd7zXZ\x00",
        "this is an xz file",
        "xz -dc FILE | rowmatch ..",
    ),
    (
        b"\xd0\xcf\x11\xe0",
        "this is a workbook of a spreadsheet",
        "save the sheet as CSV",
    ),
    (
        b"SQLite format 3",
        "this is a database of SQLite",
        "sqlite3 -csv -header FILE 'SELECT * FROM t' | rowmatch ..",
    ),
    (
        b"%PDF-",
        "this is a PDF file, and no CSV",
        "was another file meant?",
    ),
    (
        b"PAR1\x15",
        "this is a Parquet file",
        "duckdb -csv -c \"from 'FILE'\" | rowmatch ..",
    ),
    (b"<!DOCTYPE", PAGE, PAGE_HELP),
    (b"<!doctype", PAGE, PAGE_HELP),
    (b"<html", PAGE, PAGE_HELP),
    (b"<HTML", PAGE, PAGE_HELP),
    (
        b"<?xml",
        "this is XML, and no CSV",
        "write a CSV file of it, with a header that names the columns",
    ),
    (
        b"sep=;",
        SEPARATOR,
        "tail -n +2 FILE | rowmatch .. --delimiter ';'",
    ),
    (
        b"sep=\t",
        SEPARATOR,
        "tail -n +2 FILE | rowmatch .. --delimiter '\\t'",
    ),
    (
        b"sep=|",
        SEPARATOR,
        "tail -n +2 FILE | rowmatch .. --delimiter '|'",
    ),
    (b"sep=,", SEPARATOR, "tail -n +2 FILE | rowmatch .."),
    (
        b"{",
        "this is JSON",
        "objects, one in each line, are read with --from jsonl",
    ),
    (
        b"[",
        "this is JSON",
        "jq -c '.[]' FILE | rowmatch .. --from jsonl (jq before 1.7 rounds whole numbers of more than 15 digits)",
    ),
];

/// What the bytes are, where they are no text.
pub(crate) fn of_front(bytes: &[u8]) -> Option<Hint> {
    if let Some(found) = known_front(without_mark(bytes)) {
        return Some(found);
    }
    of_zero(bytes)
}

/// What the bytes are, where one of them is 0.
fn of_zero(bytes: &[u8]) -> Option<Hint> {
    if bytes.contains(&0) {
        return said(
            "it has a byte 0, so this is no text in UTF-8",
            "UTF-8 is read: iconv -f UTF-16LE -t UTF-8 FILE | rowmatch ..",
        );
    }
    None
}

/// What the bytes are, where they are no text, or that of a file of another kind than JSON.
pub fn of_no_json(bytes: &[u8]) -> Option<Hint> {
    if bytes.starts_with(b"{") || bytes.starts_with(b"[") {
        return of_zero(bytes);
    }
    of_front(bytes)
}

/// Whether the bytes begin as those of a file do that is no CSV. A header may begin with a bracket, and a text have a byte 0.
pub(crate) fn is_foreign(bytes: &[u8]) -> bool {
    let bytes = without_mark(bytes);
    let is_list = bytes.starts_with(b"[") && !bytes.starts_with(b"[{");
    known_front(bytes).is_some() && !is_list
}

/// What the bytes are, where they begin as those of a file do that is no CSV.
fn known_front(bytes: &[u8]) -> Option<Hint> {
    for (front, what, help) in &FRONTS {
        if bytes.starts_with(front) {
            return said(what, help);
        }
    }
    None
}
