//! Names and codes, as links if the options ask for them.
use crate::html::Html;
use crate::own::{
    CATALOGUE, CODE, DETAILS_END, ITEM_END, LINK, LINK_END, LINK_TEXT, LONG_CODE, LONG_CODE_CUT,
    SLASH, TIMES, WHOLE_CODE_END,
};
use crate::view::View;
use percent_encoding::percent_encode_byte;
use std::alloc::{AllocError, Global};

// A code of up to `SHOWN` bytes is shown whole.
const SHOWN: usize = 60;

// A code of up to `LINKED` bytes is a link, if codes are links.
const LINKED: usize = 100;

// Of a longer code, only the first `BEGINNING` bytes are shown until the reader asks for more.
const BEGINNING: usize = 24;

// True where a byte needs no encoding in an address.
fn is_plain(byte: u8) -> bool {
    byte.is_ascii_alphanumeric()
        || (byte == b'-' || (byte == b'.' || (byte == b'_' || byte == b'~')))
}

// Adds a byte of a step of a path: letters, digits, `-`, `.`, `_` and `~` as they are, and `%` with two hexadecimal digits for
// each other byte.
fn push_encoded(html: &mut Html, byte: u8) -> Result<(), AllocError> {
    if is_plain(byte) {
        return html.byte(byte);
    }
    html.value(percent_encode_byte(byte).as_bytes())
}

// Adds bytes as one step of a path.
fn push_step(html: &mut Html, bytes: &[u8]) -> Result<(), AllocError> {
    for byte in bytes {
        push_encoded(html, *byte)?;
    }
    Ok(())
}

// Adds bytes as a path, whose slashes are kept.
fn push_path(html: &mut Html, bytes: &[u8]) -> Result<(), AllocError> {
    for byte in bytes {
        if *byte == b'/' {
            html.byte(*byte)?;
        } else {
            push_encoded(html, *byte)?;
        }
    }
    Ok(())
}

// Adds a rule in lowercase and without slashes, such as `b3s23`.
fn push_rule(html: &mut Html, rule: &[u8]) -> Result<(), AllocError> {
    for byte in rule {
        if *byte != b'/' {
            push_encoded(html, byte.to_ascii_lowercase())?;
        }
    }
    Ok(())
}

/// Appends a name as an element of its own, as a link if names are links. Bytes that are not UTF-8 become U+FFFD in the text,
/// and are percent-encoded in the link. The only error is out of memory.
pub fn push_name(
    alloc: Global,
    html: &mut Html,
    view: &View,
    name: &[u8],
) -> Result<(), AllocError> {
    let Some(base) = view.base else {
        return html.name(alloc, name);
    };
    html.own(LINK)?;
    html.text(alloc, base)?;
    push_path(html, view.collection)?;
    html.own(SLASH)?;
    push_step(html, name)?;
    html.own(LINK_TEXT)?;
    html.name(alloc, name)?;
    html.own(LINK_END)
}

// Adds a code, as a link to its page under a rule if codes are `linked` and it is not too long.
fn push_code_text(
    alloc: Global,
    html: &mut Html,
    linked: bool,
    rule: &[u8],
    code: &[u8],
) -> Result<(), AllocError> {
    if !linked || code.len() > LINKED {
        return html.text(alloc, code);
    }
    html.own(CATALOGUE)?;
    push_step(html, code)?;
    html.own(SLASH)?;
    push_rule(html, rule)?;
    html.own(LINK_TEXT)?;
    html.text(alloc, code)?;
    html.own(LINK_END)
}

// Adds a whole code.
fn push_whole(
    alloc: Global,
    html: &mut Html,
    linked: bool,
    rule: &[u8],
    code: &[u8],
) -> Result<(), AllocError> {
    html.own(CODE)?;
    push_code_text(alloc, html, linked, rule, code)?;
    html.own(WHOLE_CODE_END)
}

/// Appends a code. One with more than 60 bytes is cut to its first 24, and shown whole on request. If codes are `linked`, one
/// with at most 100 bytes is a link to its page under this rule. The only error is out of memory.
pub fn push_code(
    alloc: Global,
    html: &mut Html,
    linked: bool,
    rule: &[u8],
    code: &[u8],
) -> Result<(), AllocError> {
    if code.len() <= SHOWN {
        return push_whole(alloc, html, linked, rule, code);
    }
    html.own(LONG_CODE)?;
    html.text(alloc, &code[..BEGINNING])?;
    html.own(LONG_CODE_CUT)?;
    push_whole(alloc, html, linked, rule, code)?;
    html.own(DETAILS_END)
}

/// Appends a code and the number of objects that have it, as the rest of an item. The only error is out of memory.
pub fn push_counted(
    alloc: Global,
    html: &mut Html,
    linked: bool,
    rule: &[u8],
    code: &[u8],
    count: u64,
) -> Result<(), AllocError> {
    push_code(alloc, html, linked, rule, code)?;
    html.own(TIMES)?;
    html.grouped(count)?;
    html.own(ITEM_END)
}
