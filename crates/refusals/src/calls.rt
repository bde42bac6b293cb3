//! Calls, and the line that shows each. The first write of the line is before the call, and the second after it.

/// The content of a text before anything is appended to it.
pub const START: &[u8] = b"before ";

/// Begins the line of a call.
pub fn begin(rt: &impl Print, name: &str) {
    let _ = rt.print(name);
}

/// Ends the line of a call.
pub fn end(rt: &impl Print, is_made: bool) {
    let _ = rt.print(if is_made { ": made\n" } else { ": refused\n" });
}

/// `Some` if a promise is kept, and otherwise `None`.
pub fn promised(is_so: bool) -> Option<()> {
    if is_so { Some(()) } else { None }
}

/// True where a text is `START` and then these bytes.
pub fn has_appended(text: &[u8], appended: &[u8]) -> bool {
    match text.split_at_checked(START.len()) {
        Some((start, rest)) => start == START && rest == appended,
        None => false,
    }
}

// The value of a call. A call that is refused memory must leave everything unchanged, and is made again. `None` if it doesn't,
// or is refused again.
#[macro_export]
macro_rules! call {
    ($rt:expr, $name:expr, $call:expr $(,)?) => {
        call!($rt, $name, $call, true)
    };
    ($rt:expr, $name:expr, $call:expr, $is_as_before:expr $(,)?) => {{
        $crate::calls::begin($rt, $name);
        let made = $call.ok();
        $crate::calls::end($rt, made.is_some());
        if made.is_none() && $is_as_before {
            $call.ok()
        } else {
            made
        }
    }};
}
