//! The short names of errors in the program's lines.
ghost use Rattle.std.specs.Prelude.{◌≡◌, ◌≤◌, length};
ghost use Rattle.census_faults.specs.Numbers.{numbered};

use arrayvec::ArrayString;
use itoa::Buffer;

// The greatest length of a message, in bytes.
const MESSAGE_LIMIT: usize = 64;

/// The name of an error. It allocates no memory.
pub type Message = ArrayString<MESSAGE_LIMIT>;

/// The message that consists of these words.
pub fn message(words: &str) -> Message
    requires { length words.now ≤ 40 }
    ensures { result.bytes ≡ words.now }
{
    let mut message = ArrayString::new();
    message.push_str(words);
    message
}

/// A fault of this kind by its number: `KIND fault N`, followed by ` at A` where the fault has a place.
pub fn numbered(kind: &str, number: u8, at: Option<usize>) -> Message
    requires { length kind.now ≤ 20 }
    ensures { result.bytes ≡ numbered kind.now number at }
{
    let mut buffer = Buffer::new();
    let mut message = ArrayString::new();
    message.push_str(kind);
    message.push_str(" fault ");
    message.push_str(buffer.format(number));
    if let Some(at) = at {
        message.push_str(" at ");
        message.push_str(buffer.format(at));
    }
    message
}
