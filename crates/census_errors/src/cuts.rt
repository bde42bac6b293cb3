//! The line for a text that was cut.
ghost use Rattle.std.specs.Prelude.{◌≡◌};
ghost use Rattle.census_errors.specs.Cuts.{cut_line};

use arrayvec::ArrayString;
use census_merge::Cut;
use itoa::Buffer;

// The most bytes that the line has: three numbers of 20 digits, and the words.
const CUT_LIMIT: usize = 128;

/// The line on standard error for a text that was cut: after which line, how many collections are kept, and how many are left
/// out. It asks for no memory.
pub fn cut_line(cut: Cut) -> ArrayString<CUT_LIMIT>
    ensures { result.bytes ≡ cut_line cut }
{
    let mut line = ArrayString::new();
    let mut buffer = Buffer::new();
    line.push_str("census: cut after line ");
    line.push_str(buffer.format(cut.line));
    line.push_str(": ");
    line.push_str(buffer.format(cut.kept));
    line.push_str(" collections kept, ");
    line.push_str(buffer.format(cut.left));
    line.push_str(" left out\n");
    line
}
