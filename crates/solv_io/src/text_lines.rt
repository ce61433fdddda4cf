ghost use Rattle.std.specs.Prelude.{◌≡◌};
ghost use Rattle.solv_io.specs.Lines.{numbered_lines};

use crate::Lines;

/// The lines of a text with their numbers from 1. A line ends at a line feed, which is not part of it, or at the text's
/// end; an empty rest after the last line feed is no line. A carriage return is an ordinary byte.
pub fn lines(bytes: &[u8]) -> Lines<'_>
    ensures { result ≡ numbered_lines bytes.now }
{
    Lines::over(bytes)
}
