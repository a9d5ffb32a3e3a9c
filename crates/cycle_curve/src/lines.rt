//! The lines of a text.
ghost use Rattle.std.specs.Prelude.{◌≡◌, ◌∷◌, ◌+◌, ◌^◌, ◌<◌, ◌≤◌, ◌↔◌, IsTrue, length, take, drop};
ghost use Rattle.cycle_curve.specs.Lines.{EndsLine, lines_of, HasItsLines};

use junction_model::Junction;

/// What ends a line, and nothing else does: a carriage return before it is white space of the line.
pub const LINE_FEED: u8 = b'\n';

/// How many lines the bytes have.
fn line_count(bytes: &[u8]) -> usize
    ensures { result ≡ length (lines_of bytes.now) }
{
    let mut count = 0;
    for at in 0..bytes.len() {
        if bytes[at] == LINE_FEED {
            count += 1;
        }
    }
    count
}

/// Whether the last byte is a line feed.
fn ends_line(bytes: &[u8]) -> bool
    ensures { IsTrue result ↔ EndsLine bytes.now }
{
    !bytes.is_empty() && bytes[bytes.len() - 1] == LINE_FEED
}

/// Whether the bytes end with a line feed and have as many lines as the junction has cycles.
pub fn has_its_lines(junction: &Junction, bytes: &[u8]) -> bool
    ensures { IsTrue result ↔ HasItsLines junction.now bytes.now }
{
    junction.rules();
    let cycles = (junction.greatest_cycle() - junction.least_cycle() + 1) as usize;
    ends_line(bytes) && line_count(bytes) == cycles
}

/// The place of the first line feed.
pub fn line_end(bytes: &[u8]) -> usize
    requires { 1 ≤ length (lines_of bytes.now) }
    ensures within { result < length bytes.now }
    ensures short { result + 1 < 2 ^ 64 }
    ensures lines { lines_of bytes.now
        ≡ take result bytes.now ∷ lines_of (drop (result + 1) bytes.now) }
{
    for end in 0..bytes.len() {
        if bytes[end] == LINE_FEED {
            return end;
        }
    }
    unreachable!()
}
