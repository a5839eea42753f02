ghost use Rattle.std.specs.Prelude.{◌≡◌, ◌+◌, ◌<◌, ◌≤◌, ◌^◌, ◌==◌, length, count_by};
ghost use Rattle.java_reader.specs.Reads.{line_number};

/// How many line feeds a text has.
fn line_feeds(text: &[u8]) -> usize
    ensures count { result ≡ count_by (λ byte. byte == 10) text.now }
    ensures few { result ≤ length text.now }
{
    text.iter().filter(|byte| **byte == b'\n').count()
}

/// The line of a place in a text, from 1: one more than the line feeds before it. A line feed is
/// itself on the line that it ends.
pub fn line_of(text: &[u8], at: u32) -> u32
    requires { at + 1 < 2 ^ 32 }
    ensures { result ≡ line_number text.now at }
{
    let before = &text[..text.len().min(at as usize)];
    line_feeds(before) as u32 + 1
}
