ghost use Rattle.std.specs.Prelude.{◌≡◌, ◌+◌, ◌≤◌, length, IfOk};
ghost use Rattle.project_answers.specs.Lines.{line_at};

use desk_base::OutOfMemory;

/// A place in a text and the line, from 1, that it is on. It goes forward for places that are asked
/// for in order, and begins anew for an earlier one.
#[derive(Drop)]
pub struct LineCursor<'a> {
    text: &'a [u8],
    at: usize,
    line: u32,
    ghost within: { at ≤ length text.now },
    ghost counted: { line ≡ line_at text.now at },
}

fn feeds_between(text: &[u8], from: usize, to: usize) -> usize
    requires in_order { from ≤ to }
    requires within { to ≤ length text.now }
    ensures { line_at text.now from + result ≡ line_at text.now to }
{
    let mut feeds = 0;
    for i in from..to {
        if text[i] == b'\n' {
            feeds += 1;
        }
    }
    feeds
}

impl<'a> LineCursor<'a> {
    /// A cursor at the first byte.
    pub fn new(text: &'a [u8]) -> LineCursor<'a>
        ensures { result.text.now ≡ text.now }
    {
        LineCursor {
            text,
            at: 0,
            line: 1,
        }
    }

    /// The line, from 1, of a place; of one past the end it is the last.
    pub fn line_of(&mut self, place: u32) -> Result<u32, OutOfMemory>
        ensures line { IfOk result (λ line. line ≡ line_at self.old.text.now place) }
        ensures same { self.new.text.now ≡ self.old.text.now }
    {
        let to = self.text.len().min(place as usize);
        let (from, line) = if to < self.at {
            (0, 1)
        } else {
            (self.at, self.line)
        };
        let feeds = feeds_between(self.text, from, to);
        let line = line_after(line, feeds)?;
        self.at = to;
        self.line = line;
        Ok(line)
    }
}

// So many lines further; a text of 2^32 lines is more than memory has room for.
fn line_after(line: u32, feeds: usize) -> Result<u32, OutOfMemory>
    ensures { IfOk result (λ sum. sum ≡ line + feeds) }
{
    let feeds = u32::try_from(feeds).map_err(|_| OutOfMemory)?;
    line.checked_add(feeds).ok_or(OutOfMemory)
}
