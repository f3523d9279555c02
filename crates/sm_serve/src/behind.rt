//! Text behind the `end` of an instance.

ghost use Rattle.std.specs.Prelude.{◌≡◌, ◌≤◌, ◌+◌, ◌<◌, ◌^◌, length, drop, Ok};
ghost use Rattle.sm_text.specs.Limits.{most_bytes};
ghost use Rattle.sm_text.specs.Lines.{lines};
ghost use Rattle.sm_text.specs.Tokens.{tokens};
ghost use Rattle.sm_reader.specs.InstanceText.{instance_text, read_of};
ghost use Rattle.sm_serve.specs.Refusals.{first_saying, has_tokens};

use sm_reader::Read;
use sm_text::{TokenAt, line_at, token_at};

/// The number of the first line behind `end` that is neither blank nor a comment, counted from 1 over the whole text that was
/// read. Takes time linear in the bytes behind `end` up to that line.
pub fn text_behind(bytes: &[u8], read: &Read) -> Option<u32>
    requires short { length bytes.now ≤ most_bytes }
    requires read { instance_text bytes.now ≡ Ok (read_of read.now) }
    ensures { result
        ≡ first_saying read.now.rest_line (lines (drop read.now.rest bytes.now)) }
{
    first_saying(bytes, read.rest, read.rest_line)
}

/// The number of the first line from a place on that says something, where the line at that place has this number.
fn first_saying(bytes: &[u8], from: usize, number: u32) -> Option<u32>
    requires few { number + length (lines (drop from bytes.now)) < 2 ^ 32 }
    ensures { result ≡ first_saying number (lines (drop from bytes.now)) }
{
    let mut at = from;
    let mut line_number = number;
    'lines: while let Some(line) = line_at(bytes, at) {
        if says_something(&bytes[line.start..line.stop]) {
            return Some(line_number);
        }
        line_number += 1;
        at = line.next;
    }
    None
}

/// Is a line neither blank nor a comment?
fn says_something(line: &[u8]) -> bool
    ensures { result ≡ has_tokens (tokens line.now) }
{
    match token_at(line, 0) {
        TokenAt::Over => false,
        TokenAt::Run(_, _) => true,
        TokenAt::Mark(_) => true,
        TokenAt::Bad(_) => true,
    }
}
