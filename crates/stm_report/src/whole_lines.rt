//! The lines of texts, and the first line in which two texts are not alike.
ghost use Rattle.std.specs.Prelude.{◌≡◌, ◌≤◌, length, option_map};
ghost use Rattle.stm_report.specs.WholeLines.{is_line_feed as is_line_feed_byte, line_end as end_of_line, lines_in, first_unlike as unlike_from};

fn is_line_feed(byte: u8) -> bool
    ensures { result ≡ is_line_feed_byte byte }
{
    byte == b'\n'
}

/// How many bytes the first line has, its line feed with it.
fn line_end(bytes: &[u8]) -> usize
    ensures length { result ≡ end_of_line bytes.now }
    ensures within { result ≤ length bytes.now }
{
    for (index, byte) in bytes.iter().enumerate() {
        if is_line_feed(*byte) {
            return index + 1;
        }
    }
    bytes.len()
}

/// The first line in which two texts are not alike, counted from 1, and what the first text has there, its line feed with it:
/// nothing where that text has ended. `None` where they are alike to their ends.
pub fn first_unlike<'a>(expected: &'a [u8], given: &[u8]) -> Option<(u64, &'a [u8])>
    ensures { option_map (λ p. (p.0, p.1.now)) result ≡ unlike_from 1 (lines_in expected.now) (lines_in given.now) }
{
    let mut left = expected;
    let mut reported = given;
    let mut number: usize = 1;
    while !left.is_empty() {
        let (line, left_after) = left.split_at(line_end(left));
        let (reported_line, reported_after) = reported.split_at(line_end(reported));
        if line != reported_line {
            return Some((number as u64, line));
        }
        left = left_after;
        reported = reported_after;
        number += 1;
    }
    if reported.is_empty() {
        None
    } else {
        Some((number as u64, left))
    }
}
