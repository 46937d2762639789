//! Lines and columns.
ghost use Rattle.std.specs.Prelude.{◌≡◌, ◌≤◌, ◌<◌, ◌+◌, ◌^◌, length, take};
ghost use Rattle.stm_tokens.specs.Positions.{next as next_place, place_from, place_after};

/// Where something stands in a source.
#[derive(Clone, Copy, Debug, PartialEq, Eq)]
pub struct Position {
    /// Its line, counted from 1.
    pub line: usize,
    /// Its column: the number of characters before it in its line, plus 1.
    pub column: usize,
}

/// The line and the column after a byte, by those of the byte.
fn next(line: usize, column: usize, byte: u8) -> (usize, usize)
    requires small { line + column ≤ 2 ^ 63 + 1 }
    requires counted { 1 ≤ column }
    ensures place { result ≡ next_place (line, column) byte }
    ensures bounded { result.0 + result.1 ≤ line + column + 1 }
    ensures counted { 1 ≤ result.1 }
{
    if byte == b'\n' {
        (line + 1, 1)
    } else if (128..192).contains(&byte) {
        (line, column)
    } else {
        (line, column + 1)
    }
}

/// The position of the byte at an offset of a source, or of its end.
///
/// The line is one more than the number of line feeds before it, the column one more than the number of characters since the last of them.
pub fn position_of(source: &[u8], offset: usize) -> Position
    requires offset { offset ≤ length source.now }
    requires short { length source.now < 2 ^ 63 }
    ensures { (result.line, result.column) ≡ place_after (take offset source.now) }
{
    let mut line = 1;
    let mut column = 1;
    for byte in &source[..offset] {
        let (next_line, next_column) = next(line, column, *byte);
        line = next_line;
        column = next_column;
    }
    Position { line, column }
}
