//! Lines and columns.
ghost use Rattle.std.specs.Prelude.{◌≡◌, ◌≤◌, ◌+◌, ◌^◌, length, take};
ghost use Rattle.stm_explain.specs.Positions.{next as next_place, place_after, place_from};

/// Where a byte of a file stands.
#[derive(Clone, Copy, Debug, PartialEq, Eq)]
pub struct Position {
    /// Its line, counted from 1.
    pub line: usize,
    /// Its column: the number of bytes before it in its line, plus 1.
    pub column: usize,
}

/// The line and the column after a byte, by those of the byte.
fn next(line: usize, column: usize, byte: u8) -> (usize, usize)
    requires small { line + column ≤ 2 ^ 63 + 1 }
    requires counted { 1 ≤ column }
    ensures place { result ≡ next_place (line, column) byte }
    ensures bounded { result.0 + result.1 ≤ line + column + 1 }
    ensures counted { 1 ≤ result.1 }
{
    if byte == b'\n' {
        (line + 1, 1)
    } else {
        (line, column + 1)
    }
}

/// The position after these bytes, of which the first stands at this one.
pub(crate) fn position_from(at: Position, bytes: &[u8]) -> Position
    requires small { at.line + at.column + length bytes.now ≤ 2 ^ 63 + 1 }
    requires counted { 1 ≤ at.column }
    ensures { (result.line, result.column) ≡ place_from (at.line, at.column) bytes.now }
{
    let mut line = at.line;
    let mut column = at.column;
    for byte in bytes {
        let (next_line, next_column) = next(line, column, *byte);
        line = next_line;
        column = next_column;
    }
    Position { line, column }
}

impl Position {
    /// The position of a text's first byte.
    pub(crate) fn first() -> Position
        ensures { result ≡ record { line = 1; column = 1 } }
    {
        Position { line: 1, column: 1 }
    }
}

/// The position of the byte at an offset of a text, or of the text's end.
///
/// The line is one more than the number of line feeds before it, the column one more than the number of bytes since the last of them.
pub fn position_of(text: &[u8], offset: usize) -> Position
    requires { offset ≤ length text.now }
    ensures { (result.line, result.column) ≡ place_after (take offset text.now) }
{
    position_from(Position::first(), &text[..offset])
}
