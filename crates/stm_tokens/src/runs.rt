//! How far bytes of one kind reach.
ghost use Rattle.std.specs.Prelude.{◌≡◌, ◌≤◌, length};
ghost use Rattle.stm_tokens.specs.Runs.{is_in, run};

/// A kind of bytes.
#[derive(Clone, Copy, Debug, PartialEq, Eq)]
pub(crate) enum Run {
    /// Spaces, tabs, CR and LF.
    Blank,
    /// All up to a LF.
    Comment,
    /// Letters, digits and `_`.
    Name,
    /// Digits.
    Digits,
    /// Bytes of a text in quotes that stand for themselves: no quote, no backslash and no control character.
    Plain,
}

/// Whether a byte is a letter or `_`, with which a name begins.
pub(crate) fn begins_name(byte: u8) -> bool
    ensures { result ≡ Rattle.stm_tokens.specs.Runs.begins_name byte }
{
    matches!(byte, b'a'..=b'z' | b'A'..=b'Z' | b'_')
}

/// Whether a byte is a digit.
pub(crate) fn is_digit(byte: u8) -> bool
    ensures { result ≡ Rattle.stm_tokens.specs.Runs.is_digit byte }
{
    matches!(byte, b'0'..=b'9')
}

/// Whether a byte is of a kind.
fn is_of(kind: Run, byte: u8) -> bool
    ensures { result ≡ is_in kind byte }
{
    match kind {
        Run::Blank => matches!(byte, b' ' | b'\t' | b'\r' | b'\n'),
        Run::Comment => byte != b'\n',
        Run::Name => begins_name(byte) || is_digit(byte),
        Run::Digits => is_digit(byte),
        Run::Plain => byte != b'"' && byte != b'\\' && byte >= b' ',
    }
}

/// How many bytes at the start are of a kind.
pub(crate) fn run_length(kind: Run, bytes: &[u8]) -> usize
    ensures is { result ≡ run kind bytes.now }
    ensures within { result ≤ length bytes.now }
{
    for (index, byte) in bytes.iter().enumerate() {
        if !is_of(kind, *byte) {
            return index;
        }
    }
    bytes.len()
}
