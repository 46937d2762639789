//! The byte at which a token of JSON goes wrong.

/// What is wrong with a token, and at which of its bytes.
#[derive(Clone, Copy)]
pub(crate) struct Slip {
    /// How many bytes of the token stand before it.
    pub(crate) offset: usize,
    /// What is wrong there.
    pub(crate) wrong: Wrong,
}

/// What can be wrong within a token.
#[derive(Clone, Copy)]
pub(crate) enum Wrong {
    /// A byte that cannot stand there.
    Byte,
    /// A control character that stands in a text as it is.
    Control,
    /// A backslash that begins no escape.
    Escape,
    /// An escape that is not four hexadecimal digits long.
    Digits,
    /// An escape of half of a surrogate pair, whose other half is not there.
    Half,
}

/// Where the reading of a text is.
#[derive(Clone, Copy)]
enum Within {
    /// Between characters.
    Text,
    /// After a backslash.
    Escape,
    /// After the digits of an escape, of which so many are missing, and what they spell.
    Digits { missing: u8, code: u32 },
}

/// How a text of JSON is read, byte by byte.
#[derive(Clone, Copy)]
struct TextReading {
    within: Within,
    /// Where the last escape began.
    escape: usize,
    /// Where the first half of a surrogate pair stands, where the second is due.
    half: Option<usize>,
}

/// The value of a hexadecimal digit.
fn digit_of(byte: u8) -> Option<u32> {
    match byte {
        b'0'..=b'9' => Some(u32::from(byte) - 48),
        b'a'..=b'f' => Some(u32::from(byte) - 87),
        b'A'..=b'F' => Some(u32::from(byte) - 55),
        _ => None,
    }
}

/// A slip at a byte.
fn slip_at(offset: usize, wrong: Wrong) -> Option<Slip> {
    Some(Slip { offset, wrong })
}

impl TextReading {
    /// Takes a byte between characters.
    fn take_plain(&mut self, offset: usize, byte: u8) -> Option<Slip> {
        if byte < 32 {
            return slip_at(offset, Wrong::Control);
        }
        if byte == b'\\' {
            self.within = Within::Escape;
            self.escape = offset;
            return None;
        }
        match self.half {
            Some(half) => slip_at(half, Wrong::Half),
            None => None,
        }
    }

    /// Takes the byte after a backslash.
    fn take_escape(&mut self, byte: u8) -> Option<Slip> {
        if byte == b'u' {
            self.within = Within::Digits {
                missing: 4,
                code: 0,
            };
            return None;
        }
        if let Some(half) = self.half {
            return slip_at(half, Wrong::Half);
        }
        self.within = Within::Text;
        match byte {
            b'"' | b'\\' | b'/' | b'b' | b'f' | b'n' | b'r' | b't' => None,
            _ => slip_at(self.escape, Wrong::Escape),
        }
    }

    /// Takes what an escape spells.
    fn take_code(&mut self, code: u32) -> Option<Slip> {
        self.within = Within::Text;
        let half = self.half;
        self.half = None;
        match (half, code) {
            (Some(_), 0xdc00..=0xdfff) => None,
            (Some(half), _) => slip_at(half, Wrong::Half),
            (None, 0xd800..=0xdbff) => {
                self.half = Some(self.escape);
                None
            }
            (None, 0xdc00..=0xdfff) => slip_at(self.escape, Wrong::Half),
            (None, _) => None,
        }
    }

    /// Takes a digit of an escape.
    fn take_digit(&mut self, missing: u8, code: u32, byte: u8) -> Option<Slip> {
        let Some(digit) = digit_of(byte) else {
            return slip_at(self.escape, Wrong::Digits);
        };
        let code = code.wrapping_mul(16).wrapping_add(digit);
        if missing > 1 {
            self.within = Within::Digits {
                missing: missing - 1,
                code,
            };
            return None;
        }
        self.take_code(code)
    }

    /// Takes a byte.
    fn take(&mut self, offset: usize, byte: u8) -> Option<Slip> {
        match self.within {
            Within::Text => self.take_plain(offset, byte),
            Within::Escape => self.take_escape(byte),
            Within::Digits { missing, code } => self.take_digit(missing, code, byte),
        }
    }

    /// Whether a byte ends the text.
    fn is_end(&self, byte: u8) -> bool {
        byte == b'"' && self.half.is_none() && matches!(self.within, Within::Text)
    }
}

/// What is wrong with the text that these bytes begin with.
fn slip_of_text(bytes: &[u8]) -> Option<Slip> {
    let mut reading = TextReading {
        within: Within::Text,
        escape: 0,
        half: None,
    };
    for (offset, byte) in bytes.iter().enumerate().skip(1) {
        if reading.is_end(*byte) {
            return None;
        }
        if let Some(slip) = reading.take(offset, *byte) {
            return Some(slip);
        }
    }
    None
}

/// Where the reading of a number is.
#[derive(Clone, Copy, PartialEq, Eq)]
enum Place {
    Start,
    Minus,
    Zero,
    Digits,
    Point,
    Fraction,
    Letter,
    Sign,
    Exponent,
}

/// Where the reading of a number is after a byte; `None` where the byte does not go on with it.
fn after(place: Place, byte: u8) -> Option<Place> {
    match (place, byte) {
        (Place::Start, b'-') => Some(Place::Minus),
        (Place::Start | Place::Minus, b'0') => Some(Place::Zero),
        (Place::Start | Place::Minus | Place::Digits, b'0'..=b'9') => Some(Place::Digits),
        (Place::Zero | Place::Digits, b'.') => Some(Place::Point),
        (Place::Point | Place::Fraction, b'0'..=b'9') => Some(Place::Fraction),
        (Place::Zero | Place::Digits | Place::Fraction, b'e' | b'E') => Some(Place::Letter),
        (Place::Letter, b'+' | b'-') => Some(Place::Sign),
        (Place::Letter | Place::Sign | Place::Exponent, b'0'..=b'9') => Some(Place::Exponent),
        _ => None,
    }
}

/// Whether a number may end there.
fn is_whole(place: Place) -> bool {
    matches!(
        place,
        Place::Zero | Place::Digits | Place::Fraction | Place::Exponent
    )
}

/// Whether a byte may stand after a value.
fn is_after_a_value(byte: u8) -> bool {
    matches!(
        byte,
        b' ' | b'\t' | b'\n' | b'\r' | b',' | b':' | b']' | b'}'
    )
}

/// What is wrong with the number that these bytes begin with.
fn slip_of_number(bytes: &[u8]) -> Option<Slip> {
    let mut place = Place::Start;
    for (offset, byte) in bytes.iter().enumerate() {
        match after(place, *byte) {
            Some(next) => place = next,
            None if is_whole(place) && is_after_a_value(*byte) => return None,
            None => return slip_at(offset, Wrong::Byte),
        }
    }
    None
}

/// What is wrong with the word that these bytes begin with, which is to be this one.
fn slip_of_word(bytes: &[u8], word: &[u8]) -> Option<Slip> {
    for (offset, byte) in bytes.iter().enumerate() {
        match word.get(offset) {
            Some(wanted) if *wanted == *byte => {}
            None if is_after_a_value(*byte) => return None,
            _ => return slip_at(offset, Wrong::Byte),
        }
    }
    None
}

/// What is wrong within the token that these bytes begin with; `None` where it is a token, or its first byte begins none.
pub(crate) fn slip_of(bytes: &[u8]) -> Option<Slip> {
    match bytes.first() {
        Some(b'"') => slip_of_text(bytes),
        Some(b'-' | b'0'..=b'9') => slip_of_number(bytes),
        Some(b't') => slip_of_word(bytes, b"true"),
        Some(b'f') => slip_of_word(bytes, b"false"),
        Some(b'n') => slip_of_word(bytes, b"null"),
        _ => None,
    }
}
