//! A text that contracts see as its bytes.
ghost use Rattle.std.specs.Prelude.{◌≡◌, Some, refl, nat_eq, string_bytes, IfOk, IfSome};
ghost use Rattle.std.proofs.Common.{rules};
ghost use Rattle.std.specs.Ordering.{nat_cmp};
ghost use Rattle.std.specs.Hash as fed;
ghost use Rattle.std.specs.Cmp.Rules.{comparing, hashing};
ghost use Rattle.std.specs.Cmp.Lexicographic.{pointwise, slice_cmp};

use arrayvec::ArrayString;
use std::alloc::{AllocError, Global};
use std::cmp::Ordering;
use std::convert::AsStr;
use std::fmt;
use std::hash::{Hash, Hasher};
use std::marker::Model;
use std::sync::Arc;

/// The most bytes of a text that stores them inline.
const SHORT: usize = 24;

/// Where the bytes of a text are stored. Most keys and values are short: no copy of them allocates.
#[derive(Drop)]
pub(crate) enum Bytes {
    /// Inline, in the text itself.
    Short(ArrayString<SHORT>),
    /// In an allocation that this text alone uses.
    Own(String),
    /// In an allocation that all copies of this text use.
    Shared(Arc<String>),
}

/// A text: a key, a value or a message.
///
/// Contracts see its bytes, and never where they are stored. A long text that a copy was made of is stored once for all further copies.
pub struct Text {
    bytes: Bytes,
}

impl Drop for Text {
    fn drop(self) {
        let Text { bytes: _ } = self;
    }
}

impl Model for Text {
    ghost use Rattle.std.specs.Prelude.{List, ℕ};
    ghost use Rattle.stm_history.specs.Texts.{bytes_held};

    ghost Value = { List ℕ };

    ghost view = { λ t. bytes_held t.bytes };
}

/// A text's bytes, stored inline, where it is short.
fn short_of(text: &str) -> Option<ArrayString<SHORT>>
    ensures { IfSome result (λ short. short.bytes ≡ text.now) }
{
    match ArrayString::from(text) {
        Ok(short) => Some(short),
        Err(_) => None,
    }
}

impl Text {
    /// The text of a string. It allocates nothing.
    pub fn new(string: String) -> Text
        ensures { result ≡ string_bytes string }
    {
        let bytes = match short_of(string.as_str()) {
            Some(short) => Bytes::Short(short),
            None => Bytes::Own(string),
        };
        Text { bytes }
    }

    /// The text of a string, of which each copy is made without an allocation. It fails where an allocation failed.
    pub fn shared(alloc: Global, string: String) -> Result<Text, AllocError>
        ensures { IfOk result (λ t. t ≡ string_bytes string) }
    {
        let bytes = match short_of(string.as_str()) {
            Some(short) => Bytes::Short(short),
            None => Bytes::Shared(Arc::new(alloc, string)?),
        };
        Ok(Text { bytes })
    }

    /// A copy of a text, of which each further copy is made without an allocation. A short one allocates nothing.
    pub fn copy_of(alloc: Global, text: &str) -> Result<Text, AllocError>
        ensures { IfOk result (λ t. t ≡ text.now) }
    {
        let bytes = match short_of(text) {
            Some(short) => Bytes::Short(short),
            None => Bytes::Shared(Arc::new(alloc, String::from_str(alloc, text)?)?),
        };
        Ok(Text { bytes })
    }

    /// The text, as a string slice.
    pub fn as_str(&self) -> &str
        ensures { result.now ≡ self.now }
    {
        match &self.bytes {
            Bytes::Short(short) => short.as_str(),
            Bytes::Own(string) => string.as_str(),
            Bytes::Shared(string) => string.as_str(),
        }
    }
}

impl From<String> for Text {
    ghost from_gives = { λ s t. t ≡ string_bytes s };

    fn from(string: String) -> Text {
        Text::new(string)
    }
}

impl AsStr for Text {
    ghost text = { λ t. t };

    fn as_str(&self) -> &str {
        Text::as_str(self)
    }
}

impl fmt::Display for Text {
    ghost output = { Some };

    fn fmt<W: fmt::Write>(&self, f: &mut fmt::Formatter<W>) -> fmt::Result {
        fmt::Display::fmt(&self.as_str(), f)
    }
}

/// It shows the text, as that of a `str` does.
impl fmt::Debug for Text {
    fn fmt<W: fmt::Write>(&self, f: &mut fmt::Formatter<W>) -> fmt::Result {
        fmt::Debug::fmt(&self.as_str(), f)
    }
}

impl Clone for Text {
    ghost is_clone = { λ t copy. copy ≡ t };

    // (inlined, so that a copy is made where it is to stand)
    #[inline(always)]
    fn clone(&self) -> Result<Text, AllocError> {
        let bytes = match &self.bytes {
            Bytes::Short(short) => Bytes::Short(*short),
            Bytes::Own(string) => Bytes::Shared(Arc::new(*string.allocator(), string.clone()?)?),
            Bytes::Shared(string) => Bytes::Shared(string.clone()?),
        };
        Ok(Text { bytes })
    }
}

impl PartialEq for Text {
    ghost eq = { pointwise nat_eq };

    ghost laws = { Prim.search (comparing, rules) };

    fn eq(&self, other: &Text) -> bool {
        self.as_str() == other.as_str()
    }
}

impl Eq for Text {
    ghost laws = { Prim.search (comparing, rules) };
}

impl PartialOrd for Text {
    ghost partial_cmp = { λ a b. Some (slice_cmp nat_cmp a b) };

    ghost laws = { Prim.search (comparing, rules) };

    fn partial_cmp(&self, other: &Text) -> Option<Ordering> {
        Some(self.cmp(other))
    }
}

impl Ord for Text {
    ghost cmp = { slice_cmp nat_cmp };

    ghost total = { Prim.search (comparing, rules) };

    ghost matches_partial_cmp = { Prim.search (comparing, rules) };

    ghost matches_eq = { Prim.search (comparing, rules) };

    fn cmp(&self, other: &Text) -> Ordering {
        self.as_str().cmp(other.as_str())
    }
}

impl Hash for Text {
    ghost hash_input = { fed.str };

    ghost respects_eq = { Prim.search (hashing, rules) };

    fn hash<H: Hasher>(&self, state: &mut H) {
        self.as_str().hash(state);
    }
}
