//! A text with several owners.
ghost use Rattle.std.specs.Prelude.{◌≡◌, Some, IfOk};

use std::alloc::{AllocError, Global};
use std::cmp::Ordering;
use std::fmt;
use std::marker::Model;
use std::sync::Arc;
use stm_history::Text;

/// The text of a key, which all events of the key share: it stands once for all of them.
///
/// Contracts see its bytes.
pub struct SharedText {
    text: Arc<Text>,
}

impl Drop for SharedText {
    fn drop(self) {
        let SharedText { text: _ } = self;
    }
}

impl Model for SharedText {
    ghost use Rattle.std.specs.Prelude.{List, ℕ};

    ghost Value = { List ℕ };

    ghost view = { λ s. s.text.value };
}

impl SharedText {
    /// A text that can be shared. It fails where an allocation failed.
    pub fn new(alloc: Global, text: Text) -> Result<SharedText, AllocError>
        ensures { IfOk result (λ s. s ≡ text) }
    {
        let text = Arc::new(alloc, text)?;
        Ok(SharedText { text })
    }

    /// The text.
    pub fn text(&self) -> &Text
        ensures { result.now ≡ self.now }
    {
        &self.text
    }

    /// The text, as a string slice.
    pub fn as_str(&self) -> &str
        ensures { result.now ≡ self.now }
    {
        self.text().as_str()
    }
}

/// It shows the text, as that of a `str` does.
impl fmt::Debug for SharedText {
    fn fmt<W: fmt::Write>(&self, f: &mut fmt::Formatter<W>) -> fmt::Result {
        fmt::Debug::fmt(&self.as_str(), f)
    }
}

/// One more owner of the same text. It takes no memory.
impl Clone for SharedText {
    ghost is_clone = { λ s copy. copy ≡ s };

    fn clone(&self) -> Result<SharedText, AllocError> {
        let text = self.text.clone()?;
        Ok(SharedText { text })
    }
}

impl PartialEq for SharedText {
    ghost use Rattle.std.specs.Prelude.{nat_eq};
    ghost use Rattle.std.specs.Cmp.Lexicographic.{pointwise};
    ghost use Rattle.std.specs.Cmp.Rules.{comparing};
    ghost use Rattle.std.proofs.Common.{rules};

    ghost eq = { pointwise nat_eq };

    ghost laws = { Prim.search (comparing, rules) };

    fn eq(&self, other: &SharedText) -> bool {
        self.text() == other.text()
    }
}

impl Eq for SharedText {
    ghost use Rattle.std.specs.Cmp.Rules.{comparing};
    ghost use Rattle.std.proofs.Common.{rules};

    ghost laws = { Prim.search (comparing, rules) };
}

impl PartialOrd for SharedText {
    ghost use Rattle.std.specs.Ordering.{nat_cmp};
    ghost use Rattle.std.specs.Cmp.Lexicographic.{slice_cmp};
    ghost use Rattle.std.specs.Cmp.Rules.{comparing};
    ghost use Rattle.std.proofs.Common.{rules};

    ghost partial_cmp = { λ a b. Some (slice_cmp nat_cmp a b) };

    ghost laws = { Prim.search (comparing, rules) };

    fn partial_cmp(&self, other: &SharedText) -> Option<Ordering> {
        Some(self.cmp(other))
    }
}

/// By the bytes of the texts.
impl Ord for SharedText {
    ghost use Rattle.std.specs.Ordering.{nat_cmp};
    ghost use Rattle.std.specs.Cmp.Lexicographic.{slice_cmp};
    ghost use Rattle.std.specs.Cmp.Rules.{comparing};
    ghost use Rattle.std.proofs.Common.{rules};

    ghost cmp = { slice_cmp nat_cmp };

    ghost total = { Prim.search (comparing, rules) };

    ghost matches_partial_cmp = { Prim.search (comparing, rules) };

    ghost matches_eq = { Prim.search (comparing, rules) };

    fn cmp(&self, other: &SharedText) -> Ordering {
        self.text().cmp(other.text())
    }
}

impl fmt::Display for SharedText {
    ghost output = { Some };

    fn fmt<W: fmt::Write>(&self, f: &mut fmt::Formatter<W>) -> fmt::Result {
        fmt::Display::fmt(&self.as_str(), f)
    }
}
