//! Numbers that are written as texts, as programs read them.
ghost use Rattle.std.specs.Prelude.{◌≡◌, ◌↔◌, IsTrue, slice_index};
ghost use Rattle.stm_steps.specs.Values.{written_number};
ghost use Rattle.stm_recipes.specs.Accounts.{written_or_none};

/// Whether a text begins with a `+`, which `parse` takes and programs do not.
fn starts_with_plus(text: &str) -> bool
    ensures { IsTrue result ↔ (slice_index text.now 0 ≡ 43) }
{
    let bytes = text.as_bytes();
    !bytes.is_empty() && bytes[0] == b'+'
}

/// The number that a text spells: an optional `-`, then digits.
pub(crate) fn number_in(text: &str) -> Option<i64>
    ensures { result ≡ written_or_none (written_number text.now) }
{
    if starts_with_plus(text) {
        return None;
    }
    match text.parse::<i64>() {
        Ok(number) => Some(number),
        Err(_) => None,
    }
}
