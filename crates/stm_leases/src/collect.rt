//! A walk over a list.
ghost use Rattle.std.specs.Prelude.{◌≡◌, map, IfOk, string_bytes};
ghost use Rattle.stm_lists.specs.Lists.{HasList, entries_at};

use std::alloc::{AllocError, Global};
use stm_lists::{ListId, Lists};

/// Clones of the texts on a list, from front to back.
pub(crate) fn texts(
    alloc: Global,
    lists: &Lists<String>,
    list: ListId,
) -> Result<Vec<String>, AllocError>
    requires { HasList lists.now list }
    ensures { IfOk result (λ texts. map string_bytes texts.items ≡ map (λ e. string_bytes e.1) (entries_at lists.now list)) }
{
    let mut texts = Vec::with_capacity(alloc, lists.len(list))?;
    let mut next = lists.front(list);
    while let Some(node) = next {
        texts.push(lists.get(node).clone()?)?;
        next = lists.next(node);
    }
    Ok(texts)
}
