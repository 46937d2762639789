//! A list that keeps its first elements in the value itself.
ghost use Rattle.std.specs.Prelude.{◌≡◌, ◌<◌, ◌↔◌, [], ◌∷◌, ◌++◌, length, IsSome, IfOk, OnOk, OnErr};
ghost use Rattle.std.specs.Option.{option_to_list};

use smallvec::SmallVec;
use std::alloc::{AllocError, Global};
use std::default::MadeWith;
use std::fmt;
use std::marker::Model;

/// A list that mostly has few elements: the first one is stored in it, without an allocation.
///
/// Contracts see its elements in order, and never where they are stored. It is made from a `Vec` without an
/// allocation, and gives one back without an allocation where it has spilled.
pub struct ShortList<T> {
    items: SmallVec<T, 1>,
}

impl<T: Drop> Drop for ShortList<T> {
    #[inline(always)]
    fn drop(self) {
        let ShortList { items: _ } = self;
    }
}

impl<T> Model for ShortList<T> {
    ghost use Rattle.std.specs.Prelude.{List};

    ghost Value = { List T };

    ghost view = { λ s. s.items.items };
}

impl<T> ShortList<T> {
    /// The number of elements.
    pub fn len(&self) -> usize
        ensures { result ≡ length self.now }
    {
        self.items.len()
    }

    /// The elements in order.
    pub fn as_slice(&self) -> &[T]
        ensures { result.now ≡ self.now }
    {
        self.items.as_slice()
    }
}

impl<T> ShortList<T> {
    /// The list of one element. It takes no memory.
    pub fn one(alloc: Global, item: T) -> ShortList<T>
        ensures { result ≡ item ∷ [] }
    {
        ShortList {
            items: SmallVec::from_buf(alloc, [item]),
        }
    }
}

impl<T: MadeWith<Global> + Drop> ShortList<T> {
    /// The empty list. It allocates nothing.
    pub fn new(alloc: Global) -> ShortList<T>
        ensures { result ≡ [] }
    {
        ShortList {
            items: SmallVec::new(alloc),
        }
    }

    /// The list of a vector's elements. It allocates nothing.
    pub fn of(items: Vec<T>) -> ShortList<T>
        ensures { result ≡ items.items }
    {
        ShortList {
            items: SmallVec::from_vec(items),
        }
    }

    /// Adds an element at the end. An allocation failure leaves the list as it was.
    pub fn push(&mut self, item: T) -> Result<(), AllocError>
        ensures ok { OnOk result (self.new ≡ self.old ++ item ∷ []) }
        ensures err { OnErr result (self.new ≡ self.old) }
    {
        self.items.push(item)?;
        Ok(())
    }

    /// Makes room for `count` more elements. It fails only when out of memory.
    pub fn reserve(&mut self, count: usize) -> Result<(), AllocError>
        ensures { self.new ≡ self.old }
    {
        self.items.reserve_exact(count)?;
        Ok(())
    }

    /// The vector of the elements. It allocates only where the elements are stored in the list itself.
    pub fn into_vec(self) -> Result<Vec<T>, AllocError>
        ensures { IfOk result (λ v. v.items ≡ self) }
    {
        let ShortList { items } = self;
        let vec = items.into_vec()?;
        Ok(vec)
    }

    /// Takes the last element out, if there is one. It takes no memory.
    pub fn pop(&mut self) -> Option<T>
        ensures items { self.old ≡ self.new ++ option_to_list result }
        ensures some { IsSome result ↔ (0 < length self.old) }
    {
        self.items.pop()
    }
}

impl<T: MadeWith<Global>> From<SmallVec<T, 1>> for ShortList<T> {
    ghost from_gives = { λ small list. list ≡ small.items };

    fn from(items: SmallVec<T, 1>) -> ShortList<T> {
        ShortList { items }
    }
}

/// It shows the elements, as that of a `Vec` does.
impl<T: fmt::Debug> fmt::Debug for ShortList<T> {
    fn fmt<W: fmt::Write>(&self, f: &mut fmt::Formatter<W>) -> fmt::Result {
        f.debug_list().entries(self.as_slice()).finish()
    }
}

impl<T: MadeWith<Global> + Clone> Clone for ShortList<T> {
    ghost use Rattle.std.specs.List.{AllZip};

    ghost is_clone = { AllZip T.is_clone };

    fn clone(&self) -> Result<ShortList<T>, AllocError> {
        let items = self.items.clone()?;
        Ok(ShortList { items })
    }
}
