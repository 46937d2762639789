//! Where a run stops.
ghost use Rattle.std.specs.Prelude.{◌≡◌, ◌++◌, [], ◌∷◌, IfOk};
ghost use Rattle.stm_sites.specs.Sites.{here, inside};

use std::alloc::{AllocError, Global};
use stm_program::Operator;
use stm_steps::{Sequence, Value};

/// What the node at which a run stops makes of what its parts gave, as far as its faults depend on that.
#[derive(Clone, Copy, Debug, PartialEq, Eq)]
pub enum Node {
    /// The result of an operator on two numbers.
    Operation(Operator),
    /// The turns of a loop, at most this many.
    Loop(u64),
    /// Something else of a number.
    OfNumber,
    /// Something else of one text or of two.
    OfText,
    /// A comparison of two values of one kind.
    Comparison,
}

/// Where a run stops: at the innermost node of its program that comes to the stop. The first index of its place names the statement that the
/// node is in.
#[derive(Debug, Drop)]
pub struct Site {
    /// The indices that lead to the node in the program's JSON, each in the array that the ones before it lead to.
    pub place: Sequence<usize>,
    /// What the node makes of its parts.
    pub node: Node,
    /// What the node's parts gave, in order, where the node itself stopped the run.
    pub values: Sequence<Value>,
}

/// These values and a copy of one more after them.
fn with_value(values: Sequence<Value>, value: &Value) -> Result<Sequence<Value>, AllocError>
    ensures { IfOk result (λ all. all ≡ values ++ value.now ∷ []) }
{
    let mut all = values;
    let value = value.clone()?;
    all.push(value)?;
    Ok(all)
}

/// Copies of two values.
fn two_values(alloc: Global, left: &Value, right: &Value) -> Result<Sequence<Value>, AllocError>
    ensures { IfOk result (λ all. all ≡ left.now ∷ right.now ∷ []) }
{
    let values = with_value(Sequence::new(alloc), left)?;
    let values = with_value(values, right)?;
    Ok(values)
}

/// A place in the part at an index of a node, as one in the node.
fn place_within(place: Sequence<usize>, index: usize) -> Result<Sequence<usize>, AllocError>
    ensures { IfOk result (λ all. all ≡ index ∷ place) }
{
    let mut place = place.into_vec();
    place.insert(0, index)?;
    Ok(Sequence::of(place))
}

impl Site {
    /// The node at hand, whose parts gave these values.
    fn of(alloc: Global, node: Node, values: Sequence<Value>) -> Site
        ensures { result ≡ here node values }
    {
        Site {
            place: Sequence::new(alloc),
            node,
            values,
        }
    }

    /// The node at hand, with no values.
    pub(crate) fn bare(alloc: Global, node: Node) -> Site
        ensures { result ≡ here node [] }
    {
        Site::of(alloc, node, Sequence::new(alloc))
    }

    /// The node at hand, whose part gave this value.
    pub(crate) fn of_one(alloc: Global, node: Node, value: &Value) -> Result<Site, AllocError>
        ensures { IfOk result (λ site. site ≡ here node (value.now ∷ [])) }
    {
        let values = with_value(Sequence::new(alloc), value)?;
        Ok(Site::of(alloc, node, values))
    }

    /// The node at hand, whose parts gave these two values.
    pub(crate) fn of_two(
        alloc: Global,
        node: Node,
        left: &Value,
        right: &Value,
    ) -> Result<Site, AllocError>
        ensures { IfOk result (λ site. site ≡ here node (left.now ∷ right.now ∷ [])) }
    {
        let values = two_values(alloc, left, right)?;
        Ok(Site::of(alloc, node, values))
    }

    /// The site in the part at an index of a node, as one in the node.
    pub(crate) fn within(self, index: usize) -> Result<Site, AllocError>
        ensures { IfOk result (λ site. site ≡ inside index self) }
    {
        let place = match place_within(self.place, index) {
            Ok(place) => place,
            Err(_) => {
                drop(self.values);
                return Err(AllocError);
            }
        };
        Ok(Site {
            place,
            node: self.node,
            values: self.values,
        })
    }
}
