//! The names of lists and of their nodes.
ghost use Rattle.std.specs.Prelude.{◌≡◌};

use std::marker::Model;

/// The name of a list. It stays valid until the list is dropped, and may then be given out again.
#[derive(Clone, Copy, PartialEq, Eq, Debug)]
pub struct ListId {
    index: usize,
}

impl Model for ListId {
    ghost use Rattle.std.specs.Prelude.{ℕ};

    ghost Value = { ℕ };

    ghost view = { λ l. l.index };

    ghost inverse = { λ n. record { index = n } };
}

impl ListId {
    pub(crate) fn at(index: usize) -> ListId
        ensures { result ≡ index }
    {
        ListId { index }
    }

    /// The list's number. No two lists have the same, and the number of a dropped list is given out again, so
    /// the numbers stay below the most lists that there were.
    pub fn index(self) -> usize
        ensures { result ≡ self }
    {
        let ListId { index } = self;
        index
    }
}

/// The name of a node. It stays valid until the node is unlinked, and may then be given out again.
#[derive(Clone, Copy, PartialEq, Eq, Debug)]
pub struct NodeId {
    index: usize,
}

impl Model for NodeId {
    ghost use Rattle.std.specs.Prelude.{ℕ};

    ghost Value = { ℕ };

    ghost view = { λ n. n.index };

    ghost inverse = { λ n. record { index = n } };
}

impl NodeId {
    pub(crate) fn at(index: usize) -> NodeId
        ensures { result ≡ index }
    {
        NodeId { index }
    }

    /// The node that a link names.
    pub(crate) fn of_link(link: Option<usize>) -> Option<NodeId>
        ensures { result ≡ link }
    {
        match link {
            Some(index) => Some(NodeId { index }),
            None => None,
        }
    }

    pub(crate) fn index(self) -> usize
        ensures { result ≡ self }
    {
        self.index
    }
}
