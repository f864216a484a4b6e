ghost use Rattle.std.specs.Prelude.{◌≡◌};
ghost use Rattle.table.specs.Nodes.{leaf};

use crate::kind::Kind;
use crate::link::Link;

/// Where a node stands in the table.
pub type Place = u16;

/// A node's own data: its number, its kind, and where its bytes stand in the text store.
#[derive(Clone, Copy)]
pub struct Own {
    /// 0 in the record of a free place, and no `Option` around it, since a record is to have 32 bytes.
    pub number: u32,
    pub kind: Kind,
    pub start: u32,
    pub len: u32,
}

/// A place, and the number of the node that is meant there.
#[derive(Clone, Copy, Debug, PartialEq, Eq)]
pub struct Handle {
    pub place: Place,
    pub number: u32,
}

/// A record of the table, of 32 bytes: a node with its links, or, with the number 0, a free place.
#[derive(Clone, Copy)]
pub struct Node {
    pub own: Own,
    pub parent: Link,
    pub prev: Link,
    pub next: Link,
    pub first: Link,
    pub last: Link,
}

impl Node {
    /// A record that leads nowhere.
    pub fn alone(own: Own) -> Node
        ensures { result ≡ leaf own 65535 65535 65535 }
    {
        Node {
            own,
            parent: Link::NOWHERE,
            prev: Link::NOWHERE,
            next: Link::NOWHERE,
            first: Link::NOWHERE,
            last: Link::NOWHERE,
        }
    }
}
