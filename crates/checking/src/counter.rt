//! A sink that only counts.

ghost use Rattle.std.specs.Prelude.{◌≡◌, ℕ, List};
ghost use Rattle.checking.specs.Counted.{Counted, level, onward, remark, still};
ghost use Rattle.text.specs.Events.{box_for, leaf_for};

use crate::extent::Extent;
use text::sink::{Container, LeafKind, Sink};

/// Counts what it is told; a count that is full stays so.
#[derive(Clone, Copy)]
pub struct Counter {
    /// what it has counted
    pub seen: Extent,
    /// how deep the reader stands
    pub depth: usize,
}

impl Counter {
    /// A counter that has seen the root of a document.
    pub fn new() -> Counter
        ensures { result ≡ record { seen = record { nodes = 1; stored = 0; levels = 0; comments = 0 }; depth = 0 } }
    {
        Counter {
            seen: Extent {
                nodes: 1,
                stored: 0,
                levels: 0,
                comments: 0,
            },
            depth: 0,
        }
    }
}

/// How many comments the leaf is.
fn comments_of(kind: LeafKind) -> usize
    ensures { (t : List ℕ) → result ≡ remark (leaf_for kind t) }
{
    usize::from(matches!(kind, LeafKind::LineComment | LeafKind::BlockComment))
}

/// How many levels the container is.
fn levels_of(container: Container) -> usize
    ensures { result ≡ level (box_for container) }
{
    usize::from(matches!(container, Container::Array | Container::Object))
}

impl Sink for Counter {
    ghost after = { Counted };

    ghost idle = { still };

    ghost joined = { onward };

    fn put(&mut self, kind: LeafKind, bytes: &[u8]) {
        self.seen.nodes = self.seen.nodes.saturating_add(1);
        self.seen.stored = self.seen.stored.saturating_add(kind.kept(bytes).len());
        self.seen.comments = self.seen.comments.saturating_add(comments_of(kind));
    }

    fn enter(&mut self, container: Container) {
        self.seen.nodes = self.seen.nodes.saturating_add(1);
        self.depth = self.depth.saturating_add(levels_of(container));
        self.seen.levels = self.seen.levels.max(self.depth);
    }

    fn leave(&mut self, container: Container) {
        self.depth = self.depth.saturating_sub(levels_of(container));
    }
}
