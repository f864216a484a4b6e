ghost use Rattle.loader.specs.Sites.{Built, onward, still};

use crate::builder::Builder;
use crate::kinds::{container_kind, kind_of};
use text::sink::{Container, LeafKind, Sink};

/// What the reader reports becomes nodes: leaves and containers behind the children of the node where the builder stands.
impl Sink for Builder {
    ghost after = { Built };

    ghost idle = { still };

    ghost joined = { onward };

    fn put(&mut self, kind: LeafKind, bytes: &[u8]) {
        let _ = self.add(kind_of(kind), kind.kept(bytes));
    }

    fn enter(&mut self, container: Container) {
        if let Some(place) = self.add(container_kind(container), &[]) {
            self.at = place;
        }
    }

    fn leave(&mut self, _container: Container) {
        if let Some(parent) = self.table.parent(self.at) {
            self.at = parent;
        }
    }
}
