ghost use Rattle.std.specs.Prelude.{◌≡◌, ◌≤◌, length};
ghost use Rattle.model.specs.Asks.{break_kind, breaks, newline_kind};
ghost use Rattle.tree.specs.Steps.{spot};
ghost use Rattle.tree.specs.Trees.{kids, state};
ghost use Rattle.line_break.specs.Breaks.{break_for};
ghost use Rattle.style.specs.Breaks.{kind_for, kinds_for};

use crate::levels::first_by_level;
use table::{Kind, Place};
use tree::{Node, Tree};

/// The line break that a document is written with. A lone carriage return counts as a line feed.
#[derive(Clone, Copy, PartialEq, Eq, Debug)]
pub enum NewlineKind {
    LineFeed,
    CarriageReturnLineFeed,
}

/// What a Newline counts as.
fn counted(newline: table::NewlineKind) -> NewlineKind
    ensures { kind_for result ≡ break_kind (break_for newline) }
{
    match newline {
        table::NewlineKind::LineFeed => NewlineKind::LineFeed,
        table::NewlineKind::CarriageReturn => NewlineKind::LineFeed,
        table::NewlineKind::CarriageReturnLineFeed => NewlineKind::CarriageReturnLineFeed,
    }
}

/// What the node counts as, if it is a Newline.
fn newline_at(node: Node<'_>) -> Option<NewlineKind>
    ensures { kinds_for result ≡ breaks (spot node.entry).here.own.sort (spot node.entry).kids }
{
    match node.kind() {
        Kind::Newline(newline) => Some(counted(newline)),
        _ => None,
    }
}

/// The document's line break: that of the first Newline, level by level, else a line feed.
/// The queue has a place for each record of the tree.
pub fn newline_kind_in(tree: &Tree, queue: &mut [Place]) -> NewlineKind
    requires { (state tree.now).records ≤ length queue.old }
    ensures { kind_for result ≡ newline_kind (kids tree.now) }
{
    first_by_level(tree.root(), queue, newline_at).unwrap_or(NewlineKind::LineFeed)
}
