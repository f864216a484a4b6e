ghost use Rattle.std.specs.Prelude.{◌≡◌, ◌<◌, ◌≢◌};

use std::alloc::Global;
use table::{Handle, Kind, NoTable, Own, Place, Table};

/// Where a new node goes, as seen from another.
#[derive(Clone, Copy)]
pub enum Spot {
    First,
    Last,
    After,
}

/// What the table says of a node: where its bytes stand, and its parent, neighbours, outermost children and index.
#[derive(Clone, Copy, PartialEq, Eq)]
pub struct Around {
    pub text: (u32, u32),
    pub parent: Option<Place>,
    pub beside: (Option<Place>, Option<Place>),
    pub below: (Option<Place>, Option<Place>),
    pub index: usize,
}

/// Own data with a number, and ten bytes for each number before it in the store.
fn numbered(number: u32) -> Own
    requires some { number ≢ 0 }
    requires few { number < 1000 }
    ensures { result.number ≡ number }
{
    Own {
        number,
        kind: Kind::Number,
        start: number * 10,
        len: 10,
    }
}

/// A table whose root has the number 1.
pub fn started(heap: Global, records: usize) -> Result<Table, NoTable> {
    Table::new(
        heap,
        records,
        Own {
            number: 1,
            kind: Kind::Root,
            start: 0,
            len: 0,
        },
    )
}

/// Puts in a node with that number, if the handle's node is there and a place is free, and answers with its handle. Nothing goes
/// after the root.
#[tactic(auto, using(table::proofs::Seen::holds_there))]
pub fn put(table: &mut Table, spot: Spot, at: Handle, number: u32) -> Option<Handle> {
    if number == 0 || number >= 1000 {
        return None;
    }
    if table.vacant() == 0 {
        return None;
    }
    if !table.holds(at) {
        return None;
    }
    let own = numbered(number);
    let place = match spot {
        Spot::First => table.insert_first(at.place, own),
        Spot::Last => table.append(at.place, own),
        Spot::After => {
            if at.place == 0 {
                return None;
            }
            table.insert_after(at.place, own)
        }
    };
    Some(Handle { place, number })
}

/// Removes the handle's node, if it is there and not the root.
#[tactic(auto, using(table::proofs::Seen::holds_there))]
pub fn cut(table: &mut Table, at: Handle) -> bool {
    if at.place == 0 {
        return false;
    }
    if !table.holds(at) {
        return false;
    }
    table.remove(at.place);
    true
}

/// Moves the handle's node to other bytes, if it is there.
#[tactic(auto, using(table::proofs::Seen::holds_there))]
pub fn moved(table: &mut Table, at: Handle, start: u32, len: u32) -> bool {
    if !table.holds(at) {
        return false;
    }
    table.set_text(at.place, start, len);
    true
}

/// What the table says of the handle's node, if it is there.
#[tactic(auto, using(table::proofs::Seen::holds_there))]
pub fn seen(table: &Table, at: Handle) -> Option<Around> {
    if !table.holds(at) {
        return None;
    }
    let place = at.place;
    let own = table.own(place);
    Some(Around {
        text: (own.start, own.len),
        parent: table.parent(place),
        beside: (table.previous(place), table.next(place)),
        below: (table.first(place), table.last(place)),
        index: table.child_index(place),
    })
}
