ghost use Rattle.std.specs.Prelude.{◌≡◌};
ghost use Rattle.forest.specs.Links.{target as leads};

use crate::node::Place;

/// A link of a record: to a place, or nowhere. It is kept as a number, 65,535 where it leads nowhere, since a record with five links is
/// to have 32 bytes and an `Option<Place>` takes twice as many as a `Place`. A table has at most 65,535 records, so that is no place.
#[derive(Clone, Copy, PartialEq, Eq)]
pub struct Link(Place);

impl Link {
    /// The link that leads nowhere.
    pub const NOWHERE: Link = Link(65_535);

    /// The link to a place.
    pub fn to(place: Place) -> Link
        ensures { result.0 ≡ place }
    {
        Link(place)
    }

    /// Where the link leads.
    pub fn target(self) -> Option<Place>
        ensures { result ≡ leads self.0 }
    {
        match self {
            Link::NOWHERE => None,
            Link(target) => Some(target),
        }
    }

    /// Which record the link leads to, where it is known to lead to one.
    pub fn index(self) -> usize
        ensures { result ≡ self.0 }
    {
        self.0 as usize
    }
}
