//! Why a request is refused.
#![tactic(auto)]

ghost use Rattle.std.specs.Prelude.{◌≡◌, [], ◌∷◌, Some, MatchOption};
ghost use Rattle.refusal.specs.Refusals.{called, number as number_of, printed, values};

use std::fmt;

/// Every refusal, in the order of its number.
#[derive(Clone, Copy, PartialEq, Eq, Debug)]
pub enum Refusal {
    /// the text is no house file, from this byte on
    BadText(usize),
    /// more levels than are taken
    TooDeep,
    /// no room for another node
    NoNode,
    /// no room for the bytes
    NoText,
    /// the handle's node is gone
    Gone,
    /// the request does not fit the node
    NotHere,
    /// the handles are used up
    Worn,
    /// so many bytes are needed
    Short(usize),
    /// the table is broken at this place
    BadTable(usize),
    /// the sizes are not taken
    BadMemory,
}

impl Refusal {
    // Each of `number`, `name` and `value` is the one place where it is stated.
    /// The refusal's number, from 1 to 10.
    pub fn number(&self) -> u8
        ensures { result ≡ number_of self.now }
    {
        match *self {
            Refusal::BadText(_) => 1,
            Refusal::TooDeep => 2,
            Refusal::NoNode => 3,
            Refusal::NoText => 4,
            Refusal::Gone => 5,
            Refusal::NotHere => 6,
            Refusal::Worn => 7,
            Refusal::Short(_) => 8,
            Refusal::BadTable(_) => 9,
            Refusal::BadMemory => 10,
        }
    }

    /// The refusal's name.
    pub fn name(&self) -> &'static str
        ensures { result.now ≡ called self.now }
    {
        match *self {
            Refusal::BadText(_) => "BadText",
            Refusal::TooDeep => "TooDeep",
            Refusal::NoNode => "NoNode",
            Refusal::NoText => "NoText",
            Refusal::Gone => "Gone",
            Refusal::NotHere => "NotHere",
            Refusal::Worn => "Worn",
            Refusal::Short(_) => "Short",
            Refusal::BadTable(_) => "BadTable",
            Refusal::BadMemory => "BadMemory",
        }
    }

    /// The place or the number that it names, where it names one.
    pub fn value(&self) -> Option<usize>
        ensures { MatchOption result (values self.now ≡ []) (λ v. values self.now ≡ v ∷ []) }
    {
        match *self {
            Refusal::BadText(p) => Some(p),
            Refusal::Short(n) => Some(n),
            Refusal::BadTable(p) => Some(p),
            _ => None,
        }
    }
}

/// As `1 BadText 17`.
impl fmt::Display for Refusal {
    ghost output = { λ r. Some (printed r) };

    fn fmt<W: fmt::Write>(&self, f: &mut fmt::Formatter<W>) -> fmt::Result {
        let number = self.number();
        let name = self.name();
        match self.value() {
            Some(value) => write!(f, "{number} {name} {value}"),
            None => write!(f, "{number} {name}"),
        }
    }
}
