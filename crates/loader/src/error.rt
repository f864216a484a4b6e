ghost use Rattle.std.specs.Prelude.{◌≡◌};
ghost use Rattle.refusal.specs.declared.Refusal.TheVariants.{BadMemory};
ghost use Rattle.table.specs.declared.table.NoTable.TheVariants.{Size, Memory};
ghost use Rattle.loader.specs.declared.error.LoadError.TheVariants.{Refused, NoMemory};

use refusal::Refusal;
use std::alloc::AllocError;
use table::NoTable;

/// Why nothing was loaded.
#[derive(Clone, Copy, PartialEq, Eq, Debug)]
pub enum LoadError {
    /// the load is refused
    Refused(Refusal),
    /// the machine has no memory for what is asked
    NoMemory,
}

impl From<Refusal> for LoadError {
    ghost from_gives = { λ refusal error. error ≡ Refused refusal };

    fn from(refusal: Refusal) -> LoadError {
        LoadError::Refused(refusal)
    }
}

/// Sizes that the table does not take are refused as a load of those sizes is; only want of memory is the machine's.
impl From<NoTable> for LoadError {
    ghost from_gives = { λ why error. (why ≡ Size → error ≡ Refused BadMemory) × (why ≡ Memory → error ≡ NoMemory) };

    fn from(why: NoTable) -> LoadError {
        match why {
            NoTable::Size => LoadError::Refused(Refusal::BadMemory),
            NoTable::Memory => LoadError::NoMemory,
        }
    }
}

impl From<AllocError> for LoadError {
    ghost from_gives = { λ _ error. error ≡ NoMemory };

    fn from(_: AllocError) -> LoadError {
        LoadError::NoMemory
    }
}
