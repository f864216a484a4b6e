ghost use Rattle.std.specs.Prelude.{◌≡◌};
ghost use Rattle.text.specs.declared.fault.Fault.TheVariants.{Bad};

use lexemes::mismatch::Mismatch;

/// Why a text is not read: what is left from a byte on that fits nothing, or a level too many.
#[derive(Clone, Copy)]
pub enum Fault<'a> {
    Bad(&'a [u8]),
    Deep,
}

impl<'a> From<Mismatch<'a>> for Fault<'a> {
    ghost from_gives = { λ mismatch fault. fault ≡ Bad mismatch.rest };

    fn from(mismatch: Mismatch<'a>) -> Fault<'a> {
        Fault::Bad(mismatch.rest)
    }
}
