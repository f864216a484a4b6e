/// Where a lexeme fails: what is left from there on.
#[derive(Clone, Copy)]
pub struct Mismatch<'a> {
    pub rest: &'a [u8],
}
