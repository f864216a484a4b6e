/// What is loaded before the first call.
#[derive(Clone, Copy)]
pub struct Start<'a> {
    /// how many nodes the table has room for
    pub records: usize,
    /// how many bytes the store has
    pub store: usize,
    pub text: &'a [u8],
}
