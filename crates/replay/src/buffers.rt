use table::Place;

/// What a replay lends to its calls.
#[derive(Drop)]
pub struct Buffers<'a> {
    /// where a printing and a text go
    pub bytes: &'a mut [u8],
    /// where a path goes
    pub ordinals: &'a mut [usize],
    /// the places that still wait where a question is asked level by level
    pub queue: &'a mut [Place],
}
