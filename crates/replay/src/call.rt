use table::Handle;

/// What a caller does with a document: a printing, a question or an edit. Bytes and ordinals that are answered go into the buffers that are lent.
#[derive(Clone, Copy)]
pub enum Call<'a> {
    Print,
    Root,
    Edits,
    Value(Handle),
    Kind(Handle),
    Path(Handle),
    At(&'a [usize]),
    Find(Handle, &'a [u8]),
    ParentInfo(Handle),
    PreviousSibling(Handle),
    NextSibling(Handle),
    ChildAtIndex(Handle, usize),
    ElementIndex(Handle),
    TrailingComma(Handle),
    Text(Handle),
    NewlineKind,
    UsesTrailingCommas(Handle),
    Clear,
}
