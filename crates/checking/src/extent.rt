ghost use Rattle.std.specs.Prelude.{Some};
ghost use Rattle.checking.specs.Extents.{printed};

use std::fmt;

/// How large the document of a text is.
#[derive(Clone, Copy, PartialEq, Eq, Debug)]
pub struct Extent {
    /// its nodes, the root with them
    pub nodes: usize,
    /// the bytes that are stored
    pub stored: usize,
    /// how many arrays and objects stand inside one another
    pub levels: usize,
    /// its comments
    pub comments: usize,
}

/// As `18 nodes, 2 levels, 1 comments, 16 bytes to store`.
impl fmt::Display for Extent {
    ghost output = { λ e. Some (printed e) };

    fn fmt<W: fmt::Write>(&self, f: &mut fmt::Formatter<W>) -> fmt::Result {
        let Extent {
            nodes,
            stored,
            levels,
            comments,
        } = *self;
        write!(
            f,
            "{nodes} nodes, {levels} levels, {comments} comments, {stored} bytes to store"
        )
    }
}
