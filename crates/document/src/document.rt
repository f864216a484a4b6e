use std::alloc::Global;
use tree::Tree;

/// A house file in memory: nothing before its first load, and then its tree.
#[derive(Drop)]
pub struct Document {
    pub(crate) heap: Global,
    pub(crate) tree: Option<Tree>,
}
