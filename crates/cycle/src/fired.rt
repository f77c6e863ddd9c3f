//! What a firing returns in addition to the new state.

use ops_base::elements::Change;
use ops_base::list::Listed;
use ops_base::rules::{Inst, Rule};

/// What fired, whether a `halt` was done in it, changes that lead from the working memory before it to the one after it,
/// in order, the instantiations that were found before its phase but not after it, in the order of production and tags,
/// and the productions that it built, in the order of its `build` actions. These are not in force yet.
#[derive(Drop)]
pub struct Fired {
    pub inst: Inst,
    pub halted: bool,
    pub changes: Listed<Change>,
    pub gone: Listed<Inst>,
    pub built: Listed<Rule>,
}
