//! What stays during a build.

use crate::cache::Cache;
use crate::edits::Edits;
use crate::rules::Rules;
use build_base::rows::Rows;
use build_base::text::Text;

/// What a build goes by and leaves as it is: the rules, the fields of the job, the entries that an
/// earlier build left, and the edits of the tree's files.
#[derive(Drop)]
pub struct Fixed<'a, R: Rules> {
    pub rules: &'a R,
    pub job: &'a Rows<Text>,
    pub old: &'a Cache<R::Key, R::Out>,
    pub edits: &'a Edits,
}
