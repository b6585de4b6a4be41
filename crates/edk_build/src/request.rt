//! What is asked of one build.
use build_base::{Rows, Text};
use job_fields::Workers;
use step_engine::Edits;

/// The fields of a job, the edits that stand above the tree's files, and how many workers there
/// are.
#[derive(Clone, Copy)]
pub(crate) struct Request<'a> {
    pub fields: &'a Rows<Text>,
    pub edits: &'a Edits,
    pub workers: &'a Workers,
}
