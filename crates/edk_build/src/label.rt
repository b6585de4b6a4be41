//! How a build is told from others of the same run.
use build_base::Path;

/// The folder below which the outputs of a build go, which names it in its summary too; whether the
/// summary tells the status.
#[derive(Drop)]
pub(crate) struct Label {
    pub folder: Option<Path>,
    pub tells_status: bool,
}
