//! What the words of a build ask for.
use crate::workers::Workers;
use build_base::{Path, Rows, Text};

/// The files that the words name: the platform's, the flash description's in place of the one that
/// the platform names, and the report's.
pub struct Files {
    pub platform: Path,
    pub flash: Option<Path>,
    pub report: Option<Path>,
}

// A written `Drop` is one call for whoever lets the value go. A derived one is spelled out there.
impl Drop for Files {
    fn drop(self) {
        let Files {
            platform: _platform,
            flash: _flash,
            report: _report,
        } = self;
    }
}

/// The build's target, the tool chain's tag and the SKU, where the words name them.
pub struct Names {
    pub target: Option<Text>,
    pub tag: Option<Text>,
    pub sku: Option<Text>,
}

impl Drop for Names {
    fn drop(self) {
        let Names {
            target: _target,
            tag: _tag,
            sku: _sku,
        } = self;
    }
}

/// The macros `NAME` or `NAME=VALUE` and the PCDs `Space.Name=Value` that the words set, in their
/// order.
#[derive(Drop)]
pub struct Settings {
    pub defines: Rows<Text>,
    pub pcds: Rows<Text>,
}

/// The names of the flash devices and volumes that are wanted, as they stand in the words.
#[derive(Drop)]
pub struct Images {
    pub devices: Rows<Text>,
    pub volumes: Rows<Text>,
}

/// A job. Its architectures are in upper case, each once; where the words name none, all that the
/// platform supports are meant.
pub struct Job {
    pub files: Files,
    pub names: Names,
    pub arches: Rows<Text>,
    pub settings: Settings,
    pub images: Images,
    pub workers: Workers,
}

// Written out, so that a caller that lets a job go has one call here and not a case for each
// option.
impl Drop for Job {
    fn drop(self) {
        let Job {
            files: _files,
            names: _names,
            arches: _arches,
            settings: _settings,
            images: _images,
            workers: _workers,
        } = self;
    }
}
