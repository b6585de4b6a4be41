//! That the steps of modules, their texts and the files of a build fail by names.
#![tactic(auto)]

mod laws;

pub use laws::{
    files_fail_by_names, folders_fail_by_names, libraries_fail_by_names, modules_have_descriptions,
    modules_have_names, platforms_have_paths, settings_fail_by_names, texts_fail_by_names,
    values_fail_by_names, vpd_fails_by_names, wanted_images_fail_by_names,
};
