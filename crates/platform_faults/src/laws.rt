//! Laws of the names of faults.
ghost use Rattle.build_base.specs.declared.lines.Lines.{Lines};
ghost use Rattle.dsc_platform.specs.Platform.{platform_of};
ghost use Rattle.flash_document.specs.Flash.{flash_of};
ghost use Rattle.named_faults.specs.Named.{FailsByName};

/// Where the lines of a platform make no document, the code of their fault has a name.
#[tactic(auto, using(crate::proofs::PlatformFaults::platform_fails))]
pub fn platform_faults_have_names()
    ensures { (lines : Lines) → FailsByName (platform_of lines) }
{}

/// Where the lines of a flash description make no document, the code of their fault has a name.
#[tactic(auto, using(crate::proofs::FlashFaults::flash_fails))]
pub fn flash_faults_have_names()
    ensures { (lines : Lines) → FailsByName (flash_of lines) }
{}
