//! The texts that don't depend on the number of modules.
ghost use Rattle.std.specs.Prelude.{◌≡◌, ◌++◌, OnOk};
ghost use Rattle.selftest_tree.specs.Texts.{package_text, platform_front, device_text, rule_text, module_front, guid_front, module_back};

use std::alloc::AllocError;

const PACKAGE: &[u8] = b"[Defines]
PACKAGE_NAME = T
PACKAGE_GUID = 00000000-0000-0000-0000-000000000002
[Guids]
gTs = { 0x1, 0x2, 0x3, { 0x4, 0x5, 0x6, 0x7, 0x8, 0x9, 0xA, 0xB } }
[PcdsFixedAtBuild]
gTs.P|0x1|UINT32|0x1
";

const PLATFORM: &[u8] = b"[Defines]
PLATFORM_NAME = T
PLATFORM_GUID = 00000000-0000-0000-0000-000000000001
OUTPUT_DIRECTORY = Build/T
SUPPORTED_ARCHITECTURES = X64
FLASH_DEFINITION = T.fdf
[Components]
";

const DEVICE: &[u8] = b"[FD.T]
BaseAddress = 0x0
Size = 0x20000
ErasePolarity = 1
BlockSize = 0x1000
NumBlocks = 0x20
0x0|0x20000
FV = TFV
";

const RULE: &[u8] = b"[Rule.Common.PEIM]
FILE PEIM = $(NAMED_GUID) {
PEI_DEPEX PEI_DEPEX $(INF_OUTPUT)/$(MODULE_NAME).depex
UI STRING=\"$(MODULE_NAME)\"
}
";

const MODULE_BACK: &[u8] = b"
MODULE_TYPE = PEIM
[Packages]
T.dec
[FixedPcd]
gTs.P
[Depex]
";

/// Adds the package.
#[tactic(auto, unfolding(crate::specs::Texts::package_text))]
pub fn put_package(out: &mut Vec<u8>) -> Result<(), AllocError>
    ensures { OnOk result (out.new.items ≡ out.old.items ++ package_text) }
{
    out.extend_from_slice(PACKAGE)?;
    Ok(())
}

/// Adds the platform up to its components.
#[tactic(auto, unfolding(crate::specs::Texts::platform_front))]
pub(crate) fn put_platform_front(out: &mut Vec<u8>) -> Result<(), AllocError>
    ensures { OnOk result (out.new.items ≡ out.old.items ++ platform_front) }
{
    out.extend_from_slice(PLATFORM)?;
    Ok(())
}

/// Adds the flash device.
#[tactic(auto, unfolding(crate::specs::Texts::device_text))]
pub(crate) fn put_device(out: &mut Vec<u8>) -> Result<(), AllocError>
    ensures { OnOk result (out.new.items ≡ out.old.items ++ device_text) }
{
    out.extend_from_slice(DEVICE)?;
    Ok(())
}

/// Adds the rule of the modules.
#[tactic(auto, unfolding(crate::specs::Texts::rule_text))]
pub(crate) fn put_rule(out: &mut Vec<u8>) -> Result<(), AllocError>
    ensures { OnOk result (out.new.items ≡ out.old.items ++ rule_text) }
{
    out.extend_from_slice(RULE)?;
    Ok(())
}

/// Adds a module up to its number.
#[tactic(auto, unfolding(crate::specs::Texts::module_front))]
pub(crate) fn put_module_front(out: &mut Vec<u8>) -> Result<(), AllocError>
    ensures { OnOk result (out.new.items ≡ out.old.items ++ module_front) }
{
    out.extend_from_slice(b"[Defines]\nBASE_NAME = m")?;
    Ok(())
}

/// Adds what stands between a module's number and the end of its GUID.
#[tactic(auto, unfolding(crate::specs::Texts::guid_front))]
pub(crate) fn put_guid_front(out: &mut Vec<u8>) -> Result<(), AllocError>
    ensures { OnOk result (out.new.items ≡ out.old.items ++ guid_front) }
{
    out.extend_from_slice(b"\nFILE_GUID = 00000000-0000-0000-0001-")?;
    Ok(())
}

/// Adds what stands between a module's GUID and its dependency expression.
#[tactic(auto, unfolding(crate::specs::Texts::module_back))]
pub(crate) fn put_module_back(out: &mut Vec<u8>) -> Result<(), AllocError>
    ensures { OnOk result (out.new.items ≡ out.old.items ++ module_back) }
{
    out.extend_from_slice(MODULE_BACK)?;
    Ok(())
}
