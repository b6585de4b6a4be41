//! What the values of the steps are in a world.
ghost use Rattle.std.specs.Prelude.{◌≡◌, ℕ, List, Ok, All};
ghost use Rattle.build_base.specs.World.{World};
ghost use Rattle.doc_types.specs.declared.choice.Module.{Module};
ghost use Rattle.doc_types.specs.declared.volume.VolumePlan.{VolumePlan};
ghost use Rattle.step_engine.specs.Meaning.{IsWorld};
ghost use Rattle.build_stages.specs.Stages.{meaning_of};
ghost use Rattle.step_pack.specs.Keys.{key_cmp};
ghost use Rattle.build_rules.specs.Rules.{edk};
ghost use Rattle.step_pack.specs.declared.out.Output.{Output};
ghost use Rattle.build_laws.specs.ModuleValues.{GivesChoice, GivesPcds, GivesValues};
ghost use Rattle.build_laws.specs.TextValues.{GivesCode, GivesDepex, GivesReport};
ghost use Rattle.build_laws.specs.VpdValues.{GivesVpd};
ghost use Rattle.build_rules.specs.Values.{GivesPackage, GivesModule, GivesPlatform, GivesFlash};
ghost use Rattle.build_laws.specs.ImageValues.{nested_image, volume_image, GivesFile, GivesVolume, GivesBased, GivesDevice};
ghost use Rattle.build_laws.specs.BuildValues.{all_value, GivesAll, IsMade};

/// A package's step gives what its lines come to.
pub fn packages_are_read()
    ensures { (w : World) (path : List ℕ) → GivesPackage w path }
{}

/// A module's step gives what its lines come to.
pub fn modules_are_read()
    ensures { (w : World) (path : List ℕ) → GivesModule w path }
{}

/// The platform's step gives what its lines come to, where the job's first field names a file.
pub fn platforms_are_read()
    ensures { (w : World) → IsWorld (meaning_of key_cmp edk) w → GivesPlatform w }
{}

/// The flash description's step gives what the lines of its file come to, which start with the
/// platform's macros.
pub fn flash_descriptions_are_read()
    ensures { (w : World) → IsWorld (meaning_of key_cmp edk) w → GivesFlash w }
{}

/// The step of a module's libraries gives what is chosen, or the first fault of the platform, of a
/// description or of the choice.
pub fn libraries_are_chosen()
    ensures { (w : World) (m : Module) → IsWorld (meaning_of key_cmp edk) w → GivesChoice w m }
{}

/// The step of dynamic PCDs gives their rows, or the first fault: of the platform, the flash
/// description, the words' SKU, the words' architectures, libraries, descriptions, packages, and
/// then of the values.
pub fn dynamic_values_are_resolved()
    ensures { (w : World) → IsWorld (meaning_of key_cmp edk) w → GivesPcds w }
{}

/// The step of a module's values gives them, or the first fault.
pub fn values_are_resolved()
    ensures { (w : World) (m : Module) → IsWorld (meaning_of key_cmp edk) w → GivesValues w m }
{}

/// The step of a module's texts gives them, nothing for a library, or the first fault.
pub fn texts_are_made()
    ensures { (w : World) (m : Module) → IsWorld (meaning_of key_cmp edk) w → GivesCode w m }
{}

/// The step of a module's dependency expression gives its bytes, or the first fault: of the
/// libraries, of a description, of a package, and then of the expression.
pub fn expressions_are_compiled()
    ensures { (w : World) (m : Module) → IsWorld (meaning_of key_cmp edk) w → GivesDepex w m }
{}

/// The step of the report gives it, or the first fault: of the platform, of the words'
/// architectures, of the rows of dynamic PCDs, and then module by module of its libraries and its
/// values.
pub fn reports_are_told()
    ensures { (w : World) → IsWorld (meaning_of key_cmp edk) w → GivesReport w }
{}

/// The step of an item gives its file, or the first fault: of a volume that it holds, then of a
/// file that it asks for, then of the file itself.
pub fn files_are_made()
    ensures { (w : World) (v i : ℕ) → IsWorld (meaning_of key_cmp edk) w → GivesFile w v i }
{}

/// The step of a volume gives its image, or the first fault: of its files, and then of itself.
pub fn volumes_are_made()
    ensures { (w : World) (v : ℕ) → IsWorld (meaning_of key_cmp edk) w → GivesVolume w v }
{}

/// The step of a volume that is moved to its base gives its image so moved, or the first fault: of
/// its files, of itself as it stands, and then of a module that is moved. Of a volume that isn't to
/// be moved it gives what stands.
pub fn volumes_are_moved()
    ensures { (w : World) (v : ℕ) → IsWorld (meaning_of key_cmp edk) w → GivesBased w v }
{}

/// A section that holds a volume holds the image of that volume, which is moved where it is to be.
pub fn nested_volumes_are_images()
    ensures { (w : World) (volumes : List VolumePlan) (n : ℕ) → IsWorld (meaning_of key_cmp edk) w
        → nested_image w volumes n ≡ volume_image w volumes n }
{}

/// The step of a device gives its image, or the first fault: of the flash description, of the
/// platform, of a volume that it holds, then of a file that it asks for, then of the device itself.
pub fn devices_are_made()
    ensures { (w : World) (d : ℕ) → IsWorld (meaning_of key_cmp edk) w → GivesDevice w d }
{}

/// The step of vital product data gives its image, its map and its places, or the first fault: of
/// the platform, of the rows of dynamic PCDs, of the words' architectures, and then of the places.
pub fn vital_data_is_placed()
    ensures { (w : World) → IsWorld (meaning_of key_cmp edk) w → GivesVpd w }
{}

/// The whole build gives its files, or the first fault of a module, a volume, a device or the
/// report.
pub fn builds_give_their_files()
    ensures { (w : World) → IsWorld (meaning_of key_cmp edk) w → GivesAll w }
{}

/// Each file that the build gives comes from a step that the build asks for, and what that step
/// gives has bytes of its part.
pub fn outputs_have_bytes()
    ensures { (w : World) (outputs : List Output) → IsWorld (meaning_of key_cmp edk) w
        → all_value w ≡ Ok outputs → All (IsMade w) outputs }
{}
