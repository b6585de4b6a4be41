//! Laws of the names of faults.
ghost use Rattle.std.specs.Prelude.{◌≡◌, ℕ, ◌≤◌, Bool, true, List, length, map, Result, Ok};
ghost use Rattle.std.specs.List.{AllByRecursion};
ghost use Rattle.build_base.specs.First.{and_then, all_ok};
ghost use Rattle.build_base.specs.Path.{IsPathField};
ghost use Rattle.build_base.specs.declared.fault.Fault.{Fault as FaultOf};
ghost use Rattle.build_base.specs.declared.fault.Place.{Place};
ghost use Rattle.build_base.specs.declared.lines.Lines.{Lines};
ghost use Rattle.build_texts.specs.declared.asks.CodeAsk.{CodeAsk};
ghost use Rattle.build_texts.specs.Code.{code_texts};
ghost use Rattle.depex_code.specs.Compiled.{compiled};
ghost use Rattle.doc_types.specs.declared.asks.ModuleAsk.{ModuleAsk};
ghost use Rattle.doc_types.specs.declared.asks.PlatformAsk.{PlatformAsk};
ghost use Rattle.doc_types.specs.declared.choice.Choice.{Choice};
ghost use Rattle.doc_types.specs.declared.choice.Module.{Module};
ghost use Rattle.doc_types.specs.declared.depex.DepexGroup.{DepexGroup};
ghost use Rattle.doc_types.specs.declared.flash.FlashDoc.{FlashDoc};
ghost use Rattle.doc_types.specs.declared.module.InfDoc.{InfDoc};
ghost use Rattle.doc_types.specs.declared.module_type.ModuleType.{ModuleType};
ghost use Rattle.doc_types.specs.declared.parts.ModuleParts.{ModuleParts};
ghost use Rattle.doc_types.specs.declared.parts.Package.{Package};
ghost use Rattle.doc_types.specs.declared.platform.PlatformDoc.{PlatformDoc};
ghost use Rattle.doc_types.specs.declared.values.Values.{Values};
ghost use Rattle.step_answers.specs.Folders.{output_folder};
ghost use Rattle.dsc_platform.specs.Platform.{platform_of};
ghost use Rattle.flash_document.specs.Shape.{HasShape};
ghost use Rattle.inf_docs.specs.Modules.{module_of};
ghost use Rattle.library_choice.specs.Choices.{choice};
ghost use Rattle.meta_lexer.specs.Words.{is_identifier};
ghost use Rattle.library_steps.specs.Parts.{linked_module, described, parts};
ghost use Rattle.step_answers.specs.Settings.{arches_built, built_modules, command_line_pcds, setting_of};
ghost use Rattle.output_steps.specs.Outputs.{module_outputs, volume_outputs, device_outputs, vpd_outputs};
ghost use Rattle.output_steps.specs.Wanted.{wanted_of};
ghost use Rattle.pcd_resolve.specs.Platform.{platform_values};
ghost use Rattle.pcd_resolve.specs.Rows.{module_values};
ghost use Rattle.text_steps.specs.Code.{code_given};
ghost use Rattle.text_steps.specs.Depex.{depex_given};
ghost use Rattle.text_steps.specs.Report.{report_modules};
ghost use Rattle.vpd_image.specs.declared.ask.VpdAsk.{VpdAsk};
ghost use Rattle.vpd_image.specs.Vpd.{vpd_of};
ghost use Rattle.named_faults.specs.Named.{FailsByName};
ghost use Rattle.module_faults.specs.Folders.{folder_limit, IsNameOrNone};
ghost use Rattle.module_faults.specs.Own.{HasOwn};
ghost use Rattle.module_faults.specs.Words.{AreArches, AreImages, AreSets};

/// The choice of a module's libraries fails by a name.
pub fn libraries_fail_by_names()
    ensures { (user : Module) (platform : PlatformDoc) (infs : List InfDoc)
        → FailsByName (choice user platform infs) }
{}

/// The rows of dynamic PCDs fail by names, and so do those of a module.
pub fn values_fail_by_names()
    ensures platform { (ask : PlatformAsk) → FailsByName (platform_values ask) }
    ensures modules { (ask : ModuleAsk) → FailsByName (module_values ask) }
{}

/// What the fields of a job settle fails by names, where they name architectures that can be built
/// and give PCDs values.
pub fn settings_fail_by_names()
    ensures arches { (platform : PlatformDoc) (arches : List ℕ) → AreArches arches
        → FailsByName (arches_built platform arches) }
    ensures modules { (platform : PlatformDoc) (arches : List ℕ) → AreArches arches
        → FailsByName (built_modules platform arches) }
    ensures commands { (at : Place) (pcds : List ℕ) → AreSets pcds
        → FailsByName (command_line_pcds at pcds) }
    ensures setting { (platform : PlatformDoc) (arches sku pcds : List ℕ) → AreArches arches
        → AreSets pcds → FailsByName (setting_of platform arches sku pcds) }
    ensures report { (platform : PlatformDoc) (arches : List ℕ) → AreArches arches
        → FailsByName (report_modules platform arches) }
{}

/// The texts of a module fail by names, and so does its expression. That its own description is
/// there is what both need.
pub fn texts_fail_by_names()
    ensures texts { (ask : CodeAsk) → FailsByName (code_texts ask) }
    ensures code { (platform : PlatformDoc) (choice : Choice) (values : Values)
        (parts : ModuleParts) → HasOwn parts.infs
        → FailsByName (code_given platform choice values parts) }
    ensures compiled { (kind : ModuleType) (groups : List DepexGroup)
        → FailsByName (compiled kind groups) }
    ensures depex { (choice : Choice) (parts : ModuleParts) → HasOwn parts.infs
        → FailsByName (depex_given choice parts) }
{}

/// A module that is read by its paths has its own description. Each path is read by one function,
/// and the packages by another.
pub fn modules_have_descriptions()
    ensures { (m : Module) (choice : Choice) (read : List ℕ → Result InfDoc FaultOf)
        (packages : List (List ℕ) → Result (List Package) FaultOf) (made : ModuleParts)
        → and_then
        (and_then (all_ok (map read (linked_module m choice).paths))
        (described (linked_module m choice)))
        (λ held. and_then (packages held.packages) (parts held)) ≡ Ok made
        → HasOwn made.infs }
{}

/// The image of vital product data fails by names.
pub fn vpd_fails_by_names()
    ensures { (ask : VpdAsk) → FailsByName (vpd_of ask) }
{}

/// The folder of a build's outputs fails by a name, and is short. It is made of the folder that a
/// platform states and of the names that a job gives.
pub fn folders_fail_by_names()
    ensures folder { (output target tag : List ℕ) → IsPathField output → IsNameOrNone target
        → IsNameOrNone tag → FailsByName (output_folder output target tag) }
    ensures short { (output target tag folder : List ℕ) → IsPathField output
        → IsNameOrNone target → IsNameOrNone tag → output_folder output target tag ≡ Ok folder
        → length folder ≤ folder_limit }
{}

/// In a short folder the files of a build fail by names. They are those of a module whose INF file
/// has a path and a name, of a flash description of its shape, and of vital product data.
pub fn files_fail_by_names()
    ensures modules { (folder : List ℕ) (m : Module) (name : List ℕ) (texts depex : Bool)
        → length folder ≤ folder_limit → IsPathField m.inf → is_identifier name ≡ true
        → FailsByName (module_outputs folder m name texts depex) }
    ensures volumes { (folder : List ℕ) (marks : List Bool) (flash : FlashDoc)
        → length folder ≤ folder_limit → HasShape flash
        → FailsByName (volume_outputs folder marks 0 flash.volumes) }
    ensures devices { (folder : List ℕ) (marks : List Bool) (flash : FlashDoc)
        → length folder ≤ folder_limit → HasShape flash
        → FailsByName (device_outputs folder marks 0 flash.devices) }
    ensures vpd { (vpd : Bool) (folder : List ℕ) → length folder ≤ folder_limit
        → FailsByName (vpd_outputs vpd folder) }
{}

/// The images that a job wants fail by a name, where each line wants a device or a volume.
pub fn wanted_images_fail_by_names()
    ensures { (flash : FlashDoc) (text : List ℕ) → AreImages text
        → FailsByName (wanted_of flash text) }
{}

/// A platform that is read states a folder of outputs that is a path of at most 512 bytes. So is
/// the INF file of each module that is built.
pub fn platforms_have_paths()
    ensures output { (lines : Lines) (platform : PlatformDoc) → platform_of lines ≡ Ok platform
        → IsPathField platform.output }
    ensures modules { (lines : Lines) (platform : PlatformDoc) (arches : List ℕ)
        (modules : List Module) → platform_of lines ≡ Ok platform
        → built_modules platform arches ≡ Ok modules
        → AllByRecursion (λ m. IsPathField m.inf) modules }
{}

/// A module that is read has a name that is an identifier.
pub fn modules_have_names()
    ensures { (lines : Lines) (inf : InfDoc) → module_of lines ≡ Ok inf
        → is_identifier inf.base_name ≡ true }
{}
