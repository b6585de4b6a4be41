//! Laws of the names of faults of images.
ghost use Rattle.std.specs.Prelude.{◌≡◌, ℕ, ◌<◌, true, is_some, All, List, Ok, Option, length};
ghost use Rattle.std.specs.List.{list_all};
ghost use Rattle.build_base.specs.declared.guid.Guid.{Guid};
ghost use Rattle.doc_types.specs.declared.arch.Arch.{Arch};
ghost use Rattle.doc_types.specs.declared.flash.DevicePlan.{DevicePlan};
ghost use Rattle.doc_types.specs.declared.flash.FlashDoc.{FlashDoc};
ghost use Rattle.doc_types.specs.declared.image.FileImage.{FileImage};
ghost use Rattle.doc_types.specs.declared.image.ImagePlan.{ImagePlan};
ghost use Rattle.doc_types.specs.declared.module.InfDoc.{InfDoc};
ghost use Rattle.doc_types.specs.declared.module_type.ModuleType.{ModuleType};
ghost use Rattle.doc_types.specs.declared.platform.Component.{Component};
ghost use Rattle.doc_types.specs.declared.platform.PlatformDoc.{PlatformDoc};
ghost use Rattle.doc_types.specs.declared.volume.InfLine.{InfLine};
ghost use Rattle.doc_types.specs.declared.volume.RuleDoc.{RuleDoc};
ghost use Rattle.doc_types.specs.declared.volume.SectionPlan.{SectionPlan};
ghost use Rattle.doc_types.specs.declared.volume_head.VolumeHead.{VolumeHead};
ghost use Rattle.fd_regions.specs.Device.{device_of};
ghost use Rattle.ffs_sections.specs.File.{file_of};
ghost use Rattle.fv_compose.specs.Files.{is_stated};
ghost use Rattle.fv_compose.specs.Volume.{HasShape, volume_of};
ghost use Rattle.image_rebase.specs.Rebase.{rebased_bytes};
ghost use Rattle.volume_steps.specs.Based.{rebased_image};
ghost use Rattle.file_steps.specs.Files.{file_name};
ghost use Rattle.file_steps.specs.Parts.{file_shaped, header_guid};
ghost use Rattle.volume_steps.specs.Volumes.{composed_volume};
ghost use Rattle.file_steps.specs.Plans.{module_plan};
ghost use Rattle.file_steps.specs.Sections.{absent_fault, absent_part, expression_fault, expression_part, file_part, words_part};
ghost use Rattle.file_steps.specs.declared.plans.ModulePlan.{ModulePlan};
ghost use Rattle.named_faults.specs.Named.{FailsByName, IsNamed};
ghost use Rattle.rule_choice.specs.Modules.{inf_arch};
ghost use Rattle.rule_choice.specs.Rules.{rule_of};
ghost use Rattle.image_faults.specs.Served.{GuidStands, IsPlanned, Serves};

/// Where no file can be made of a plan, the fault has a name. A file that is made has an alignment
/// that its header states, whatever the plan.
#[tactic(auto, using(crate::proofs::FileFaults::file_fails, crate::proofs::FileFaults::file_stated))]
pub fn files_fail_by_name()
    ensures named { (plan : ImagePlan) → FailsByName (file_of plan) }
    ensures stated { (plan : ImagePlan) (file : FileImage) → file_of plan ≡ Ok file
        → is_stated file ≡ true }
{}

/// Where no volume can be made of files, the fault has a name, also where their modules are moved.
/// So it is in the steps of volumes, where the head can be that of a volume and the files have
/// alignments that headers state.
#[tactic(auto, using(crate::proofs::VolumeFaults::volume_fails, crate::proofs::MovedFaults::rebased_fails, crate::proofs::ContentFaults::composed_fails, crate::proofs::BasedFaults::based_fails))]
pub fn volumes_fail_by_name()
    ensures plain { (head : VolumeHead) (files : List FileImage) → FailsByName (volume_of head files) }
    ensures moved { (head : VolumeHead) (files : List FileImage)
        → FailsByName (rebased_bytes head files) }
    ensures composed { (head : VolumeHead) (files : List FileImage) → HasShape head
        → list_all is_stated files ≡ true → FailsByName (composed_volume head files) }
    ensures based { (head : VolumeHead) (files : List FileImage) → HasShape head
        → list_all is_stated files ≡ true → FailsByName (rebased_image head files) }
{}

/// Where no device can be made of the contents of its regions, the fault has a name.
#[tactic(auto, using(crate::proofs::DeviceFaults::device_fails))]
pub fn devices_fail_by_name()
    ensures { (plan : DevicePlan) (parts : List (List ℕ)) → FailsByName (device_of plan parts) }
{}

/// Where a section can't hold a file, the fault has a name. A section whose GUID fits its kind, and
/// a file with a name, have no fault without one.
#[tactic(auto, using(crate::proofs::ContentFaults::shaped_fails, crate::proofs::ContentFaults::guid_fails, crate::proofs::ContentFaults::name_fails))]
pub fn contents_fail_by_name()
    ensures shaped { (kind : ℕ) (path bytes : List ℕ) → FailsByName (file_shaped kind path bytes) }
    ensures guid { (section : SectionPlan) → GuidStands section
        → FailsByName (header_guid section.kind section.guid) }
    ensures name { (guid : Option Guid) → is_some guid ≡ true → FailsByName (file_name guid) }
{}

/// Where a module has no architecture or no rule, the fault has a name. The number that is found is
/// that of a rule.
#[tactic(auto, using(crate::proofs::RuleFaults::arch_fails, crate::proofs::RuleFaults::rule_fails, crate::proofs::RuleFaults::rule_below))]
pub fn rules_are_found()
    ensures arch { (line : InfLine) (components : List Component) (arches : List Arch)
        → FailsByName (inf_arch line components arches) }
    ensures named { (rules : List RuleDoc) (line : InfLine) (arch : Arch) (kind : ModuleType)
        → FailsByName (rule_of rules line arch kind) }
    ensures below { (rules : List RuleDoc) (line : InfLine) (arch : Arch) (kind : ModuleType) (n : ℕ)
        → rule_of rules line arch kind ≡ Ok n → n < length rules }
{}

/// Where the rules hold only what rules may hold, a module that has no file by its rule has a fault
/// with a name. Each section of a file by its rule holds a file or a text.
#[tactic(auto, using(crate::proofs::PlanFaults::plan_fails, crate::proofs::PlanFaults::plan_planned))]
pub fn plans_fail_by_name()
    ensures named { (flash : FlashDoc) (line : InfLine) (platform : PlatformDoc) (arches : List Arch)
        (inf : InfDoc) (folder : List ℕ) → All Serves flash.rule_list
        → FailsByName (module_plan flash line platform arches inf folder) }
    ensures planned { (flash : FlashDoc) (line : InfLine) (platform : PlatformDoc)
        (arches : List Arch) (inf : InfDoc) (folder : List ℕ) (plan : ModulePlan)
        → All Serves flash.rule_list → module_plan flash line platform arches inf folder ≡ Ok plan
        → All IsPlanned plan.file.sections }
{}

/// Where a section of a module's file can't be made, the fault has a name.
#[tactic(auto, using(crate::proofs::SectionFaults::absent_fault_named, crate::proofs::SectionFaults::expression_named, crate::proofs::SectionFaults::file_part_fails, crate::proofs::SectionFaults::absent_part_fails, crate::proofs::SectionFaults::expression_part_fails, crate::proofs::SectionFaults::words_part_fails))]
pub fn sections_fail_by_name()
    ensures absent { (sections : List SectionPlan) (path : List ℕ)
        → IsNamed (absent_fault sections path) }
    ensures unexpressed { (depex : List ℕ) (sections : List SectionPlan) (bytes : List ℕ)
        → IsNamed (expression_fault depex sections bytes) }
    ensures file { (section : SectionPlan) (path bytes : List ℕ) → GuidStands section
        → FailsByName (file_part section path bytes) }
    ensures none { (section : SectionPlan) (path : List ℕ) → FailsByName (absent_part section path) }
    ensures expression { (section : SectionPlan) (path bytes : List ℕ) → GuidStands section
        → FailsByName (expression_part section path bytes) }
    ensures words { (section : SectionPlan) (text : List ℕ) → GuidStands section
        → FailsByName (words_part section text) }
{}
