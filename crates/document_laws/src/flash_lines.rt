//! Laws of a flash description's lines.
ghost use Rattle.std.specs.Option.{IsSome};
ghost use Rattle.std.specs.Prelude.{◌≡◌, Bool, None, ℕ, List, Option, false, true, Some};
ghost use Rattle.build_base.specs.declared.guid.Guid.{Guid};
ghost use Rattle.build_base.specs.declared.lines.Taken.{Taken as Line};
ghost use Rattle.build_base.specs.Guid.{guid_of};
ghost use Rattle.macro_expressions.specs.Macros.{without_workspace};
ghost use Rattle.doc_reading.specs.Least.{least_of};
ghost use Rattle.doc_types.specs.declared.pcd.PcdName.{PcdName};
ghost use Rattle.doc_types.specs.declared.volume.Align.{Align};
ghost use Rattle.doc_types.specs.declared.volume.Member.TheVariants as member;
ghost use Rattle.doc_types.specs.declared.volume.SectionSource.TheVariants.{Template, Words, Refused};
ghost use Rattle.doc_types.specs.Standard.{EFI_SECTION_FIRMWARE_VOLUME_IMAGE, EFI_SECTION_FREEFORM_SUBTYPE_GUID};
ghost use Rattle.fdf_words.specs.declared.keys.VolumeWord.TheVariants as word;
ghost use Rattle.fdf_words.specs.declared.marks.Body.{Body};
ghost use Rattle.fdf_words.specs.declared.marks.Body.TheVariants.{Nothing};
ghost use Rattle.fdf_words.specs.declared.marks.Marks.{Marks};
ghost use Rattle.fdf_words.specs.declared.marks.Open.TheVariants.{Shut, InApriori, InFile, InRule};
ghost use Rattle.fdf_words.specs.declared.rows.Content.{Content};
ghost use Rattle.fdf_words.specs.declared.rows.DeviceKey.{DeviceKey};
ghost use Rattle.fdf_words.specs.declared.rows.Row.TheVariants as row;
ghost use Rattle.fdf_words.specs.declared.rows.RuleScope.{RuleScope};
ghost use Rattle.fdf_words.specs.declared.rows.Scope.{Scope};
ghost use Rattle.fdf_words.specs.declared.rows.Scope.TheVariants as scope;
ghost use Rattle.fdf_words.specs.declared.rows.SectionBody.TheVariants as body;
ghost use Rattle.fdf_words.specs.declared.rows.VolumeKey.{VolumeKey};
ghost use Rattle.fdf_words.specs.declared.rows.VolumeSetting.TheVariants as setting;
ghost use Rattle.fdf_words.specs.declared.words.Options.{Options};
ghost use Rattle.fdf_volumes.specs.declared.body.SectionWord.TheVariants as section;
ghost use Rattle.fdf_volumes.specs.declared.inf_line.InfOptions.{InfOptions};
ghost use Rattle.fdf_volumes.specs.Bodies.{made_section, words_in_quotes};
ghost use Rattle.fdf_volumes.specs.Statements.{head_with};
ghost use Rattle.fdf_volumes.specs.VolumeKeys.{is_ffs3, truth_named};
ghost use Rattle.fdf_lines.specs.declared.rule_options.RuleOptions.{RuleOptions};
ghost use Rattle.fdf_lines.specs.Grammar.{line_faults, line_row, rank_of};
ghost use Rattle.fdf_lines.specs.Rules.{made_plan};
ghost use Rattle.document_laws.specs.FlashForms.{Closes, IsApriori, IsContent, IsDeviceNumber, IsFile, IsFileMember, IsFilled, IsInf, IsKeyed, IsNamedPath, IsPlain, IsRegion, IsRegionPcds, IsRuleExtension, IsRuleFile, IsRulePath, IsRuleText, IsSection, IsSectionsBody, IsSet, IsSetting, IsStatedPath, IsStatedText, IsWhole, Says, module_of};

/// A line below a head, of which no condition holds, gives a row.
pub fn flash_lines_give_rows()
    ensures { (line : Line) (marks : Marks) (full : Bool) (scope : Scope)
        → least_of (line_faults line marks full scope) ≡ None
        → IsSome (line_row line marks scope) }
{}

/// In each section a line `SET PCD = value` gives that value to that PCD. In [Defines] all other
/// lines are read past.
pub fn set_lines_say()
    ensures sets { (line : Line) (marks : Marks) (full : Bool) (section : Scope) (pcd : PcdName)
        (value : List ℕ) → IsSet line pcd value → Says line marks full section
        (row.Set (record { at = line.at; rank = rank_of section; pcd = pcd; value = value })) }
    ensures passed { (line : Line) (marks : Marks) (full : Bool) → IsPlain line
        → Says line marks full scope.Settings row.Ignored }
{}

/// What the lines of a device say.
pub fn device_lines_say()
    ensures numbers { (line : Line) (marks : Marks) (full : Bool) (name : List ℕ) (key : DeviceKey)
        (number : ℕ) (pcd : Option PcdName) → IsDeviceNumber line marks key number pcd
        → Says line marks full (scope.Device name)
        (row.Number (record { at = line.at; key = key; number = number; pcd = pcd })) }
    ensures regions { (line : Line) (marks : Marks) (full : Bool) (name : List ℕ) (offset size : ℕ)
        → IsRegion line offset size → Says line marks full (scope.Device name)
        (row.Region (record { at = line.at; offset = offset; size = size })) }
    ensures pcds { (line : Line) (marks : Marks) (full : Bool) (name : List ℕ) (first : PcdName)
        (second : Option PcdName) → IsRegionPcds line marks first second
        → Says line marks full (scope.Device name)
        (row.Pcds (record { at = line.at; first = first; second = second })) }
    ensures contents { (line : Line) (marks : Marks) (full : Bool) (name : List ℕ)
        (filled : Content) → IsContent line marks filled → Says line marks full (scope.Device name)
        (row.Content (record { at = line.at; content = filled })) }
{}

/// What the keys of a volume say.
pub fn volume_keys_say()
    ensures numbers { (line : Line) (marks : Marks) (full : Bool) (name : List ℕ) (key : VolumeKey)
        (value : List ℕ) (number : ℕ) → IsKeyed line (word.Number key) value
        → marks.braces ≡ Shut → IsSetting line key value number
        → Says line marks full (scope.Volume name) (row.Setting (setting.Number key number)) }
    ensures names { (line : Line) (marks : Marks) (full : Bool) (name value : List ℕ) (guid : Guid)
        → IsKeyed line word.NameGuid value → marks.braces ≡ Shut → IsFilled value
        → guid_of value ≡ Some guid
        → Says line marks full (scope.Volume name) (row.Setting (setting.NameGuid guid)) }
    ensures systems { (line : Line) (marks : Marks) (full : Bool) (name value : List ℕ)
        (guid : Guid) (ffs3 : Bool) → IsKeyed line word.FileSystem value → marks.braces ≡ Shut
        → IsFilled value → guid_of value ≡ Some guid → is_ffs3 guid ≡ Some ffs3
        → Says line marks full (scope.Volume name) (row.Setting (setting.FileSystem ffs3)) }
    ensures forced { (line : Line) (marks : Marks) (full : Bool) (name value : List ℕ) (on : Bool)
        → IsKeyed line word.ForceRebase value → marks.braces ≡ Shut → IsFilled value
        → truth_named value ≡ Some on
        → Says line marks full (scope.Volume name) (row.Setting (setting.ForceRebase on)) }
    ensures attributes { (line : Line) (marks : Marks) (full : Bool) (name value : List ℕ)
        (bits : ℕ) (on : Bool) → IsKeyed line (word.Attribute bits) value → marks.braces ≡ Shut
        → IsFilled value → truth_named value ≡ Some on
        → Says line marks full (scope.Volume name) (row.Setting (setting.Attribute bits on)) }
{}

/// What the statements of a volume say that isn't full, and what stands in the braces of an
/// a priori file.
pub fn statements_say()
    ensures aprioris { (line : Line) (marks : Marks) (name : List ℕ) (pei : Bool)
        → IsApriori line pei → marks.braces ≡ Shut
        → Says line marks false (scope.Volume name)
        (row.Apriori (record { at = line.at; pei = pei })) }
    ensures modules { (line : Line) (marks : Marks) (name : List ℕ) (options : InfOptions)
        (path : List ℕ) → IsInf line options path → marks.braces ≡ Shut
        → Says line marks false (scope.Volume name) (row.Inf (module_of line options path)) }
    ensures files { (line : Line) (marks : Marks) (name : List ℕ) (kind : ℕ) (guid : Guid)
        (options : Options) → IsFile line kind guid options → marks.braces ≡ Shut
        → Says line marks false (scope.Volume name)
        (row.File (head_with line kind (Some guid) options)) }
    ensures module_members { (line : Line) (marks : Marks) (full : Bool) (name : List ℕ)
        (options : InfOptions) (path : List ℕ) → IsInf line options path
        → marks.braces ≡ InApriori → Says line marks full (scope.Volume name)
        (row.Member (member.Inf (module_of line options path))) }
    ensures file_members { (line : Line) (marks : Marks) (full : Bool) (name : List ℕ) (guid : Guid)
        → IsFileMember line guid → marks.braces ≡ InApriori
        → Says line marks full (scope.Volume name) (row.Member (member.File guid)) }
{}

/// What the lines in the braces of a file say.
pub fn bodies_say()
    ensures paths { (line : Line) (marks : Marks) (full : Bool) (name : List ℕ) (filled : Body)
        (align : Align) (kind : ℕ) (more path : List ℕ)
        → IsSection line align (section.Plain kind) more → marks.braces ≡ InFile filled
        → IsSectionsBody filled → IsStatedPath line more path
        → Says line marks full (scope.Volume name)
        (made_section line kind align None (body.Tree path)) }
    ensures words { (line : Line) (marks : Marks) (full : Bool) (name : List ℕ) (filled : Body)
        (align : Align) (kind : ℕ) (more value words : List ℕ)
        → IsSection line align (section.Worded kind) more → marks.braces ≡ InFile filled
        → IsSectionsBody filled → IsStatedText more value → words_in_quotes value ≡ Some words
        → IsFilled line.text → Says line marks full (scope.Volume name)
        (made_section line kind align None (body.Words words)) }
    ensures worded_paths { (line : Line) (marks : Marks) (full : Bool) (name : List ℕ)
        (filled : Body) (align : Align) (kind : ℕ) (more path : List ℕ)
        → IsSection line align (section.Worded kind) more → marks.braces ≡ InFile filled
        → IsSectionsBody filled → (p : IsStatedPath line more path)
        → words_in_quotes p.value ≡ None → Says line marks full (scope.Volume name)
        (made_section line kind align None (body.Tree path)) }
    ensures volumes { (line : Line) (marks : Marks) (full : Bool) (name : List ℕ) (filled : Body)
        (align : Align) (more nested : List ℕ) → IsSection line align section.Nested more
        → marks.braces ≡ InFile filled → IsSectionsBody filled → IsStatedText more nested
        → IsFilled line.text → Says line marks full (scope.Volume name)
        (made_section line EFI_SECTION_FIRMWARE_VOLUME_IMAGE align None (body.Volume nested)) }
    ensures guids { (line : Line) (marks : Marks) (full : Bool) (name : List ℕ) (filled : Body)
        (align : Align) (more : List ℕ) (guid : Guid) (path : List ℕ)
        → IsSection line align section.Named more → marks.braces ≡ InFile filled
        → IsSectionsBody filled → IsNamedPath line more guid path
        → Says line marks full (scope.Volume name)
        (made_section line EFI_SECTION_FREEFORM_SUBTYPE_GUID align (Some guid) (body.Tree path)) }
    ensures wholes { (line : Line) (marks : Marks) (full : Bool) (name path : List ℕ)
        → IsWhole line path → marks.braces ≡ InFile Nothing
        → Says line marks full (scope.Volume name) (row.Whole path) }
    ensures closed { (line : Line) (marks : Marks) (full : Bool) (name : List ℕ) (filled : Body)
        → Closes line → marks.braces ≡ InFile filled
        → Says line marks full (scope.Volume name) row.Closes }
    ensures apriori_closed { (line : Line) (marks : Marks) (full : Bool) (name : List ℕ)
        → Closes line → marks.braces ≡ InApriori
        → Says line marks full (scope.Volume name) row.Closes }
{}

/// What the lines of a rule say.
pub fn rule_lines_say()
    ensures files { (line : Line) (marks : Marks) (full : Bool) (rule : RuleScope) (kind : ℕ)
        (options : Options) → IsRuleFile line kind options → marks.unfiled ≡ true
        → marks.braces ≡ Shut → Says line marks full (scope.Rule rule)
        (row.RuleFile (head_with line kind None options)) }
    ensures paths { (line : Line) (marks : Marks) (full : Bool) (rule : RuleScope) (kind : ℕ)
        (options : RuleOptions) (number : ℕ) (path : List ℕ)
        → IsRulePath line kind options number path → marks.braces ≡ InRule
        → Says line marks full (scope.Rule rule)
        (made_plan line kind options number (Template (without_workspace path))) }
    ensures extensions { (line : Line) (marks : Marks) (full : Bool) (rule : RuleScope) (kind : ℕ)
        (options : RuleOptions) (number : ℕ) → IsRuleExtension line kind options number
        → marks.braces ≡ InRule → Says line marks full (scope.Rule rule)
        (made_plan line kind options number (Refused line.text)) }
    ensures texts { (line : Line) (marks : Marks) (full : Bool) (rule : RuleScope) (kind : ℕ)
        (options : RuleOptions) (number : ℕ) (words : List ℕ)
        → IsRuleText line kind options number words → marks.braces ≡ InRule
        → Says line marks full (scope.Rule rule)
        (made_plan line kind options number (Words words)) }
    ensures closed { (line : Line) (marks : Marks) (full : Bool) (rule : RuleScope) → Closes line
        → marks.braces ≡ InRule → Says line marks full (scope.Rule rule) row.Closes }
{}
