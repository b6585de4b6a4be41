//! Reading the lines of a module's description.
ghost use Rattle.std.specs.Prelude.{◌≡◌, ◌++◌, IfOk, [], unwrap_or};
ghost use Rattle.build_base.specs.Answer.{Answers};
ghost use Rattle.inf_docs.specs.Depex.{parts_in};
ghost use Rattle.inf_docs.specs.Modules.{document_of, module_of};

use crate::depex::push_parts;
use crate::module::ModuleFormat;
use crate::tables::ModuleTables;
use build_base::fault_codes::INF_MISSING_KEY;
use build_base::{Lines, Path, Permit, Place, Refusal, Rows, Same, Text, WantOfMemory};
use doc_reading::missing::refuse_missing;
use doc_reading::{DocumentFormat, read_whole};
use doc_types::depex::DepexPart;
use doc_types::module::InfDoc;
use std::alloc::Global;

fn version_of(alloc: Global, stated: Option<Text>) -> Result<Text, WantOfMemory>
    ensures { IfOk result (λ text. text ≡ unwrap_or stated []) }
{
    match stated {
        Some(text) => Ok(text),
        None => Text::of(alloc, b"".as_slice()),
    }
}

// The document of these tables, where each required key is stated.
#[tactic(auto, unfolding(crate::specs::Modules::document_of))]
fn document(
    alloc: Global,
    root: &Path,
    tables: ModuleTables,
    parts: Rows<DepexPart>,
) -> Result<InfDoc, Refusal>
    ensures { Answers result (document_of root.now tables parts) }
{
    let ModuleTables {
        base_name,
        file_guid,
        kind,
        version,
        entry_points,
        constructors,
        destructors,
        serves,
        packages,
        classes,
        guids,
        pcds,
    } = tables;
    let Some(base_name) = base_name else {
        return Err(refuse_missing(alloc, INF_MISSING_KEY, root, b"BASE_NAME".as_slice()));
    };
    let Some(file_guid) = file_guid else {
        return Err(refuse_missing(alloc, INF_MISSING_KEY, root, b"FILE_GUID".as_slice()));
    };
    let Some(module_type) = kind else {
        return Err(refuse_missing(alloc, INF_MISSING_KEY, root, b"MODULE_TYPE".as_slice()));
    };
    Ok(InfDoc {
        at: Place {
            path: root.copy(alloc)?,
            line: 0,
        },
        base_name,
        file_guid,
        module_type,
        version: version_of(alloc, version)?,
        entry_points,
        constructors,
        destructors,
        serves,
        packages,
        classes,
        guids,
        pcds,
        depex: parts,
    })
}

// The document of what was read, with the parts of the last section.
fn finished_document(root: &Path, format: ModuleFormat) -> Result<InfDoc, Refusal>
    ensures { Answers result
        (document_of root.now format.tables (format.parts ++ parts_in format.section)) }
{
    let ModuleFormat {
        alloc,
        section,
        tables,
        mut parts,
    } = format;
    push_parts(alloc, &mut parts, section)?;
    document(alloc, root, tables, parts)
}

impl DocumentFormat for ModuleFormat {
    ghost use Rattle.inf_docs.specs.Modules.{module_made};

    type Made = InfDoc;

    ghost made = { module_made };

    fn finish(self, lines: &Lines) -> Result<InfDoc, Refusal> {
        finished_document(&lines.root, self)
    }
}

/// The module that these lines describe, or the first fault: of the first line that has one, of its
/// faults the one of the least code, else of the document, at its root's line 0, where a required
/// key isn't stated.
#[tactic(auto, unfolding(crate::specs::Modules::module_of))]
pub fn read_inf(alloc: Global, permit: Permit, lines: &Lines) -> Result<InfDoc, Refusal>
    ensures { Answers result (module_of lines.now) }
{
    let _spent = permit;
    let format = ModuleFormat::new(alloc);
    read_whole(alloc, format, lines)
}
