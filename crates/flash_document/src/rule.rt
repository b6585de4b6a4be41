//! A rule as its section states it.
ghost use Rattle.std.specs.Prelude.{◌≡◌, ◌++◌, IfOk, OnOk, Some};
ghost use Rattle.flash_document.specs.Columns.{row_at, in_row, column};
ghost use Rattle.flash_document.specs.Volumes.{rule_sections, rule_head, plan_of, rule_with, rule_of_lines};

use crate::column::row_at;
use crate::stated::{FdfSection, StatedRule, head_copy};
use build_base::together::three;
use build_base::{Place, Rows, Same, WantOfMemory};
use doc_types::volume::{FilePlan, RuleDoc, SectionPlan};
use fdf_words::rows::{FileHead, LineRead, Row, RuleScope};
use std::alloc::Global;

// Adds the section that a line states.
fn push_section(
    alloc: Global,
    sections: &mut Rows<SectionPlan>,
    k: usize,
    line: &LineRead,
) -> Result<(), WantOfMemory>
    ensures { OnOk result (sections.new ≡ sections.old ++ in_row rule_sections (row_at k line.now)) }
{
    match row_at(line, k) {
        Some(Row::RuleSection(section)) => sections.push(section.copy(alloc)?),
        _ => Ok(()),
    }
}

fn sections_of(
    alloc: Global,
    k: usize,
    lines: &[LineRead],
) -> Result<Rows<SectionPlan>, WantOfMemory>
    ensures { IfOk result (λ rows. rows ≡ column rule_sections k lines.now) }
{
    let mut sections = Rows::new(alloc);
    let mut left = lines;
    while let [line, rest @ ..] = left {
        push_section(alloc, &mut sections, k, line)?;
        left = rest;
    }
    Ok(sections)
}

fn head_of(alloc: Global, k: usize, lines: &[LineRead]) -> Result<Option<FileHead>, WantOfMemory>
    ensures { IfOk result (λ head. head ≡ rule_head k lines.now) }
{
    let mut left = lines;
    while let [line, rest @ ..] = left {
        if let Some(Row::RuleFile(head)) = row_at(line, k) {
            let head = head_copy(head, alloc)?;
            return Ok(Some(head));
        }
        left = rest;
    }
    Ok(None)
}

fn plan_of(head: FileHead, sections: Rows<SectionPlan>) -> FilePlan
    ensures { result ≡ plan_of head sections }
{
    let FileHead {
        at,
        file_type,
        guid,
        fixed,
        checksum,
        align,
    } = head;
    FilePlan {
        at,
        file_type,
        guid,
        fixed,
        checksum,
        align,
        whole: None,
        sections,
    }
}

fn rule_with(
    alloc: Global,
    at: &Place,
    scope: &RuleScope,
    sections: Rows<SectionPlan>,
    head: Option<FileHead>,
) -> Result<FdfSection, WantOfMemory>
    ensures { IfOk result (λ s. s ≡ rule_with at.now scope.now sections head) }
{
    let Some(head) = head else {
        return Ok(FdfSection::Settings);
    };
    let (at, template, name) = three(at, &scope.template, &scope.name, alloc)?;
    let rule = RuleDoc {
        at,
        arch: scope.arch,
        module_type: scope.module_type,
        template,
        file: plan_of(head, sections),
    };
    Ok(FdfSection::Rule(StatedRule { name, rule }))
}

/// The rule that a section states below the head of a number.
#[tactic(auto, unfolding(crate::specs::Volumes::rule_of_lines))]
pub(crate) fn rule_of_lines(
    alloc: Global,
    at: &Place,
    scope: &RuleScope,
    k: usize,
    lines: &[LineRead],
) -> Result<FdfSection, WantOfMemory>
    ensures { IfOk result (λ s. s ≡ rule_of_lines at.now scope.now k lines.now) }
{
    let sections = sections_of(alloc, k, lines)?;
    let head = head_of(alloc, k, lines)?;
    rule_with(alloc, at, scope, sections, head)
}
