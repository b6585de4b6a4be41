//! Files before they are made: what they hold is lent, and stands where it stood.
ghost use Rattle.std.specs.Prelude.{◌≡◌, IfOk};
ghost use Rattle.ffs_sections.specs.LentPlans.{lent_body};

use crate::lent::LentPart;
use build_base::{Guid, Place, Rows, WantOfMemory};
use doc_types::image::{Body, ImagePlan, Part};
use std::alloc::Global;
use std::marker::Model;

/// What a file holds: bytes as they are, or sections.
#[derive(Drop)]
pub enum LentBody<'a> {
    Whole(&'a [u8]),
    Sections(Rows<LentPart<'a>>),
}

/// A file to be written, as `ImagePlan`, of which place and body are lent.
#[derive(Drop)]
pub struct LentPlan<'a> {
    pub at: &'a Place,
    pub file_type: u8,
    pub guid: Guid,
    pub fixed: bool,
    pub checksum: bool,
    pub align: u32,
    pub erase: u8,
    pub ffs3: bool,
    pub body: LentBody<'a>,
}

impl<'a> Model for LentPlan<'a> {
    ghost use Rattle.doc_types.specs.declared.image.ImagePlan.{ImagePlan};
    ghost use Rattle.ffs_sections.specs.LentPlans.{lent_body};

    ghost Value = { ImagePlan };

    ghost view = { λ p. record {
      at = p.at.now;
      file_type = p.file_type;
      guid = p.guid;
      fixed = p.fixed;
      checksum = p.checksum;
      align = p.align;
      erase = p.erase;
      ffs3 = p.ffs3;
      body = lent_body p.body;
    } };
}

fn lent_parts(alloc: Global, parts: &[Part]) -> Result<Rows<LentPart<'_>>, WantOfMemory>
    ensures { IfOk result (λ lent. lent ≡ parts.now) }
{
    let mut lent = Rows::new(alloc);
    for part in parts {
        lent.push(LentPart::of(part))?;
    }
    Ok(lent)
}

fn lent_body(alloc: Global, body: &Body) -> Result<LentBody<'_>, WantOfMemory>
    ensures { IfOk result (λ lent. lent_body lent ≡ body.now) }
{
    match body {
        Body::Whole(bytes) => Ok(LentBody::Whole(bytes.bytes())),
        Body::Sections(parts) => Ok(LentBody::Sections(lent_parts(alloc, parts.items())?)),
    }
}

/// A plan whose body is lent.
pub fn lent_plan(alloc: Global, plan: &ImagePlan) -> Result<LentPlan<'_>, WantOfMemory>
    ensures { IfOk result (λ lent. lent ≡ plan.now) }
{
    Ok(LentPlan {
        at: &plan.at,
        file_type: plan.file_type,
        guid: plan.guid,
        fixed: plan.fixed,
        checksum: plan.checksum,
        align: plan.align,
        erase: plan.erase,
        ffs3: plan.ffs3,
        body: lent_body(alloc, &plan.body)?,
    })
}
