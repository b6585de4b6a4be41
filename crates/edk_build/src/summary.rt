//! The last line of a build.
ghost use Rattle.std.specs.Prelude.{◌≡◌, ◌++◌, IfOk, OnOk, codes, decimal};
ghost use Rattle.edk_build.specs.Emitting.{summary, front_of, back_of, status_digit};

use crate::label::Label;
use crate::status::Status;
use build_base::{Path, Text, WantOfMemory};
use itoa::Buffer;
use std::alloc::Global;

fn push_front(out: &mut Vec<u8>, folder: &Option<Path>) -> Result<(), WantOfMemory>
    ensures { OnOk result (out.new.items ≡ out.old.items ++ front_of folder.now) }
{
    if let Some(folder) = folder {
        out.extend_from_slice(folder.bytes())?;
        out.extend_from_slice(b": ")?;
    }
    Ok(())
}

fn push_number(out: &mut Vec<u8>, number: u64) -> Result<(), WantOfMemory>
    ensures { OnOk result (out.new.items ≡ out.old.items ++ decimal number) }
{
    let mut digits = Buffer::new();
    out.extend_from_slice(digits.format(number).as_bytes())?;
    Ok(())
}

fn status_digit(status: Status) -> &'static [u8]
    ensures { result.now ≡ status_digit status }
{
    match status {
        Status::Done => b"0".as_slice(),
        _ => b"1".as_slice(),
    }
}

fn push_back(out: &mut Vec<u8>, tells: bool, status: Status) -> Result<(), WantOfMemory>
    ensures { OnOk result (out.new.items ≡ out.old.items ++ back_of tells status) }
{
    if tells {
        out.extend_from_slice(b", status ")?;
        out.extend_from_slice(status_digit(status))?;
    }
    Ok(())
}

// How many steps ran and how many were reused, in words.
fn push_counts(out: &mut Vec<u8>, steps: u64, reused: u64) -> Result<(), WantOfMemory>
    ensures { OnOk result (out.new.items ≡ out.old.items ++ decimal steps ++ codes " steps, "
        ++ decimal reused ++ codes " reused") }
{
    push_number(out, steps)?;
    out.extend_from_slice(b" steps, ")?;
    push_number(out, reused)?;
    out.extend_from_slice(b" reused")?;
    Ok(())
}

/// How many steps ran and how many were reused.
#[tactic(auto, unfolding(crate::specs::Emitting::summary))]
pub fn summary(
    alloc: Global,
    label: &Label,
    status: Status,
    steps: u64,
    reused: u64,
) -> Result<Text, WantOfMemory>
    ensures { IfOk result (λ text. text ≡ summary label.now status steps reused) }
{
    let mut out = Vec::new(alloc);
    push_front(&mut out, &label.folder)?;
    push_counts(&mut out, steps, reused)?;
    push_back(&mut out, label.tells_status, status)?;
    out.extend_from_slice(b"\n")?;
    Ok(Text::from_vec(out))
}
