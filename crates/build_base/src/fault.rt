//! Faults of files, and their texts.
ghost use Rattle.std.specs.Prelude.{◌≡◌, ◌++◌, IfOk, codes, decimal, [], unwrap_or};
ghost use Rattle.build_base.specs.FaultNames.{fault_name};
ghost use Rattle.build_base.specs.FaultText.{fault_text};

use crate::fault_names::fault_name;
use crate::path::Path;
use crate::same::Same;
use crate::text::{Text, WantOfMemory};
use crate::{all_same, copied};
use itoa::Buffer;
use std::alloc::{AllocError, Global};

/// A line of a file, from 1; line 0 is the whole file.
#[derive(Debug, Drop)]
pub struct Place {
    pub path: Path,
    pub line: u64,
}

/// What is wrong with an input: its code, where it stands, and the field, word or number concerned.
#[derive(Debug, Drop)]
pub struct Fault {
    pub code: u16,
    pub place: Place,
    pub detail: Text,
}

impl Same for Place {
    fn copy(&self, alloc: Global) -> Result<Place, WantOfMemory> {
        copied!(Place, self, alloc; path; line)
    }

    fn same(&self, other: &Place) -> bool {
        all_same!(self, other; path, line)
    }
}

impl Same for Fault {
    fn copy(&self, alloc: Global) -> Result<Fault, WantOfMemory> {
        copied!(Fault, self, alloc; place, detail; code)
    }

    fn same(&self, other: &Fault) -> bool {
        all_same!(self, other; code, place, detail)
    }
}

/// `PATH(LINE): error CODE: NAME: DETAIL` and a line feed. NAME is empty where the code has none.
pub fn fault_text(alloc: Global, fault: &Fault) -> Result<Text, WantOfMemory>
    ensures { IfOk result (λ t. t ≡ fault_text fault.now) }
{
    let bytes = fault_bytes(alloc, fault)?;
    Text::of(alloc, bytes.as_slice())
}

#[tactic(auto, unfolding(crate::specs::FaultText::fault_text))]
fn fault_bytes(alloc: Global, fault: &Fault) -> Result<Vec<u8>, AllocError>
    ensures { IfOk result (λ v. v.items ≡ fault_text fault.now) }
{
    let mut digits = Buffer::new();
    let mut out = Vec::from_slice(alloc, fault.place.path.bytes())?;
    out.extend_from_slice(b"(")?;
    out.extend_from_slice(digits.format(fault.place.line).as_bytes())?;
    out.extend_from_slice(b"): error ")?;
    out.extend_from_slice(digits.format(fault.code).as_bytes())?;
    out.extend_from_slice(b": ")?;
    out.extend_from_slice(name_of(fault.code))?;
    out.extend_from_slice(b": ")?;
    out.extend_from_slice(fault.detail.bytes())?;
    out.extend_from_slice(b"\n")?;
    Ok(out)
}

// The name of a code, or nothing.
fn name_of(code: u16) -> &'static [u8]
    ensures { result.now ≡ unwrap_or (fault_name code) [] }
{
    match fault_name(code) {
        Some(name) => name.as_bytes(),
        None => b"".as_slice(),
    }
}
