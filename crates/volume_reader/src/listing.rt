//! The listing of an image.
ghost use Rattle.std.specs.Prelude.{◌≡◌, ◌≤◌, ◌<◌, ◌++◌, ◌+◌, OnOk, IfOk, IsTrue, Some, length, drop, decimal};
ghost use Rattle.std.specs.List.{flat_map};
ghost use Rattle.build_base.specs.Answer.{Answers, Finds};
ghost use Rattle.build_base.specs.FaultText.{fault_of};
ghost use Rattle.volume_reader.specs.Head.{is_head};
ghost use Rattle.volume_reader.specs.Volume.{Reads};
ghost use Rattle.volume_reader.specs.Lines.{hex};
ghost use Rattle.volume_reader.specs.Listing.{found_at, volumes_from, found_text, whole_file, listing};
ghost use Rattle.build_base.specs.FaultCodes.{NO_VOLUME, VOLUME_BAD_FILE};

use crate::find::find_volume;
use crate::lines::put_hex;
use crate::listed::{ReadRefusal, VolumeList};
use crate::nested::put_volume;
use crate::slices::rest;
use crate::volume::read_volume;
use build_base::fault_codes::{NO_VOLUME, VOLUME_BAD_FILE};
use build_base::refusal::refuse;
use build_base::{Path, Place, Refusal, Rows, Same, Text, WantOfMemory};
use itoa::Buffer;
use std::alloc::Global;

/// How many volumes may stand one in the other below one of the image.
const NESTED: u32 = 7;

/// A volume at a place of an image.
#[derive(Drop)]
pub(crate) struct FoundVolume {
    pub place: u64,
    pub list: VolumeList,
}

#[tactic(auto, unfolding(crate::specs::Listing::found_at))]
fn found_at(alloc: Global, bytes: &[u8], at: u64) -> Result<FoundVolume, ReadRefusal>
    requires head { IsTrue (is_head (drop at bytes.now)) }
    requires inside { at < length bytes.now }
    ensures value { Reads result (found_at bytes.now at) }
    ensures some { IfOk result (λ found. 0 < found.list.length) }
    ensures inside { IfOk result (λ found. at + found.list.length ≤ length bytes.now) }
{
    match read_volume(alloc, rest(bytes, at)) {
        Ok(list) => Ok(FoundVolume { place: at, list }),
        Err(ReadRefusal::BadFile(place)) => Err(ReadRefusal::BadFile(at + place)),
        Err(ReadRefusal::WantOfMemory) => Err(ReadRefusal::WantOfMemory),
    }
}

// The volumes of an image.
fn volumes(alloc: Global, bytes: &[u8]) -> Result<Rows<FoundVolume>, ReadRefusal>
    ensures { Reads result (volumes_from (length bytes.now + 1) bytes.now 0) }
{
    let mut rows = Rows::new(alloc);
    let mut from = 0;
    while let Some(at) = find_volume(bytes, from) {
        match found_at(alloc, bytes, at) {
            Ok(found) => {
                from = at + found.list.length;
                rows.push(found)?;
            }
            Err(refusal) => return Err(refusal),
        }
    }
    Ok(rows)
}

#[tactic(auto, unfolding(crate::specs::Listing::found_text))]
fn put_found(
    alloc: Global,
    out: &mut Vec<u8>,
    bytes: &[u8],
    found: &FoundVolume,
) -> Result<(), WantOfMemory>
    ensures { OnOk result (out.new.items ≡ out.old.items ++ found_text bytes.now found.now) }
{
    put_volume(
        alloc,
        out,
        NESTED,
        0,
        found.place,
        rest(bytes, found.place),
        &found.list,
    )
}

fn text_of(alloc: Global, bytes: &[u8], volumes: &[FoundVolume]) -> Result<Text, WantOfMemory>
    ensures { IfOk result (λ text. text ≡ flat_map (found_text bytes.now) volumes.now) }
{
    let mut out = Vec::new(alloc);
    let mut left = volumes;
    while let [found, rest @ ..] = left {
        put_found(alloc, &mut out, bytes, found)?;
        left = rest;
    }
    Ok(Text::from_vec(out))
}

fn place_of(alloc: Global, path: &Path) -> Result<Place, WantOfMemory>
    ensures { IfOk result (λ place. place ≡ whole_file path.now) }
{
    Ok(Place {
        path: path.copy(alloc)?,
        line: 0,
    })
}

fn no_volume(alloc: Global, at: &Place, length: u64) -> Refusal
    ensures { Finds result (Some (fault_of NO_VOLUME at.now (decimal length))) }
{
    let mut digits = Buffer::new();
    refuse(alloc, NO_VOLUME, at, digits.format(length).as_bytes())
}

fn bad_file(alloc: Global, at: &Place, place: u64) -> Result<Refusal, WantOfMemory>
    ensures { IfOk result (λ refusal. Finds refusal (Some (fault_of VOLUME_BAD_FILE at.now (hex
        place)))) }
{
    let mut detail = Vec::new(alloc);
    put_hex(alloc, &mut detail, place)?;
    Ok(refuse(alloc, VOLUME_BAD_FILE, at, detail.as_slice()))
}

/// The listing of the image that is the file of this path: its volumes in order, each with its
/// files, their sections and the volumes in those, to a depth of eight. A file in which no volume
/// is found is the fault 741, a volume with a wrong file the fault 742.
#[tactic(auto, unfolding(crate::specs::Listing::listing))]
pub fn list_text(alloc: Global, path: &Path, bytes: &[u8]) -> Result<Text, Refusal>
    ensures { Answers result (listing path.now bytes.now) }
{
    let at = place_of(alloc, path)?;
    if find_volume(bytes, 0).is_none() {
        return Err(no_volume(alloc, &at, bytes.len() as u64));
    }
    match volumes(alloc, bytes) {
        Ok(volumes) => Ok(text_of(alloc, bytes, volumes.items())?),
        Err(ReadRefusal::BadFile(place)) => Err(bad_file(alloc, &at, place)?),
        Err(ReadRefusal::WantOfMemory) => Err(Refusal::WantOfMemory),
    }
}
