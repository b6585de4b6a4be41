//! The bytes of the image, and the text that lists what stands in it.
ghost use Rattle.std.specs.Prelude.{◌≡◌, ◌<◌, ◌^◌, ◌++◌, ◌∷◌, [], map, decimal, IfOk, OnOk};
ghost use Rattle.std.specs.List.{flat_map};
ghost use Rattle.build_base.specs.Pieces.{put_pieces};
ghost use Rattle.std.specs.Int.{w32, to_le_bytes};
ghost use Rattle.doc_types.specs.declared.pcd.Datum.TheVariants.{U32};
ghost use Rattle.pcd_values.specs.Printing.{printed};
ghost use Rattle.vpd_image.specs.Orders.{Apart, Rising, pieces_in, laid_out};
ghost use Rattle.vpd_image.specs.Places.{greatest_end, padded};
ghost use Rattle.vpd_image.specs.Tables.{placed_view};
ghost use Rattle.vpd_image.specs.Vpd.{in_row, map_line, place_of, vpd_from};

use crate::labels::{put_label, sku_of};
use crate::places::{PlacedLine, end_of};
use crate::sizes::size_of;
use build_base::bytes::fill;
use build_base::{Rows, Same, Text, WantOfMemory};
use doc_types::pcd::Datum;
use doc_types::vpd::{Vpd, VpdPlace};
use itoa::Buffer;
use pcd_values::print_value;
use std::alloc::{AllocError, Global};

// A value, and zeros up to a size.
#[tactic(auto, unfolding(crate::specs::Places::padded))]
fn put_padded(out: &mut Vec<u8>, size: usize, value: &[u8]) -> Result<(), WantOfMemory>
    ensures { OnOk result (out.new.items ≡ out.old.items ++ padded size value.now) }
{
    let kept = value.len().min(size);
    out.extend_from_slice(&value[..kept])?;
    fill(out, (size - kept) as u64, 0)?;
    Ok(())
}

// An entry behind those of lesser offsets.
#[tactic(auto, unfolding(build_base::specs::Pieces::put_pieces))]
fn put_entry(out: &mut Vec<u8>, placed: &PlacedLine<'_>) -> Result<(), WantOfMemory>
    ensures { OnOk result
        (out.new.items ≡ put_pieces 0xFF out.old.items (pieces_in (placed_view placed.now ∷ []))) }
{
    let size = size_of(placed.entry.row) as usize;
    if 0 < size {
        let gap = (placed.offset as usize).saturating_sub(out.len());
        fill(out, gap as u64, 0xFF)?;
        put_padded(out, size, placed.entry.row.value.bytes())?;
    }
    Ok(())
}

fn put_entries(alloc: Global, all: &[PlacedLine<'_>]) -> Result<Vec<u8>, WantOfMemory>
    ensures { IfOk result
        (λ v. v.items ≡ put_pieces 0xFF [] (pieces_in (map placed_view all.now))) }
{
    let mut out = Vec::new(alloc);
    for i in 0..all.len() {
        put_entry(&mut out, &all[i])?;
    }
    Ok(out)
}

#[tactic(auto, unfolding(crate::specs::Places::greatest_end))]
fn greatest_end(all: &[PlacedLine<'_>]) -> u64
    ensures value { result ≡ greatest_end (map placed_view all.now) }
    ensures small { result < 2 ^ 33 }
{
    let mut end = 0;
    let mut i = all.len();
    while i > 0 {
        i -= 1;
        end = end_of(&all[i]).max(end);
    }
    end
}

#[tactic(auto, unfolding(crate::specs::Orders::laid_out))]
fn laid_out(alloc: Global, all: &[PlacedLine<'_>]) -> Result<Text, WantOfMemory>
    ensures { IfOk result (λ t. t ≡ laid_out (map placed_view all.now)) }
{
    let mut out = put_entries(alloc, all)?;
    let rest = (greatest_end(all) as usize).saturating_sub(out.len());
    fill(&mut out, rest as u64, 0xFF)?;
    Ok(Text::from_vec(out))
}

#[tactic(auto, unfolding(crate::specs::Vpd::in_row))]
fn put_word(out: &mut Vec<u8>, word: &[u8]) -> Result<(), AllocError>
    ensures { OnOk result (out.new.items ≡ out.old.items ++ in_row word.now) }
{
    out.extend_from_slice(b" ")?;
    out.extend_from_slice(word)?;
    Ok(())
}

fn put_offset(alloc: Global, out: &mut Vec<u8>, offset: u32) -> Result<(), WantOfMemory>
    ensures { OnOk result (out.new.items ≡ out.old.items
        ++ in_row (printed U32 (to_le_bytes w32 offset))) }
{
    let text = print_value(alloc, Datum::U32, &offset.to_le_bytes())?;
    put_word(out, text.bytes())?;
    Ok(())
}

fn put_size(out: &mut Vec<u8>, size: u32) -> Result<(), AllocError>
    ensures { OnOk result (out.new.items ≡ out.old.items ++ in_row (decimal size)) }
{
    let mut digits = Buffer::new();
    put_word(out, digits.format(size).as_bytes())?;
    Ok(())
}

#[tactic(auto, unfolding(crate::specs::Vpd::map_line))]
fn put_line(alloc: Global, out: &mut Vec<u8>, placed: &PlacedLine<'_>) -> Result<(), WantOfMemory>
    ensures { OnOk result (out.new.items ≡ out.old.items ++ map_line (placed_view placed.now)) }
{
    let row = placed.entry.row;
    let value = print_value(alloc, row.datum, row.value.bytes())?;
    put_label(out, &placed.entry.line.pcd, sku_of(placed.entry.line))?;
    put_offset(alloc, out, placed.offset)?;
    put_size(out, size_of(row))?;
    put_word(out, value.bytes())?;
    out.extend_from_slice(b"\n")?;
    Ok(())
}

fn map_text(alloc: Global, all: &[PlacedLine<'_>]) -> Result<Text, WantOfMemory>
    ensures { IfOk result (λ t. t ≡ flat_map map_line (map placed_view all.now)) }
{
    let mut out = Vec::new(alloc);
    let mut left = all;
    while let [placed, rest @ ..] = left {
        put_line(alloc, &mut out, placed)?;
        left = rest;
    }
    Ok(Text::from_vec(out))
}

fn place_of(alloc: Global, placed: &PlacedLine<'_>) -> Result<VpdPlace, WantOfMemory>
    ensures { IfOk result (λ place. place ≡ place_of (placed_view placed.now)) }
{
    let line = placed.entry.line;
    Ok(VpdPlace {
        pcd: line.pcd.copy(alloc)?,
        sku: Text::of(alloc, sku_of(line))?,
        offset: placed.offset,
        size: size_of(placed.entry.row),
    })
}

fn places(alloc: Global, all: &[PlacedLine<'_>]) -> Result<Rows<VpdPlace>, WantOfMemory>
    ensures { IfOk result (λ rows. rows ≡ map place_of (map placed_view all.now)) }
{
    let mut found = Rows::new(alloc);
    let mut left = all;
    while let [placed, rest @ ..] = left {
        found.push(place_of(alloc, placed)?)?;
        left = rest;
    }
    Ok(found)
}

/// The image of entries by their offsets, its map and its places.
#[tactic(auto, unfolding(crate::specs::Vpd::vpd_from), using(crate::proofs::ImageLemmas::image_laid_out))]
pub fn vpd_from(alloc: Global, all: &[PlacedLine<'_>]) -> Result<Vpd, WantOfMemory>
    requires apart { Apart (map placed_view all.now) }
    requires rising { Rising (map placed_view all.now) }
    ensures { IfOk result (λ vpd. vpd ≡ vpd_from (map placed_view all.now)) }
{
    let image = laid_out(alloc, all)?;
    let map = map_text(alloc, all)?;
    let places = places(alloc, all)?;
    Ok(Vpd { image, map, places })
}
