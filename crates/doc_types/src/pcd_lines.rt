//! Lines of documents that state something of PCDs, found by the names of the PCDs.
ghost use Rattle.std.specs.Prelude.{◌≡◌, ◌≤◌, ℕ, List, length, map, IfOk, IfSome};
ghost use Rattle.number_chains.specs.Chains.{IsChained};
ghost use Rattle.number_chains.specs.Marks.{AreMarked};
ghost use Rattle.doc_types.specs.NamePlaces.{place_of};
ghost use Rattle.doc_types.specs.Pcds.{full_name};

use crate::name_places::{NAME_PLACES, place_of_pcd};
use crate::package::DecPcd;
use crate::pcd::{PcdName, PcdSet};
use crate::platform::PcdLine;
use crate::values::PcdRow;
use build_base::{Rows, Same, WantOfMemory};
use number_chains::Chains;
use std::alloc::Global;
use std::marker::Model;

/// A line of a PCD.
pub trait HasPcd {
    /// The name of the PCD, `Space.Name`.
    ghost name_of: { Self → List ℕ };

    /// The PCD.
    fn pcd(&self) -> &PcdName
        ensures { full_name result.now ≡ name_of self.now };
}

impl HasPcd for PcdLine {
    ghost use Rattle.doc_types.specs.Pcds.{full_name};

    ghost name_of = { λ line. full_name line.pcd };

    fn pcd(&self) -> &PcdName {
        &self.pcd
    }
}

impl HasPcd for DecPcd {
    ghost use Rattle.doc_types.specs.Pcds.{full_name};

    ghost name_of = { λ line. full_name line.pcd };

    fn pcd(&self) -> &PcdName {
        &self.pcd
    }
}

impl HasPcd for PcdSet {
    ghost use Rattle.doc_types.specs.Pcds.{full_name};

    ghost name_of = { λ set. full_name set.pcd };

    fn pcd(&self) -> &PcdName {
        &self.pcd
    }
}

impl HasPcd for PcdRow {
    ghost use Rattle.doc_types.specs.Pcds.{full_name};

    ghost name_of = { λ row. full_name row.pcd };

    fn pcd(&self) -> &PcdName {
        &self.pcd
    }
}

/// Lines in their order, seen as a list. Where there are more of them than places of names, those of
/// a place are found along a chain.
pub struct PcdLines<T: HasPcd> {
    rows: Rows<T>,
    places: Option<Chains>,
}

// A written `Drop` is one call for whoever lets the value go.
impl<T: HasPcd + Drop> Drop for PcdLines<T> {
    fn drop(self) {
        let PcdLines {
            rows: _rows,
            places: _places,
        } = self;
    }
}

impl<T: HasPcd> Model for PcdLines<T> {
    ghost use Rattle.std.specs.Prelude.{List, map, IfSome};
    ghost use Rattle.number_chains.specs.Chains.{IsChained};
    ghost use Rattle.doc_types.specs.NamePlaces.{place_of};

    ghost Value = { List T };

    ghost view = { λ r. r.rows };

    ghost invariant = { λ r. IfSome r.places
        (IsChained (map (λ row. place_of (T.name_of row)) r.rows)) };
}

fn places_of<T: HasPcd>(alloc: Global, rows: &[T]) -> Result<Vec<u64>, WantOfMemory>
    ensures { IfOk result
        (λ places. places.items ≡ map (λ row. place_of (T.name_of row)) rows.now) }
{
    let mut places = Vec::with_capacity(alloc, rows.len())?;
    for row in rows {
        if places.push(place_of_pcd(row.pcd()) as u64).is_err() {
            return Err(WantOfMemory);
        }
    }
    Ok(places)
}

// The chains of the places of more rows than there are places.
fn chains_of<T: HasPcd>(alloc: Global, rows: &[T]) -> Result<Option<Chains>, WantOfMemory>
    ensures { IfOk result (λ chains. IfSome chains
        (IsChained (map (λ row. place_of (T.name_of row)) rows.now))) }
{
    if rows.len() <= NAME_PLACES {
        return Ok(None);
    }
    let places = places_of(alloc, rows)?;
    Ok(Some(Chains::of(alloc, places.as_slice())?))
}

impl<T: HasPcd + Drop> PcdLines<T> {
    /// These rows.
    pub fn of(alloc: Global, rows: Rows<T>) -> Result<PcdLines<T>, WantOfMemory>
        ensures { IfOk result (λ r. r ≡ rows) }
    {
        let places = chains_of(alloc, rows.items())?;
        Ok(PcdLines { rows, places })
    }

    /// All of them, in order.
    pub fn items(&self) -> &[T]
        ensures { result.now ≡ self.now }
    {
        self.rows.items()
    }

    /// The same as rows.
    pub fn rows(&self) -> &Rows<T>
        ensures { result.now ≡ self.now }
    {
        &self.rows
    }

    /// Of many lines those whose names come to marked places: place by place, and those of one place
    /// in their order. None where it is as well to look at all of them: there are no more than
    /// places, or places without a mark.
    pub fn marked(&self, alloc: Global, marks: &[bool]) -> Result<Option<Vec<&T>>, WantOfMemory>
        ensures { IfOk result (λ lines. IfSome lines (λ found.
            (2048 ≤ length marks.now) × AreMarked (λ row. place_of (T.name_of row)) marks.now
            self.now (map (λ r. r.now) found.items))) }
    {
        match &self.places {
            Some(places) if marks.len() >= NAME_PLACES => {
                Ok(Some(places.marked_rows(alloc, self.rows.items(), marks)?))
            }
            _ => Ok(None),
        }
    }
}

impl<T: HasPcd + Same + Drop> Same for PcdLines<T> {
    fn copy(&self, alloc: Global) -> Result<PcdLines<T>, WantOfMemory> {
        PcdLines::of(alloc, self.rows.copy(alloc)?)
    }

    fn same(&self, other: &PcdLines<T>) -> bool {
        self.rows.same(&other.rows)
    }
}
