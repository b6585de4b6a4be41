//! Places to which the names of PCDs come, by which rows are found. Two names may come to one place.
ghost use Rattle.std.specs.Prelude.{◌≡◌, ◌<◌, ◌++◌, codes, fold, length};
ghost use Rattle.doc_types.specs.NamePlaces.{place_of, step};
ghost use Rattle.doc_types.specs.Pcds.{full_name};

use crate::pcd::PcdName;

/// How many places there are.
pub const NAME_PLACES: usize = 2048;

fn place_from(start: usize, bytes: &[u8]) -> usize
    requires { start < 2048 }
    ensures place { result ≡ fold step start bytes.now }
    ensures below { result < 2048 }
{
    let mut place = start;
    for byte in bytes {
        place = (place * 31 + *byte as usize) % NAME_PLACES;
    }
    place
}

/// The place of a PCD's name, `Space.Name`.
#[tactic(auto, unfolding(crate::specs::NamePlaces::place_of))]
pub fn place_of(name: &[u8]) -> usize
    ensures { result ≡ place_of name.now }
{
    place_from(0, &name[name.len().saturating_sub(8)..])
}

// The place of a PCD's name whose second part has less than eight bytes.
fn place_of_parts(space: &[u8], name: &[u8]) -> usize
    requires { length name.now < 8 }
    ensures { result ≡ place_of (space.now ++ codes "." ++ name.now) }
{
    let tail = &space[space.len().saturating_sub(7 - name.len())..];
    place_from(place_from(place_from(0, tail), b"."), name)
}

/// The place of a PCD's name, which is not put together for that.
pub fn place_of_pcd(pcd: &PcdName) -> usize
    ensures { result ≡ place_of (full_name pcd.now) }
{
    let name = pcd.name.bytes();
    if name.len() < 8 {
        return place_of_parts(pcd.space.bytes(), name);
    }
    place_of(name)
}
