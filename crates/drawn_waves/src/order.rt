//! The results of a wave in the order of its items.
ghost use Rattle.std.specs.Prelude.{◌≡◌, ◌<◌, map, replicate, vec_len, Some, None, IfOk, IsSome, All};
ghost use Rattle.drawn_waves.specs.Pieces.{placed};

use crate::pieces::Piece;
use build_base::text::WantOfMemory;
use std::alloc::Global;

// Places without a result.
fn places<R: Drop>(alloc: Global, count: usize) -> Result<Vec<Option<R>>, WantOfMemory>
    ensures items { IfOk result (λ places. places.items ≡ replicate count None) }
    ensures len { IfOk result (λ places. vec_len places ≡ count) }
{
    let mut places = Vec::new(alloc);
    for place in 0..count {
        let _ = place;
        if places.push(None).is_err() {
            return Err(WantOfMemory);
        }
    }
    Ok(places)
}

/// Each result in the place of its number.
pub(crate) fn lay<R: Drop>(
    alloc: Global,
    pieces: Vec<Piece<R>>,
    count: usize,
) -> Result<Vec<Option<R>>, WantOfMemory>
    requires below { All (λ piece. piece.number < count) pieces.items }
    ensures { IfOk result (λ places. places.items ≡ placed count pieces.items) }
{
    let mut places = places(alloc, count)?;
    for piece in pieces {
        let Piece { number, result } = piece;
        places[number as usize] = Some(result);
    }
    Ok(places)
}

/// The results out of their places.
pub(crate) fn lift<R: Drop>(alloc: Global, places: Vec<Option<R>>) -> Result<Vec<R>, WantOfMemory>
    requires full { All IsSome places.items }
    ensures { IfOk result (λ results. map Some results.items ≡ places.items) }
{
    let mut results = Vec::new(alloc);
    for place in places {
        if results.push(place.unwrap()).is_err() {
            return Err(WantOfMemory);
        }
    }
    Ok(results)
}
