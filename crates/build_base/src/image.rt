//! An image as runs, seen by contracts as its bytes.
ghost use Rattle.std.specs.Prelude.{◌≡◌, ◌<◌, ◌^◌, true, length};
ghost use Rattle.build_base.specs.Runs.{runs_bytes, are_blank};

use crate::pieces::Pieces;
use crate::rows::Rows;
use crate::run::Run;
use crate::same::Same;
use crate::same_image::same_pieces;
use crate::text::WantOfMemory;
use std::alloc::Global;
use std::marker::Model;

/// The bytes of a volume or of a device. Two images are the same where their bytes are, whatever
/// their runs.
#[derive(Debug, Drop)]
pub struct Image {
    runs: Rows<Run>,
    size: u64,
}

impl Model for Image {
    ghost use Rattle.std.specs.Prelude.{List, ℕ, ◌≡◌, true, length};
    ghost use Rattle.build_base.specs.Runs.{runs_bytes, are_blank};

    ghost Value = { List ℕ };

    ghost view = { λ i. runs_bytes i.runs };

    ghost invariant = { λ i. (i.size ≡ length (runs_bytes i.runs)) × (are_blank i.runs ≡ true) };
}

fn total(runs: &[Run]) -> u64
    requires { length (runs_bytes runs.now) < 2 ^ 64 }
    ensures { result ≡ length (runs_bytes runs.now) }
{
    let mut size = 0;
    for run in runs {
        size += run.length();
    }
    size
}

impl Image {
    /// The image of these runs.
    pub fn of_runs(runs: Rows<Run>) -> Image
        requires short { length (runs_bytes runs) < 2 ^ 64 }
        requires blank { are_blank runs ≡ true }
        ensures { result ≡ runs_bytes runs }
    {
        let size = total(runs.items());
        Image { runs, size }
    }

    /// Its runs, in order.
    pub fn runs(&self) -> &[Run]
        ensures bytes { runs_bytes result.now ≡ self.now }
        ensures blank { are_blank result.now ≡ true }
    {
        self.runs.items()
    }

    /// How many bytes it has.
    pub fn length(&self) -> u64
        ensures { result ≡ length self.now }
    {
        self.size
    }

    /// Its bytes, piece by piece.
    pub fn pieces(&self) -> Pieces<'_>
        ensures { result ≡ self.now }
    {
        Pieces::of(self.runs.items())
    }
}

impl Same for Image {
    fn copy(&self, alloc: Global) -> Result<Image, WantOfMemory> {
        Ok(Image {
            runs: self.runs.copy(alloc)?,
            size: self.size,
        })
    }

    fn same(&self, other: &Image) -> bool {
        same_pieces(self.pieces(), other.pieces())
    }
}
