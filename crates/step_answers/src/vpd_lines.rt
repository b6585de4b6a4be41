//! Whether a platform has lines of vital product data.
ghost use Rattle.std.specs.Prelude.{◌≡◌};
ghost use Rattle.step_answers.specs.VpdLines.{has_vpd};
ghost use Rattle.vpd_image.specs.Entries.{is_vpd};

use doc_types::platform::{PlatformDoc, Store};

// Whether a line is one of vital product data.
fn is_vpd(store: &Store) -> bool
    ensures { result ≡ is_vpd store.now }
{
    match store {
        Store::Vpd { .. } => true,
        _ => false,
    }
}

/// Whether a platform has lines of vital product data, those of its components apart.
pub fn has_vpd(platform: &PlatformDoc) -> bool
    ensures { result ≡ has_vpd platform.now }
{
    platform.pcds.items().iter().any(|line| is_vpd(&line.store))
}
