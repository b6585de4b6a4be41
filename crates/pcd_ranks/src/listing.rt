//! The lines that name a PCD.
ghost use Rattle.std.specs.Prelude.{◌≡◌, ◌&&◌};
ghost use Rattle.std.specs.Str.{bytes_eq};
ghost use Rattle.pcd_ranks.specs.Listing.{applies};
ghost use Rattle.pcd_ranks.specs.Names.{covers};
ghost use Rattle.pcd_ranks.specs.Views.{stated_view};

use build_base::Path;
use doc_types::arch::covers;
use doc_types::choice::Module;
use doc_types::module::{InfDoc, UsedPcd};
use doc_types::package::DecPcd;
use doc_types::platform::{Component, PcdLine};

/// A line of the package of a path.
#[derive(Clone, Copy)]
pub struct DeclaredLine<'a> {
    pub from: &'a Path,
    pub line: &'a DecPcd,
}

/// A line of an INF that names a PCD.
#[derive(Clone, Copy)]
pub struct UseAt<'a> {
    pub inf: &'a InfDoc,
    pub line: &'a UsedPcd,
}

/// A line of an INF that names a PCD, for the module that has the INF: `own` are the lines by which
/// the INF's packages declare the PCD, `all` those by which the packages of all INFs of the module
/// do.
#[derive(Drop)]
pub struct UseLine<'a> {
    pub user: &'a Module,
    pub line: &'a UsedPcd,
    pub own: Vec<&'a DecPcd>,
    pub all: Vec<&'a DecPcd>,
}

/// A line of the platform, and the component in which it stands.
#[derive(Clone, Copy)]
pub struct StatedLine<'a> {
    pub home: Option<&'a Component>,
    pub line: &'a PcdLine,
}

fn is_of(user: &Module, home: &Component) -> bool
    ensures { result ≡ (bytes_eq home.now.inf user.now.inf && covers home.now.arch user.now.arch) }
{
    if home.inf.bytes() != user.inf.bytes() {
        return false;
    }
    covers(home.arch, user.arch)
}

/// Whether a line of the platform applies to a module.
#[tactic(auto, unfolding(crate::specs::Listing::applies))]
pub fn applies(user: &Module, stated: &StatedLine<'_>) -> bool
    ensures { result ≡ applies user.now (stated_view stated.now) }
{
    match stated.home {
        None => covers(stated.line.arch, user.arch),
        Some(home) => is_of(user, home),
    }
}
