//! What rows of several documents have.

use build_base::Place;
use case_player::Page;
use doc_types::arch::Arch;
use doc_types::pcd::PcdName;

/// A row's first words: what it is and its line.
pub fn begin(page: &mut Page, name: &[u8], at: &Place) {
    page.put(name);
    page.number(at.line);
}

/// A row's first words: what it is, its line and its architecture.
pub(crate) fn begin_row(page: &mut Page, name: &[u8], at: &Place, arch: Arch) {
    begin(page, name, at);
    page.name(&arch);
}

/// A PCD's token space and its name.
pub fn pcd(page: &mut Page, pcd: &PcdName) {
    page.word(pcd.space.bytes());
    page.put(b".");
    page.put(pcd.name.bytes());
}
