//! The components of a platform, by their INF files (EDK II DSC specification, [Components]).
ghost use Rattle.std.specs.Prelude.{◌≡◌, ◌++◌, [], ◌∷◌, filter, find, map, IfOk, OnOk};
ghost use Rattle.std.specs.Option.{option_copied};
ghost use Rattle.doc_types.specs.Components.{is_component, inf_number, has_lines, lines_number};

use crate::arch::{Arch, covers};
use crate::platform::Component;
use build_base::{Path, Rows, Same, WantOfMemory};
use number_chains::Chains;
use std::alloc::Global;
use std::marker::Model;

/// Components in the order of their lines, seen as a list. They are found by their INF files, and
/// those that have lines of PCDs are found at once.
pub struct Components {
    rows: Rows<Component>,
    infs: Chains,
    lines: Chains,
}

// A written `Drop` is one call for whoever lets the value go.
impl Drop for Components {
    fn drop(self) {
        let Components {
            rows: _rows,
            infs: _infs,
            lines: _lines,
        } = self;
    }
}

impl Model for Components {
    ghost use Rattle.std.specs.Prelude.{List, map};
    ghost use Rattle.doc_types.specs.declared.platform.Component.{Component};
    ghost use Rattle.doc_types.specs.Components.{inf_number, lines_number};
    ghost use Rattle.number_chains.specs.Chains.{IsChained};

    ghost Value = { List Component };

    ghost view = { λ c. c.rows };

    ghost invariant = { λ c. IsChained (map inf_number c.rows) c.infs
        × IsChained (map lines_number c.rows) c.lines };
}

fn is_component(inf: &Path, arch: Arch, component: &Component) -> bool
    ensures { result ≡ is_component inf.now arch component.now }
{
    component.inf == *inf && covers(component.arch, arch)
}

fn inf_numbers(alloc: Global, rows: &[Component]) -> Result<Vec<u64>, WantOfMemory>
    ensures { IfOk result (λ numbers. numbers.items ≡ map inf_number rows.now) }
{
    let mut numbers = Vec::with_capacity(alloc, rows.len())?;
    for row in rows {
        if numbers.push(row.inf.digest()).is_err() {
            return Err(WantOfMemory);
        }
    }
    Ok(numbers)
}

fn has_lines(component: &Component) -> bool
    ensures { result ≡ has_lines component.now }
{
    !component.pcds.items().is_empty()
}

fn lines_number(component: &Component) -> u64
    ensures { result ≡ lines_number component.now }
{
    if has_lines(component) { 1 } else { 0 }
}

fn lines_numbers(alloc: Global, rows: &[Component]) -> Result<Vec<u64>, WantOfMemory>
    ensures { IfOk result (λ numbers. numbers.items ≡ map lines_number rows.now) }
{
    let mut numbers = Vec::with_capacity(alloc, rows.len())?;
    for row in rows {
        if numbers.push(lines_number(row)).is_err() {
            return Err(WantOfMemory);
        }
    }
    Ok(numbers)
}

fn push_component<'a>(
    found: &mut Vec<&'a Component>,
    component: &'a Component,
) -> Result<(), WantOfMemory>
    ensures { OnOk result (map (λ c. c.now) found.new.items
        ≡ map (λ c. c.now) found.old.items ++ component.now ∷ []) }
{
    match found.push(component) {
        Ok(()) => Ok(()),
        Err(_) => Err(WantOfMemory),
    }
}

impl Components {
    /// These components.
    pub fn of(alloc: Global, rows: Rows<Component>) -> Result<Components, WantOfMemory>
        ensures { IfOk result (λ c. c ≡ rows) }
    {
        let numbers = inf_numbers(alloc, rows.items())?;
        let infs = Chains::of(alloc, numbers.as_slice())?;
        let numbers = lines_numbers(alloc, rows.items())?;
        let lines = Chains::of(alloc, numbers.as_slice())?;
        Ok(Components { rows, infs, lines })
    }

    /// All of them, in order.
    pub fn items(&self) -> &[Component]
        ensures { result.now ≡ self.now }
    {
        self.rows.items()
    }

    /// The same as rows.
    pub fn rows(&self) -> &Rows<Component>
        ensures { result.now ≡ self.now }
    {
        &self.rows
    }

    /// The first component of an INF file that holds for an architecture.
    pub fn find(&self, inf: &Path, arch: Arch) -> Option<&Component>
        ensures { option_copied result ≡ find (is_component inf.now arch) self.now }
    {
        let rows = self.rows.items();
        let mut place = self.infs.first(inf.digest());
        while place < rows.len() {
            let component = &rows[place];
            if is_component(inf, arch, component) {
                return Some(component);
            }
            place = self.infs.next(place);
        }
        None
    }

    /// Those that have lines of PCDs, in order.
    pub fn with_lines(&self, alloc: Global) -> Result<Vec<&Component>, WantOfMemory>
        ensures { IfOk result (λ found. map (λ c. c.now) found.items ≡ filter has_lines self.now) }
    {
        let rows = self.rows.items();
        let mut found = Vec::new(alloc);
        let mut place = self.lines.first(1);
        while place < rows.len() {
            push_component(&mut found, &rows[place])?;
            place = self.lines.next(place);
        }
        Ok(found)
    }
}

impl Same for Components {
    fn copy(&self, alloc: Global) -> Result<Components, WantOfMemory> {
        Components::of(alloc, self.rows.copy(alloc)?)
    }

    fn same(&self, other: &Components) -> bool {
        self.rows.same(&other.rows)
    }
}
