//! Look-ups of lines by class and of INF files by path.
ghost use Rattle.std.specs.Prelude.{◌≡◌, ◌∷◌, ◌++◌, [], true, length, nat_eq, codes, IfOk, OnOk};
ghost use Rattle.std.specs.Cmp.Lexicographic.{pointwise};
ghost use Rattle.std.specs.List.{filter_map};
ghost use Rattle.std.specs.Option.{option_copied};
ghost use Rattle.library_choice.specs.Closure.{known, instance_of, null_of, nulls};
ghost use Rattle.library_choice.specs.Lines.{chosen_line};
ghost use Rattle.line_ranks.specs.Places.{Lines};

use crate::known_infs::KnownInfs;
use build_base::{Path, Rows, Same, Text, WantOfMemory};
use doc_types::arch::covers;
use doc_types::library_lines::LibraryLines;
use doc_types::module::{InfDoc, Named};
use doc_types::platform::LibraryLine;
use indexmap::IndexMap;
use line_ranks::{Consumer, applies, best_line, line_places, picked_line};
use shared_value::Shared;
use std::alloc::Global;
use std::marker::Model;

fn is_null(class: &[u8]) -> bool
    ensures { result ≡ pointwise nat_eq class.now (codes "NULL") }
{
    class == b"NULL".as_slice()
}

#[tactic(auto, unfolding(crate::specs::Closure::null_of))]
fn null_of(user: Consumer, line: &LibraryLine) -> Option<&Path>
    ensures { option_copied result ≡ null_of user line.now }
{
    if is_null(line.class.bytes()) && applies(user, line) {
        Some(&line.instance)
    } else {
        None
    }
}

fn push_null(
    alloc: Global,
    user: Consumer,
    line: &LibraryLine,
    paths: &mut Rows<Path>,
) -> Result<(), WantOfMemory>
    ensures { OnOk result (paths.new ≡ paths.old ++ filter_map (null_of user) (line.now ∷ [])) }
{
    match null_of(user, line) {
        Some(path) => paths.push(path.copy(alloc)?),
        None => Ok(()),
    }
}

fn push_nulls(
    alloc: Global,
    user: Consumer,
    lines: &[LibraryLine],
    paths: &mut Rows<Path>,
) -> Result<(), WantOfMemory>
    ensures { OnOk result (paths.new ≡ paths.old ++ filter_map (null_of user) lines.now) }
{
    let mut left = lines;
    while let [line, rest @ ..] = left {
        push_null(alloc, user, line, paths)?;
        left = rest;
    }
    Ok(())
}

// The same of the lines of the sections, of which those of the class NULL are looked at alone.
fn push_section_nulls(
    alloc: Global,
    user: Consumer,
    sections: &LibraryLines,
    paths: &mut Rows<Path>,
) -> Result<(), WantOfMemory>
    ensures { OnOk result (paths.new ≡ paths.old ++ filter_map (null_of user) sections.now) }
{
    let lines = sections.items();
    let mut place = sections.first_place(b"NULL");
    while place < lines.len() {
        push_null(alloc, user, &lines[place], paths)?;
        place = sections.next_place(place);
    }
    Ok(())
}

// The instances that are linked without a class.
fn nulls(
    alloc: Global,
    user: Consumer,
    sections: &LibraryLines,
    own: &[LibraryLine],
) -> Result<Rows<Path>, WantOfMemory>
    ensures { IfOk result (λ paths. paths
        ≡ filter_map (null_of user) sections.now ++ filter_map (null_of user) own.now) }
{
    let mut paths = Rows::new(alloc);
    push_section_nulls(alloc, user, sections, &mut paths)?;
    push_nulls(alloc, user, own, &mut paths)?;
    Ok(paths)
}

/// What a choice is made from, with tables over it.
pub struct Tables<'a> {
    user: Consumer,
    sections: &'a LibraryLines,
    own: &'a [LibraryLine],
    own_places: IndexMap<Text, usize>,
    nulls: Rows<Path>,
    infs: KnownInfs,
}

// Written out, so that a caller that lets tables go has one call here.
impl Drop for Tables<'_> {
    fn drop(self) {
        let Tables {
            user: _user,
            sections: _sections,
            own: _own,
            own_places: _own_places,
            nulls: _nulls,
            infs: _infs,
        } = self;
    }
}

impl<'a> Model for Tables<'a> {
    ghost use Rattle.std.specs.Prelude.{true, ◌≡◌, ◌++◌};
    ghost use Rattle.std.specs.List.{filter_map};
    ghost use Rattle.library_choice.specs.Closure.{null_of};
    ghost use Rattle.library_choice.specs.Lines.{Setting};
    ghost use Rattle.line_ranks.specs.Places.{Lines};

    ghost Value = { Setting };

    ghost view = { λ t.
        record { user = t.user; sections = t.sections.now; own = t.own.now; infs = t.infs } };

    ghost invariant = { λ t.
        (Lines t.user true t.own.now t.own.now t.own_places)
        × (t.nulls ≡ filter_map (null_of t.user) t.sections.now ++ filter_map (null_of t.user) t.own.now) };
}

impl<'a> Tables<'a> {
    /// The tables over these lines and files.
    pub fn new(
        alloc: Global,
        user: Consumer,
        sections: &'a LibraryLines,
        own: &'a [LibraryLine],
        infs: KnownInfs,
    ) -> Result<Tables<'a>, WantOfMemory>
        ensures { IfOk result
            (λ t. t ≡ record { user = user; sections = sections.now; own = own.now; infs = infs }) }
    {
        let nulls = nulls(alloc, user, sections, own)?;
        let own_places = line_places(alloc, user, true, own)?;
        Ok(Tables {
            user,
            sections,
            own,
            own_places,
            nulls,
            infs,
        })
    }

    /// The same with these files known behind the others.
    pub fn with_more(
        self,
        alloc: Global,
        more: &[Shared<InfDoc>],
    ) -> Result<Tables<'a>, WantOfMemory>
        ensures { IfOk result (λ t. t
            ≡ record self.entry { infs = self.entry.infs ++ more.now }) }
    {
        let Tables {
            user,
            sections,
            own,
            own_places,
            nulls,
            infs,
        } = self;
        let infs = infs.with_more(alloc, more)?;
        Ok(Tables {
            user,
            sections,
            own,
            own_places,
            nulls,
            infs,
        })
    }

    /// Who asks.
    pub fn user(&self) -> Consumer
        ensures { result ≡ self.now.user }
    {
        self.user
    }

    /// The instances that are linked without a class: those of the sections, then those of the
    /// module's own braces.
    pub(crate) fn nulls(&self) -> &[Path]
        ensures { result.now ≡ nulls self.now }
    {
        self.nulls.items()
    }

    /// The line that gives a class its instance.
    #[tactic(auto, unfolding(crate::specs::Lines::chosen_line))]
    pub(crate) fn chosen_line(&self, class: &Text) -> Option<&'a LibraryLine>
        ensures { option_copied result ≡ chosen_line self.now class.now }
    {
        match picked_line(self.own, &self.own_places, class) {
            Some(line) => Some(line),
            None => best_line(self.user, self.sections, class.bytes()),
        }
    }

    /// How many INF files are known.
    pub fn count(&self) -> usize
        ensures { result ≡ length self.now.infs }
    {
        self.infs.len()
    }

    /// The INF file of a path, where it is known.
    pub fn inf_at(&self, path: &Path) -> Option<&InfDoc>
        ensures { option_copied result ≡ known self.now.infs path.now }
    {
        match self.infs.get(path) {
            Some(inf) => Some(inf.value()),
            None => None,
        }
    }

    /// The instance for a line of [LibraryClasses] in an INF file.
    #[tactic(auto, unfolding(crate::specs::Closure::instance_of))]
    pub(crate) fn instance_of(&self, class: &Named) -> Option<&'a Path>
        ensures { option_copied result ≡ instance_of self.now class.now }
    {
        if !covers(class.arch, self.user().arch) {
            return None;
        }
        match self.chosen_line(&class.name) {
            Some(line) => Some(&line.instance),
            None => None,
        }
    }
}
