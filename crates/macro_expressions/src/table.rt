//! Macros that are found by their names.
ghost use Rattle.std.specs.Prelude.{◌≡◌, ◌<◌, ◌++◌, ◌∷◌, ℕ, [], List, Some, IfOk, OnOk, cond, length, nat_eq, slice_index_or};
ghost use Rattle.std.proofs.Common.{rules};
ghost use Rattle.std.specs.Cmp.Lexicographic.{pointwise, nat_list_eq_equiv};
ghost use Rattle.std.specs.Cmp.Rules.{comparing};
ghost use Rattle.std.specs.Option.{option_map};
ghost use Rattle.build_base.specs.Digest.{text_input, equal_texts};
ghost use Rattle.macro_expressions.specs.Macros.{macro_of, same_text, value_of, HasValues, put_macro, table_of};

use build_base::{Macro, Rows, Same, Text, WantOfMemory};
use indexmap::{Equivalent, IndexMap};
use std::alloc::Global;
use std::hash::{Hash, Hasher};
use std::marker::Model;

/// A name by which a macro is looked up, hashed as a text is.
#[derive(Clone, Copy)]
struct Name<'a> {
    bytes: &'a [u8],
}

impl<'a> PartialEq for Name<'a> {
    ghost eq = { λ a b. pointwise nat_eq a.bytes.now b.bytes.now };

    ghost laws = { Prim.search (comparing, rules) };

    fn eq(&self, other: &Name<'a>) -> bool {
        self.bytes == other.bytes
    }
}

impl<'a> Eq for Name<'a> {
    ghost laws = { Prim.search (comparing, rules) };
}

impl<'a> Hash for Name<'a> {
    ghost hash_input = { λ n. text_input n.bytes.now };

    ghost respects_eq = { λ a b. equal_texts a.bytes.now b.bytes.now };

    fn hash<H: Hasher>(&self, state: &mut H) {
        state.write(self.bytes);
    }
}

impl<'a> Equivalent<Text> for Name<'a> {
    ghost equivalent = { λ n. pointwise nat_eq n.bytes.now };

    ghost respects_hash = { λ n. equal_texts n.bytes.now };

    ghost respects_eq = { λ n. nat_list_eq_equiv.congr n.bytes.now };

    fn equivalent(&self, key: &Text) -> bool {
        self.bytes == key.bytes()
    }
}

/// Macros, each name once, in the order in which the names were first put.
#[derive(Drop)]
pub struct MacroTable {
    by_name: IndexMap<Text, Text>,
}

impl Model for MacroTable {
    ghost use Rattle.std.specs.Prelude.{List, map};
    ghost use Rattle.std.specs.HashMap.{IsUnique};
    ghost use Rattle.build_base.specs.declared.lines.Macro.{Macro as MacroRow};
    ghost use Rattle.macro_expressions.specs.Macros.{macro_of, same_text};

    ghost Value = { List MacroRow };

    ghost view = { λ t. map macro_of t.by_name.entries };

    ghost invariant = { λ t. IsUnique same_text t.by_name };
}

impl MacroTable {
    /// No macros.
    pub fn new(alloc: Global) -> MacroTable
        ensures { result ≡ [] }
    {
        MacroTable {
            by_name: IndexMap::new(alloc),
        }
    }

    /// The macros of a list: each name once, in first-seen order and with its last value.
    #[tactic(auto, unfolding(crate::specs::Macros::table_of))]
    pub fn of(alloc: Global, macros: &[Macro]) -> Result<MacroTable, WantOfMemory>
        ensures table { IfOk result (λ t. t ≡ table_of macros.now) }
        ensures values { IfOk result (λ t. HasValues t macros.now) }
    {
        let mut table = MacroTable::new(alloc);
        for m in macros {
            table.put_copy(alloc, m)?;
        }
        Ok(table)
    }

    /// How many there are.
    pub fn len(&self) -> usize
        ensures { result ≡ length self.now }
    {
        self.by_name.len()
    }

    /// The value of a macro, if it is there.
    pub fn value_of(&self, name: &[u8]) -> Option<&[u8]>
        ensures { option_map (λ v. v.now) result ≡ value_of name.now self.now }
    {
        match self.by_name.get(Name { bytes: name }) {
            Some(value) => Some(value.bytes()),
            None => None,
        }
    }

    /// Gives a macro a value: in its place, or at the end.
    pub fn put(&mut self, alloc: Global, name: &[u8], value: Text) -> Result<(), WantOfMemory>
        ensures table { OnOk result (self.new ≡ put_macro name.now value self.old) }
        ensures values { OnOk result ((other : List ℕ) → value_of other self.new
            ≡ cond (same_text name.now other) (Some value) (value_of other self.old)) }
    {
        let name = Text::of(alloc, name)?;
        match self.by_name.insert(name, value) {
            Ok(_) => Ok(()),
            Err(_) => Err(WantOfMemory),
        }
    }

    fn put_copy(&mut self, alloc: Global, m: &Macro) -> Result<(), WantOfMemory>
        ensures table { OnOk result (self.new ≡ put_macro m.now.name m.now.value self.old) }
        ensures values { OnOk result ((other : List ℕ) → value_of other self.new
            ≡ cond (same_text m.now.name other) (Some m.now.value) (value_of other self.old)) }
    {
        let value = m.value.copy(alloc)?;
        self.put(alloc, m.name.bytes(), value)
    }

    // Adds the macro at a place to some rows.
    fn push_at(
        &self,
        alloc: Global,
        place: usize,
        rows: &mut Rows<Macro>,
    ) -> Result<(), WantOfMemory>
        requires { place < length self.now }
        ensures { OnOk result
            (rows.new ≡ rows.old ++ slice_index_or self.now place (macro_of ([], [])) ∷ []) }
    {
        if let Some((name, value)) = self.by_name.get_index(place) {
            let (name, value) = (name.copy(alloc)?, value.copy(alloc)?);
            rows.push(Macro { name, value })?;
        }
        Ok(())
    }

    /// All macros, in order.
    pub fn rows(&self, alloc: Global) -> Result<Rows<Macro>, WantOfMemory>
        ensures { IfOk result (λ rows. rows ≡ self.now) }
    {
        let mut rows = Rows::new(alloc);
        for place in 0..self.len() {
            self.push_at(alloc, place, &mut rows)?;
        }
        Ok(rows)
    }
}

/// The macros of a list, of which the last of a name holds.
#[derive(Drop)]
pub struct ListedMacros<'a> {
    list: &'a [Macro],
    table: MacroTable,
}

impl<'a> Model for ListedMacros<'a> {
    ghost use Rattle.std.specs.Prelude.{List};
    ghost use Rattle.build_base.specs.declared.lines.Macro.{Macro as MacroRow};
    ghost use Rattle.macro_expressions.specs.Macros.{HasValues};

    ghost Value = { List MacroRow };

    ghost view = { λ m. m.list.now };

    ghost invariant = { λ m. HasValues m.table m.list.now };
}

impl<'a> ListedMacros<'a> {
    /// The macros of a list.
    pub fn of(alloc: Global, list: &'a [Macro]) -> Result<ListedMacros<'a>, WantOfMemory>
        ensures { IfOk result (λ m. m ≡ list.now) }
    {
        let table = MacroTable::of(alloc, list)?;
        Ok(ListedMacros { list, table })
    }

    /// The value of a macro, if it is there.
    pub fn value_of(&self, name: &[u8]) -> Option<&[u8]>
        ensures { option_map (λ v. v.now) result ≡ value_of name.now self.now }
    {
        self.table.value_of(name)
    }
}
