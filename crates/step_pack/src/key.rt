//! The keys of a build's steps.
ghost use Rattle.std.specs.Prelude.{◌≡◌};
ghost use Rattle.std.proofs.Common.{rules};
ghost use Rattle.std.specs.Cmp.{eq_by_cmp_equiv, partial_equiv_from_equiv, partial_order_from_total};
ghost use Rattle.std.specs.Ordering.{as_partial_cmp, eq_by_cmp};
ghost use Rattle.step_pack.specs.Hashing.{path_number, fields_number, key_input, equal_inputs};
ghost use Rattle.step_pack.specs.KeyLaws.{keys_total};
ghost use Rattle.step_pack.specs.Keys.{key_cmp, held_cmp, module_cmp, item_cmp, variant, arch_of, path_of, first_of, second_of};

use crate::order::{arch_byte, number_cmp, path_cmp};
use build_base::{Path, Same, WantOfMemory};
use doc_types::choice::Module;
use std::alloc::Global;
use std::cmp::Ordering;
use std::hash::{Hash, Hasher};

/// A step of a build. `File(v, i)` is item i of volume v, `Based(v)` is volume v moved to its base;
/// volumes, items and devices count from 0.
#[derive(Drop)]
pub enum Key {
    Dec(Path),
    Inf(Path),
    Platform,
    Flash,
    Choice(Module),
    PlatformPcds,
    Values(Module),
    Code(Module),
    Depex(Module),
    File(u32, u32),
    Volume(u32),
    Device(u32),
    Report,
    All,
    Vpd,
    Based(u32),
}

impl Key {
    // The number of the variant, in the order of declaration.
    pub(crate) fn variant(&self) -> u8
        ensures { result ≡ variant self.now }
    {
        match self {
            Key::Dec(_) => 0,
            Key::Inf(_) => 1,
            Key::Platform => 2,
            Key::Flash => 3,
            Key::Choice(_) => 4,
            Key::PlatformPcds => 5,
            Key::Values(_) => 6,
            Key::Code(_) => 7,
            Key::Depex(_) => 8,
            Key::File(_, _) => 9,
            Key::Volume(_) => 10,
            Key::Device(_) => 11,
            Key::Report => 12,
            Key::All => 13,
            Key::Vpd => 14,
            Key::Based(_) => 15,
        }
    }

    // The byte of the architecture, where there is one, else 0.
    pub(crate) fn arch(&self) -> u8
        ensures { result ≡ arch_of self.now }
    {
        match self {
            Key::Choice(module) | Key::Values(module) | Key::Code(module) | Key::Depex(module) => {
                arch_byte(module.arch)
            }
            _ => 0,
        }
    }

    // The path, where there is one, else none of its bytes.
    pub(crate) fn path(&self) -> &[u8]
        ensures { result.now ≡ path_of self.now }
    {
        match self {
            Key::Dec(path) | Key::Inf(path) => path.bytes(),
            Key::Choice(module) | Key::Values(module) | Key::Code(module) | Key::Depex(module) => {
                module.inf.bytes()
            }
            _ => b"".as_slice(),
        }
    }

    // The first number, where there is one, else 0.
    pub(crate) fn first(&self) -> u32
        ensures { result ≡ first_of self.now }
    {
        match self {
            Key::File(number, _) | Key::Volume(number) | Key::Device(number) | Key::Based(number) =>
                *number,
            _ => 0,
        }
    }

    // The second number, where there is one, else 0.
    pub(crate) fn second(&self) -> u32
        ensures { result ≡ second_of self.now }
    {
        match self {
            Key::File(_, number) => *number,
            _ => 0,
        }
    }

    // The digest of the path, where there is one, else 0.
    fn path_number(&self) -> u64
        ensures { result ≡ path_number self.now }
    {
        match self {
            Key::Dec(path) | Key::Inf(path) => path.digest(),
            Key::Choice(module) | Key::Values(module) | Key::Code(module) | Key::Depex(module) => {
                module.inf.digest()
            }
            _ => 0,
        }
    }

    // The fields but for the path, as one number.
    fn fields_number(&self) -> u64
        ensures { result ≡ fields_number self.now }
    {
        let numbers = self.first() as u64 * 65536 + self.second() as u64;
        numbers * 256 + self.arch() as u64 * 16 + self.variant() as u64
    }

    // The order by the fields that this key has.
    fn fields_cmp(&self, other: &Key) -> Ordering
        ensures { result ≡ held_cmp self.now other.now }
    {
        match self {
            Key::Dec(path) | Key::Inf(path) => path_cmp(path.bytes(), other.path()),
            Key::Choice(module) | Key::Values(module) | Key::Code(module) | Key::Depex(module) => {
                module_cmp(module, other)
            }
            Key::File(volume, item) => item_cmp(*volume, *item, other),
            Key::Volume(number) | Key::Device(number) | Key::Based(number) => {
                number_cmp(*number, other.first())
            }
            Key::Platform | Key::Flash | Key::PlatformPcds | Key::Report | Key::All | Key::Vpd => {
                Ordering::Equal
            }
        }
    }
}

fn module_cmp(ours: &Module, other: &Key) -> Ordering
    ensures { result ≡ module_cmp ours.now other.now }
{
    match arch_byte(ours.arch).cmp(&other.arch()) {
        Ordering::Equal => path_cmp(ours.inf.bytes(), other.path()),
        differing => differing,
    }
}

fn item_cmp(volume: u32, item: u32, other: &Key) -> Ordering
    ensures { result ≡ item_cmp volume item other.now }
{
    match number_cmp(volume, other.first()) {
        Ordering::Equal => number_cmp(item, other.second()),
        differing => differing,
    }
}

impl PartialEq for Key {
    ghost eq = { eq_by_cmp key_cmp };

    ghost laws = { partial_equiv_from_equiv (eq_by_cmp_equiv keys_total) };

    fn eq(&self, other: &Key) -> bool {
        self.same(other)
    }
}

impl Eq for Key {
    ghost laws = { eq_by_cmp_equiv keys_total };
}

impl Hash for Key {
    ghost hash_input = { key_input };

    ghost respects_eq = { equal_inputs };

    fn hash<H: Hasher>(&self, state: &mut H) {
        state.write_u64(self.path_number().wrapping_add(self.fields_number()));
    }
}

impl PartialOrd for Key {
    ghost partial_cmp = { as_partial_cmp key_cmp };

    ghost laws = { partial_order_from_total keys_total };

    fn partial_cmp(&self, other: &Key) -> Option<Ordering> {
        Some(self.cmp(other))
    }
}

impl Ord for Key {
    ghost cmp = { key_cmp };

    ghost total = { keys_total };

    ghost matches_partial_cmp = { Prim.search rules };

    ghost matches_eq = { Prim.search rules };

    #[tactic(auto, using(crate::proofs::KeyLemmas::alike, crate::proofs::KeyLemmas::apart))]
    fn cmp(&self, other: &Key) -> Ordering {
        match self.variant().cmp(&other.variant()) {
            Ordering::Equal => self.fields_cmp(other),
            differing => differing,
        }
    }
}

impl Same for Key {
    fn copy(&self, alloc: Global) -> Result<Key, WantOfMemory> {
        match self {
            Key::Dec(path) => Ok(Key::Dec(path.copy(alloc)?)),
            Key::Inf(path) => Ok(Key::Inf(path.copy(alloc)?)),
            Key::Platform => Ok(Key::Platform),
            Key::Flash => Ok(Key::Flash),
            Key::Choice(module) => Ok(Key::Choice(module.copy(alloc)?)),
            Key::PlatformPcds => Ok(Key::PlatformPcds),
            Key::Values(module) => Ok(Key::Values(module.copy(alloc)?)),
            Key::Code(module) => Ok(Key::Code(module.copy(alloc)?)),
            Key::Depex(module) => Ok(Key::Depex(module.copy(alloc)?)),
            Key::File(volume, item) => Ok(Key::File(*volume, *item)),
            Key::Volume(number) => Ok(Key::Volume(*number)),
            Key::Device(number) => Ok(Key::Device(*number)),
            Key::Report => Ok(Key::Report),
            Key::All => Ok(Key::All),
            Key::Vpd => Ok(Key::Vpd),
            Key::Based(number) => Ok(Key::Based(*number)),
        }
    }

    fn same(&self, other: &Key) -> bool {
        match (self, other) {
            (Key::Dec(ours), Key::Dec(others)) => ours.same(others),
            (Key::Inf(ours), Key::Inf(others)) => ours.same(others),
            (Key::Platform, Key::Platform) => true,
            (Key::Flash, Key::Flash) => true,
            (Key::Choice(ours), Key::Choice(others)) => ours.same(others),
            (Key::PlatformPcds, Key::PlatformPcds) => true,
            (Key::Values(ours), Key::Values(others)) => ours.same(others),
            (Key::Code(ours), Key::Code(others)) => ours.same(others),
            (Key::Depex(ours), Key::Depex(others)) => ours.same(others),
            (Key::File(volume, item), Key::File(others, at)) => *volume == *others && *item == *at,
            (Key::Volume(ours), Key::Volume(others)) => *ours == *others,
            (Key::Device(ours), Key::Device(others)) => *ours == *others,
            (Key::Report, Key::Report) => true,
            (Key::All, Key::All) => true,
            (Key::Vpd, Key::Vpd) => true,
            (Key::Based(ours), Key::Based(others)) => *ours == *others,
            _ => false,
        }
    }
}
