//! What holds of a cache that a build of an older edition left.
ghost use Rattle.std.specs.Prelude.{◌≡◌, ◌≤◌, ◌<◌, Bool};
ghost use Rattle.std.specs.Fn.{FnReturnsAt};
ghost use Rattle.build_stages.specs.Stages.{meaning_of};
ghost use Rattle.step_engine.specs.Entries.{AreSound};
ghost use Rattle.step_pack.specs.Keys.{key_cmp};
ghost use Rattle.step_pack.specs.declared.key.Key.{Key as KeyOf};
ghost use Rattle.build_rules.specs.Adopting.{is_image, is_depex, is_vpd, is_same, stays, adopted, AreOlder, by_older};
ghost use Rattle.build_rules.specs.Rules.{edk};
ghost use Rattle.step_answers.specs.Readers.{EdkStages};

use step_engine::Cache;
use step_pack::{Key, Out};

fn is_image(key: &Key) -> bool
    ensures { result ≡ is_image key.now }
{
    match key {
        Key::File(_, _) | Key::Volume(_) | Key::Based(_) | Key::Device(_) | Key::All => true,
        _ => false,
    }
}

fn is_depex(key: &Key) -> bool
    ensures { result ≡ is_depex key.now }
{
    match key {
        Key::Depex(_) => true,
        _ => false,
    }
}

fn is_vpd(key: &Key) -> bool
    ensures { result ≡ is_vpd key.now }
{
    match key {
        Key::Vpd => true,
        _ => false,
    }
}

fn is_same(edition: u32, key: &Key) -> bool
    ensures { result ≡ is_same edition key.now }
{
    !is_image(key) && (!is_depex(key) || 2 < edition)
}

fn stays(edition: u32, key: &Key) -> bool
    ensures { result ≡ stays edition key.now }
{
    5 <= edition || (is_same(edition, key) && (!is_vpd(key) || 3 < edition))
}

// Leaves the entries that stay, by a test that tells them.
fn keep_staying<F: Fn(&Key) -> bool>(edition: u32, cache: &mut Cache<Key, Out>, wanted: &F)
    requires callable { F.IsAlwaysCallable wanted.now }
    requires right { (k : KeyOf) (b : Bool) → FnReturnsAt F.Fn wanted.now k b
        → b ≡ stays edition k }
    ensures { cache.new ≡ adopted edition cache.old }
{
    cache.keep(wanted);
}

/// The entries of a cache that still hold, where a build of this edition left it: all of the
/// newest, 5; of 4 all but those of images and of the whole build; of 3 but that of vital product
/// data too; of 2 but those of dependency expressions too. It takes no memory.
pub fn adopt(edition: u32, cache: Cache<Key, Out>) -> Cache<Key, Out>
    requires least { 2 ≤ edition }
    requires most { edition ≤ 5 }
    ensures kept { result ≡ adopted edition cache }
    ensures newest { edition ≡ 5 → result ≡ cache }
    ensures sound { edition < 5 → (older : KeyOf → EdkStages) → AreOlder edition older
        → AreSound (meaning_of key_cmp (by_older older)) cache
        → AreSound (meaning_of key_cmp edk) result }
{
    let mut cache = cache;
    keep_staying(
        edition,
        &mut cache,
        &|key: &Key| -> bool
            ensures { result ≡ stays edition key.now }
        { stays(edition, key) },
    );
    cache
}
