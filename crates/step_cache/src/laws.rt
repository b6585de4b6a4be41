//! Laws of the text of a cache.
ghost use Rattle.std.specs.Prelude.{◌≡◌, ◌++◌, ◌∷◌, ℕ, List, [], true, take, drop};
ghost use Rattle.step_cache.specs.CacheText.{is_edition, IsTextOf};
ghost use Rattle.step_engine.specs.declared.talk.Entry.{Entry as EntryOf};
ghost use Rattle.step_pack.specs.declared.key.Key.{Key as KeyOf};
ghost use Rattle.step_pack.specs.declared.out.Out.{Out as OutOf};

/// In each edition a cache has one text at most; a text is that of one cache at most, in one
/// edition; what begins a text and is one is the whole of it; the edition stands in each, and the
/// texts of a cache differ in that alone.
#[tactic(auto, using(crate::proofs::TextLemmas::same_text))]
pub(crate) fn texts_are_one()
    ensures text { (e : ℕ) (entries : List (EntryOf KeyOf OutOf)) (a b : List ℕ) →
        IsTextOf e entries a → IsTextOf e entries b → a ≡ b }
    ensures edition { (d e : ℕ) (a b : List (EntryOf KeyOf OutOf)) (text : List ℕ) →
        IsTextOf d a text → IsTextOf e b text → d ≡ e }
    ensures cache { (d e : ℕ) (a b : List (EntryOf KeyOf OutOf)) (text : List ℕ) →
        IsTextOf d a text → IsTextOf e b text → a ≡ b }
    ensures cut { (d e : ℕ) (a b : List (EntryOf KeyOf OutOf)) (start rest : List ℕ) →
        IsTextOf d a start → IsTextOf e b (start ++ rest) → rest ≡ [] }
    ensures stands { (e : ℕ) (entries : List (EntryOf KeyOf OutOf)) (text : List ℕ) →
        IsTextOf e entries text → take 4 (drop 8 text) ≡ e ∷ 0 ∷ 0 ∷ 0 ∷ [] }
    ensures other { (d e : ℕ) (entries : List (EntryOf KeyOf OutOf)) (text : List ℕ) →
        IsTextOf d entries text → is_edition e ≡ true →
        IsTextOf e entries (take 8 text ++ e ∷ drop 9 text) }
{}
