//! The architectures that a platform supports.
ghost use Rattle.std.specs.Prelude.{◌≡◌, map};
ghost use Rattle.build_base.specs.Answer.{Answers};
ghost use Rattle.build_base.specs.First.{all_ok};
ghost use Rattle.dsc_lines.specs.Arches.{is_common, arch_value, arches_value};

use build_base::fault_codes::BAD_ARCH;
use build_base::{Place, Refusal, Rows, Text, refuse};
use doc_reading::value_fields::undefined_macros;
use doc_types::arch::{Arch, arch_named};
use meta_lexer::parts::field_texts;
use std::alloc::Global;

fn is_common(arch: Arch) -> bool
    ensures { result ≡ is_common arch }
{
    arch == Arch::Common
}

// The architecture of a word. All of them are none.
#[tactic(auto, unfolding(crate::specs::Arches::arch_value))]
fn arch_value(alloc: Global, at: &Place, word: &[u8]) -> Result<Arch, Refusal>
    ensures { Answers result (arch_value at.now word.now) }
{
    if let Some(arch) = arch_named(word) {
        if !is_common(arch) {
            return Ok(arch);
        }
    }
    Err(refuse(alloc, BAD_ARCH, at, word))
}

fn arches_of(alloc: Global, at: &Place, words: &[Text]) -> Result<Rows<Arch>, Refusal>
    ensures { Answers result (all_ok (map (arch_value at.now) words.now)) }
{
    let mut arches = Rows::new(alloc);
    for word in words {
        arches.push(arch_value(alloc, at, word.bytes())?)?;
    }
    Ok(arches)
}

/// The architectures that a field states, in order.
#[tactic(auto, unfolding(crate::specs::Arches::arches_value))]
pub(crate) fn arches_value(alloc: Global, at: &Place, text: &[u8]) -> Result<Rows<Arch>, Refusal>
    ensures { Answers result (arches_value at.now text.now) }
{
    let words = field_texts(alloc, text)?;
    undefined_macros(alloc, at, words.items())?;
    arches_of(alloc, at, words.items())
}
