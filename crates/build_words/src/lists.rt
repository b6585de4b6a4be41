//! The values of options that may be repeated.
ghost use Rattle.std.specs.Prelude.{◌≡◌, IfOk, OnOk, map};
ghost use Rattle.std.specs.Char.{to_ascii_uppercase};
ghost use Rattle.std.specs.List.{list_all};
ghost use Rattle.build_words.specs.Jobs.{each_of, has_text, put_arch, arches_of};
ghost use Rattle.job_fields.specs.Values.{is_name, is_define, is_setting, is_arch};

use build_base::{Rows, Text, WantOfMemory};
use job_fields::checks::{is_arch, is_define, is_name, is_setting};
use std::alloc::{AllocError, Global};

fn are_names(texts: &[Text]) -> bool
    ensures { result ≡ list_all is_name texts.now }
{
    texts.iter().all(|text| is_name(text.bytes()))
}

/// The texts, where each is a name.
pub(crate) fn each_name(texts: Rows<Text>) -> Option<Rows<Text>>
    ensures { result ≡ each_of is_name texts }
{
    if are_names(texts.items()) {
        Some(texts)
    } else {
        None
    }
}

fn are_defines(texts: &[Text]) -> bool
    ensures { result ≡ list_all is_define texts.now }
{
    texts.iter().all(|text| is_define(text.bytes()))
}

/// The texts, where each defines a macro.
pub(crate) fn each_define(texts: Rows<Text>) -> Option<Rows<Text>>
    ensures { result ≡ each_of is_define texts }
{
    if are_defines(texts.items()) {
        Some(texts)
    } else {
        None
    }
}

fn are_settings(texts: &[Text]) -> bool
    ensures { result ≡ list_all is_setting texts.now }
{
    texts.iter().all(|text| is_setting(text.bytes()))
}

/// The texts, where each gives a PCD a value.
pub(crate) fn each_setting(texts: Rows<Text>) -> Option<Rows<Text>>
    ensures { result ≡ each_of is_setting texts }
{
    if are_settings(texts.items()) {
        Some(texts)
    } else {
        None
    }
}

/// Whether each text names an architecture that can be built.
pub(crate) fn are_arches(texts: &[Text]) -> bool
    ensures { result ≡ list_all is_arch texts.now }
{
    texts.iter().all(|text| is_arch(text.bytes()))
}

fn has_text(texts: &[Text], text: &[u8]) -> bool
    ensures { result ≡ has_text texts.now text.now }
{
    texts.iter().any(|other| other.bytes() == text)
}

fn in_upper_case(alloc: Global, text: &[u8]) -> Result<Text, AllocError>
    ensures { IfOk result (λ t. t ≡ map to_ascii_uppercase text.now) }
{
    let mut upper = Vec::from_slice(alloc, text)?;
    upper.as_mut_slice().make_ascii_uppercase();
    Ok(Text::from_vec(upper))
}

fn put_arch(alloc: Global, arches: &mut Rows<Text>, value: &[u8]) -> Result<(), WantOfMemory>
    ensures { OnOk result (arches.new ≡ put_arch arches.old value.now) }
{
    let arch = in_upper_case(alloc, value)?;
    if has_text(arches.items(), arch.bytes()) {
        return Ok(());
    }
    arches.push(arch)
}

/// Architectures in upper case, each at its first place.
pub fn arches_of(alloc: Global, values: &[Text]) -> Result<Rows<Text>, WantOfMemory>
    ensures { IfOk result (λ arches. arches ≡ arches_of values.now) }
{
    let mut arches = Rows::new(alloc);
    let mut left = values;
    while let [value, rest @ ..] = left {
        put_arch(alloc, &mut arches, value.bytes())?;
        left = rest;
    }
    Ok(arches)
}
