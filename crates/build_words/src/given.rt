//! What the words give to each option.
ghost use Rattle.std.specs.Prelude.{◌≡◌, [], IfOk, map, unwrap_or};
ghost use Rattle.std.specs.Option.{option_map};
ghost use Rattle.clap.specs.Words.{all_of, first_of, found_of, rows_of};
ghost use Rattle.build_words.specs.Jobs.{values_of, needed_path, optional_path, optional_name};

use build_base::path::path_field;
use build_base::{Path, Rows, Text, WantOfMemory};
use clap::ArgMatches;
use job_fields::checks::is_name;
use std::alloc::Global;

/// The value of an option.
pub fn value<'a>(matches: &ArgMatches<'a>, name: &str) -> Option<&'a str>
    ensures { option_map (λ v. v.now) result ≡ first_of name.now (rows_of (found_of matches.now)) }
{
    matches.get_str(name)
}

fn values<'m, 'a>(matches: &'m ArgMatches<'a>, name: &str) -> Option<&'m [&'a str]>
    ensures { option_map (λ s. map (λ v. v.now) s.now) result
        ≡ all_of name.now (rows_of (found_of matches.now)) }
{
    matches.get_strs(name)
}

fn texts(alloc: Global, values: &[&str]) -> Result<Rows<Text>, WantOfMemory>
    ensures { IfOk result (λ r. r ≡ map (λ v. v.now) values.now) }
{
    let mut rows = Rows::new(alloc);
    for value in values {
        rows.push(Text::of(alloc, value.as_bytes())?)?;
    }
    Ok(rows)
}

fn texts_or_none(alloc: Global, values: Option<&[&str]>) -> Result<Rows<Text>, WantOfMemory>
    ensures { IfOk result
        (λ r. r ≡ unwrap_or (option_map (λ s. map (λ v. v.now) s.now) values.entry) []) }
{
    match values {
        None => Ok(Rows::new(alloc)),
        Some(values) => texts(alloc, values),
    }
}

/// The values of an option that may be repeated.
pub fn values_of(
    alloc: Global,
    matches: &ArgMatches,
    name: &str,
) -> Result<Rows<Text>, WantOfMemory>
    ensures { IfOk result (λ r. r ≡ values_of name.now (rows_of (found_of matches.now))) }
{
    texts_or_none(alloc, values(matches, name))
}

/// The path of an option that has to be there, or none where it isn't one.
pub fn needed_path(alloc: Global, value: Option<&str>) -> Result<Option<Path>, WantOfMemory>
    ensures { IfOk result (λ r. r ≡ needed_path (option_map (λ v. v.now) value.entry)) }
{
    match value {
        None => Ok(None),
        Some(text) => path_field(alloc, text.as_bytes()),
    }
}

/// The path of an option that may be left out, or none where it isn't one.
pub fn optional_path(
    alloc: Global,
    value: Option<&str>,
) -> Result<Option<Option<Path>>, WantOfMemory>
    ensures { IfOk result (λ r. r ≡ optional_path (option_map (λ v. v.now) value.entry)) }
{
    let Some(text) = value else {
        return Ok(Some(None));
    };
    match path_field(alloc, text.as_bytes())? {
        Some(path) => Ok(Some(Some(path))),
        None => Ok(None),
    }
}

/// The name of an option that may be left out, or none where it isn't one.
pub(crate) fn optional_name(
    alloc: Global,
    value: Option<&str>,
) -> Result<Option<Option<Text>>, WantOfMemory>
    ensures { IfOk result (λ r. r ≡ optional_name (option_map (λ v. v.now) value.entry)) }
{
    let Some(text) = value else {
        return Ok(Some(None));
    };
    if !is_name(text.as_bytes()) {
        return Ok(None);
    }
    Ok(Some(Some(Text::of(alloc, text.as_bytes())?)))
}
