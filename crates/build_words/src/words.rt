//! The job of a build's words.
ghost use Rattle.std.specs.Prelude.{◌≡◌, IfOk, map, string_bytes};
ghost use Rattle.std.specs.Option.{option_map};
ghost use Rattle.clap.specs.Words.{found_of, rows_of};
ghost use Rattle.build_words.specs.Jobs.{files_of, files_in, names_of, names_in, arches_in, settings_of, settings_in, images_of, images_in, workers_by, job_in, taken_job, words_job};
ghost use Rattle.build_words.specs.Both.{both, job_by};

use crate::command::parse;
use crate::given::{needed_path, optional_name, optional_path, value, values_of};
use crate::lists::{arches_of, are_arches, each_define, each_name, each_setting};
use build_base::{Path, Rows, Text, WantOfMemory};
use clap::ArgMatches;
use job_fields::Workers;
use job_fields::job::{Files, Images, Job, Names, Settings};
use std::alloc::Global;

// Both values, where both are there.
fn both<A: Drop, B: Drop>(first: Option<A>, second: Option<B>) -> Option<(A, B)>
    ensures { result ≡ both first second }
{
    match first {
        Some(first) => match second {
            Some(second) => Some((first, second)),
            None => None,
        },
        None => None,
    }
}

#[tactic(auto, using(crate::proofs::BothLemmas::files_of_both))]
fn files_of(
    platform: Option<Path>,
    flash: Option<Option<Path>>,
    report: Option<Option<Path>>,
) -> Option<Files>
    ensures { result ≡ files_of platform flash report }
{
    match both(both(platform, flash), report) {
        Some(((platform, flash), report)) => Some(Files {
            platform,
            flash,
            report,
        }),
        None => None,
    }
}

#[tactic(auto, unfolding(crate::specs::Jobs::files_in))]
fn files_in(alloc: Global, matches: &ArgMatches) -> Result<Option<Files>, WantOfMemory>
    ensures { IfOk result (λ r. r ≡ files_in (rows_of (found_of matches.now))) }
{
    let platform = needed_path(alloc, value(matches, "platform"))?;
    let flash = optional_path(alloc, value(matches, "fdf"))?;
    let report = optional_path(alloc, value(matches, "report-file"))?;
    Ok(files_of(platform, flash, report))
}

#[tactic(auto, using(crate::proofs::BothLemmas::names_of_both))]
fn names_of(
    target: Option<Option<Text>>,
    tag: Option<Option<Text>>,
    sku: Option<Option<Text>>,
) -> Option<Names>
    ensures { result ≡ names_of target tag sku }
{
    match both(both(target, tag), sku) {
        Some(((target, tag), sku)) => Some(Names { target, tag, sku }),
        None => None,
    }
}

#[tactic(auto, unfolding(crate::specs::Jobs::names_in))]
fn names_in(alloc: Global, matches: &ArgMatches) -> Result<Option<Names>, WantOfMemory>
    ensures { IfOk result (λ r. r ≡ names_in (rows_of (found_of matches.now))) }
{
    let target = optional_name(alloc, value(matches, "buildtarget"))?;
    let tag = optional_name(alloc, value(matches, "tagname"))?;
    let sku = optional_name(alloc, value(matches, "sku-id"))?;
    Ok(names_of(target, tag, sku))
}

#[tactic(auto, unfolding(crate::specs::Jobs::arches_in))]
fn arches_in(alloc: Global, matches: &ArgMatches) -> Result<Option<Rows<Text>>, WantOfMemory>
    ensures { IfOk result (λ r. r ≡ arches_in (rows_of (found_of matches.now))) }
{
    let values = values_of(alloc, matches, "arch")?;
    if !are_arches(values.items()) {
        return Ok(None);
    }
    Ok(Some(arches_of(alloc, values.items())?))
}

#[tactic(auto, using(crate::proofs::BothLemmas::settings_of_both))]
fn settings_of(defines: Option<Rows<Text>>, pcds: Option<Rows<Text>>) -> Option<Settings>
    ensures { result ≡ settings_of defines pcds }
{
    match both(defines, pcds) {
        Some((defines, pcds)) => Some(Settings { defines, pcds }),
        None => None,
    }
}

#[tactic(auto, unfolding(crate::specs::Jobs::settings_in))]
fn settings_in(alloc: Global, matches: &ArgMatches) -> Result<Option<Settings>, WantOfMemory>
    ensures { IfOk result (λ r. r ≡ settings_in (rows_of (found_of matches.now))) }
{
    let defines = values_of(alloc, matches, "define")?;
    let pcds = values_of(alloc, matches, "pcd")?;
    Ok(settings_of(each_define(defines), each_setting(pcds)))
}

#[tactic(auto, using(crate::proofs::BothLemmas::images_of_both))]
fn images_of(devices: Option<Rows<Text>>, volumes: Option<Rows<Text>>) -> Option<Images>
    ensures { result ≡ images_of devices volumes }
{
    match both(devices, volumes) {
        Some((devices, volumes)) => Some(Images { devices, volumes }),
        None => None,
    }
}

#[tactic(auto, unfolding(crate::specs::Jobs::images_in))]
fn images_in(alloc: Global, matches: &ArgMatches) -> Result<Option<Images>, WantOfMemory>
    ensures { IfOk result (λ r. r ≡ images_in (rows_of (found_of matches.now))) }
{
    let devices = values_of(alloc, matches, "rom-image")?;
    let volumes = values_of(alloc, matches, "fv-image")?;
    Ok(images_of(each_name(devices), each_name(volumes)))
}

fn workers_by(value: Option<&str>) -> Option<Workers>
    ensures { result ≡ workers_by (option_map (λ v. v.now) value.entry) }
{
    match value {
        None => Some(Workers::one()),
        Some(text) => Workers::from_decimal(text.as_bytes()),
    }
}

type Named = (Files, Names);

type Wished = (Settings, Images);

fn named_in(alloc: Global, matches: &ArgMatches) -> Result<Option<Named>, WantOfMemory>
    ensures { IfOk result (λ r. r ≡ both (files_in (rows_of (found_of matches.now)))
        (names_in (rows_of (found_of matches.now)))) }
{
    let files = files_in(alloc, matches)?;
    let names = names_in(alloc, matches)?;
    Ok(both(files, names))
}

fn wished_in(alloc: Global, matches: &ArgMatches) -> Result<Option<Wished>, WantOfMemory>
    ensures { IfOk result (λ r. r ≡ both (settings_in (rows_of (found_of matches.now)))
        (images_in (rows_of (found_of matches.now)))) }
{
    let settings = settings_in(alloc, matches)?;
    let images = images_in(alloc, matches)?;
    Ok(both(settings, images))
}

fn job_of(
    files: Option<Named>,
    arches: Option<Rows<Text>>,
    wished: Option<Wished>,
    workers: Option<Workers>,
) -> Option<Job>
    ensures { result ≡ job_by files arches wished workers }
{
    match both(both(files, arches), both(wished, workers)) {
        Some((((files, names), arches), ((settings, images), workers))) => Some(Job {
            files,
            names,
            arches,
            settings,
            images,
            workers,
        }),
        None => None,
    }
}

#[tactic(auto, unfolding(crate::specs::Jobs::job_in), using(crate::proofs::BothLemmas::job_of_both))]
fn job_in(alloc: Global, matches: &ArgMatches) -> Result<Option<Job>, WantOfMemory>
    ensures { IfOk result (λ r. r ≡ job_in (rows_of (found_of matches.now))) }
{
    let named = named_in(alloc, matches)?;
    let arches = arches_in(alloc, matches)?;
    let wished = wished_in(alloc, matches)?;
    let workers = workers_by(value(matches, "workers"));
    Ok(job_of(named, arches, wished, workers))
}

fn taken_job(alloc: Global, words: &[String]) -> Result<Option<Job>, WantOfMemory>
    ensures { IfOk result (λ job. job ≡ taken_job (map string_bytes words.now)) }
{
    match parse(alloc, words)? {
        Some(matches) => job_in(alloc, &matches),
        None => Ok(None),
    }
}

/// The job of the words `build ..`, or nothing where they aren't in the grammar.
#[tactic(auto, unfolding(crate::specs::Jobs::words_job))]
pub fn words_job(alloc: Global, words: &[String]) -> Result<Option<Job>, WantOfMemory>
    ensures { IfOk result (λ job. job ≡ words_job (map string_bytes words.now)) }
{
    match words {
        [command, ..] => {
            if command.as_str() != "build" {
                return Ok(None);
            }
            taken_job(alloc, words)
        }
        [] => Ok(None),
    }
}
