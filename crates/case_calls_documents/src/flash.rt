//! A flash description as rows; what stands in a device, a volume or a file has a blank more in
//! front. Numbers are decimal.

use crate::reading::flash_at;
use crate::rows::{begin, pcd};
use build_base::{Guid, Place, Text};
use case_player::{Output, Page, Stop};
use doc_types::flash::{DevicePlan, FlashDoc, Region, RegionKind};
use doc_types::pcd::PcdSet;
use doc_types::volume::{
    Align, FilePlan, InfLine, Item, Member, RuleDoc, SectionPlan, SectionSource, VolumePlan,
};
use doc_types::volume_head::VolumeHead;

fn word_if(page: &mut Page, word: &[u8], stated: bool) {
    if stated {
        page.word(word);
    }
}

fn count_given(page: &mut Page, word: &[u8], number: Option<u64>) {
    if let Some(number) = number {
        page.count(word, number);
    }
}

fn guid_given(page: &mut Page, guid: &Option<Guid>) {
    if let Some(guid) = guid {
        page.guid(guid);
    }
}

fn text_given(page: &mut Page, word: &[u8], text: &Option<Text>) {
    if let Some(text) = text {
        page.pair(word, text.bytes());
    }
}

fn align(page: &mut Page, align: Align) {
    match align {
        Align::Unset => {}
        Align::Auto => page.word(b"auto"),
        Align::Bytes(bytes) => page.count(b"align", u64::from(bytes)),
    }
}

fn tell_set(page: &mut Page, set: &PcdSet) {
    begin(page, b"set", &set.at);
    page.count(b"rank", u64::from(set.rank));
    pcd(page, &set.pcd);
    page.word(set.value.bytes());
    page.end();
}

fn kind(page: &mut Page, kind: &RegionKind) {
    match kind {
        RegionKind::Empty => page.word(b"empty"),
        RegionKind::Volume(number) => page.count(b"volume", u64::from(*number)),
        RegionKind::Tree(path) => page.pair(b"tree", path.bytes()),
        RegionKind::Bytes(text) => {
            page.word(b"bytes");
            for byte in text.bytes() {
                page.number(u64::from(*byte));
            }
        }
    }
}

fn tell_region(page: &mut Page, region: &Region) {
    begin(page, b" region", &region.at);
    page.number(region.offset);
    page.number(region.size);
    kind(page, &region.kind);
    page.end();
}

fn tell_device(page: &mut Page, device: &DevicePlan) {
    begin(page, b"device", &device.at);
    page.word(device.name.bytes());
    page.count(b"base", device.base);
    page.count(b"size", device.size);
    page.count(b"erase", u64::from(device.erase));
    page.end();
    for region in device.regions.items() {
        tell_region(page, region);
    }
}

fn source(page: &mut Page, source: &SectionSource) {
    match source {
        SectionSource::Tree(path) => page.pair(b"tree", path.bytes()),
        SectionSource::Template(text) => page.pair(b"template", text.bytes()),
        SectionSource::Volume(number) => page.count(b"volume", u64::from(*number)),
        SectionSource::Words(text) => page.pair(b"words", text.bytes()),
        SectionSource::Refused(text) => page.pair(b"refused", text.bytes()),
    }
}

fn tell_section(page: &mut Page, section: &SectionPlan) {
    begin(page, b"  section", &section.at);
    page.count(b"kind", u64::from(section.kind));
    word_if(page, b"optional", section.optional);
    align(page, section.align);
    if section.number > 0 {
        page.count(b"number", u64::from(section.number));
    }
    guid_given(page, &section.guid);
    source(page, &section.source);
    page.end();
}

fn tell_file(page: &mut Page, file: &FilePlan) {
    begin(page, b" file", &file.at);
    page.count(b"type", u64::from(file.file_type));
    guid_given(page, &file.guid);
    word_if(page, b"fixed", file.fixed);
    word_if(page, b"checksum", file.checksum);
    align(page, file.align);
    if let Some(path) = &file.whole {
        page.pair(b"whole", path.bytes());
    }
    page.end();
    for section in file.sections.items() {
        tell_section(page, section);
    }
}

fn tell_inf(page: &mut Page, name: &[u8], line: &InfLine) {
    begin(page, name, &line.at);
    page.word(line.inf.bytes());
    if let Some(arch) = &line.arch {
        page.name(arch);
    }
    if !line.template.bytes().is_empty() {
        page.pair(b"rule", line.template.bytes());
    }
    text_given(page, b"version", &line.version);
    text_given(page, b"ui", &line.ui);
    page.end();
}

fn tell_member(page: &mut Page, member: &Member) {
    match member {
        Member::Inf(line) => tell_inf(page, b"  inf", line),
        Member::File(guid) => {
            page.put(b"  file");
            page.guid(guid);
            page.end();
        }
    }
}

fn tell_apriori(page: &mut Page, at: &Place, pei: bool, members: &[Member]) {
    begin(page, b" apriori", at);
    word_if(page, b"pei", pei);
    page.end();
    for member in members {
        tell_member(page, member);
    }
}

fn tell_item(page: &mut Page, item: &Item) {
    match item {
        Item::Apriori { at, pei, members } => tell_apriori(page, at, *pei, members.items()),
        Item::File(file) => tell_file(page, file),
        Item::Inf(line) => tell_inf(page, b" inf", line),
    }
}

fn tell_head(page: &mut Page, head: &VolumeHead) {
    begin(page, b"volume", &head.at);
    page.word(head.name.bytes());
    page.count(b"attributes", u64::from(head.attributes));
    page.count(b"erase", u64::from(head.erase));
    page.count(b"block", head.block_size);
    count_given(page, b"size", head.size);
    guid_given(page, &head.name_guid);
    count_given(page, b"base", head.base);
    word_if(page, b"force", head.force);
    word_if(page, b"ffs3", head.ffs3);
    page.end();
}

fn tell_volume(page: &mut Page, volume: &VolumePlan) {
    tell_head(page, &volume.head);
    for item in volume.items.items() {
        tell_item(page, item);
    }
}

fn tell_rule(page: &mut Page, rule: &RuleDoc) {
    begin(page, b"rule", &rule.at);
    page.name(&rule.arch);
    page.name(&rule.module_type);
    if !rule.template.bytes().is_empty() {
        page.word(rule.template.bytes());
    }
    page.end();
    tell_file(page, &rule.file);
}

fn tell_flash(page: &mut Page, flash: &FlashDoc) {
    for set in flash.sets.items() {
        tell_set(page, set);
    }
    for device in flash.devices.items() {
        tell_device(page, device);
    }
    for volume in flash.volumes.items() {
        tell_volume(page, volume);
    }
    for rule in flash.rule_list.items() {
        tell_rule(page, rule);
    }
}

// How many rows there are of each kind, and statements of the volume that has the most.
fn tell_counts(page: &mut Page, flash: &FlashDoc) -> Result<(), Stop> {
    let sets = flash.sets.items().len();
    let devices = flash.devices.items().len();
    let volumes = flash.volumes.items().len();
    let rules = flash.rule_list.items().len();
    let mut items = 0;
    for volume in flash.volumes.items() {
        items = items.max(volume.items.items().len());
    }
    let text = format!(in page.alloc();
        "sets {sets}\ndevices {devices}\nvolumes {volumes}\nitems {items}\nrules {rules}\n"
    )?;
    page.put(text.as_bytes());
    Ok(())
}

/// The rows of a document.
pub(crate) fn call_read_flash(page: &mut Page, files: &[Output], path: &str) -> Result<(), Stop> {
    let flash = flash_at(page.alloc(), files, path)?;
    tell_flash(page, &flash);
    Ok(())
}

/// How many rows a document has.
pub(crate) fn call_count_flash(page: &mut Page, files: &[Output], path: &str) -> Result<(), Stop> {
    let flash = flash_at(page.alloc(), files, path)?;
    tell_counts(page, &flash)
}
