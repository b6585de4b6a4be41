//! What stands ready before the first emission.
ghost use Rattle.std.specs.Prelude.{◌≡◌, ◌++◌, ◌∷◌, [], map, IfOk};
ghost use Rattle.build_base.specs.Outside.{Cause, Emits};
ghost use Rattle.build_base.specs.Spelling.{Writes, text};
ghost use Rattle.build_base.specs.declared.outside.Target.{Target};
ghost use Rattle.build_base.specs.declared.outside.Target.TheVariants.{Out as ToOut};
ghost use Rattle.edk_build.specs.Building.{Agrees, AgreesOnGood, HasSource, Tells, result_status};
ghost use Rattle.edk_build.specs.Emitting.{below, labelled, summary};
ghost use Rattle.edk_build.specs.Made.{made_status, made_outputs, ready_outputs, IsMade, IsReady};
ghost use Rattle.step_engine.specs.declared.talk.Outcome.{Outcome};
ghost use Rattle.edk_build.specs.Outcome.{outcome_bytes, pair_of, outputs_in, files_by};
ghost use Rattle.std.specs.Prelude.{codes};

use crate::content::{Content, outcome_bytes};
use crate::file_out::{FileOut, write_all};
use crate::label::Label;
use crate::status::Status;
use crate::summary::summary;
use build_base::fault::fault_text;
use build_base::{Path, Rows, Same, Sink, SinkFailed, Target, Text, WantOfMemory};
use std::alloc::Global;
use step_engine::{Cache, Outcome};
use step_pack::{Key, Out, Output};

/// All files, or the text of the fault.
#[derive(Drop)]
pub enum Made<'a> {
    Files(Rows<FileOut<'a>>),
    Faulty(Text),
}

/// All that a build emits.
#[derive(Drop)]
pub(crate) struct PreparedOutputs<'a> {
    made: Made<'a>,
    summary: Text,
}

// The path of a file below a folder, of any length.
fn joined(alloc: Global, folder: &Path, path: &Path) -> Result<Path, WantOfMemory>
    ensures { IfOk result (λ p. p ≡ folder.now ++ codes "/" ++ path.now) }
{
    let mut bytes = Vec::from_slice(alloc, folder.bytes())?;
    bytes.extend_from_slice(b"/")?;
    bytes.extend_from_slice(path.bytes())?;
    match Path::of_text(Text::from_vec(bytes)) {
        Some(path) => Ok(path),
        None => unreachable!(),
    }
}

// The path of an output below the folder of the build.
fn below(alloc: Global, folder: &Option<Path>, path: &Path) -> Result<Path, WantOfMemory>
    ensures { IfOk result (λ p. p ≡ below folder.now path.now) }
{
    match folder {
        None => path.copy(alloc),
        Some(folder) => joined(alloc, folder, path),
    }
}

// The content of an output, lent by the entry of its step. An output without one has no bytes.
fn content_of<'a>(cache: &'a Cache<Key, Out>, output: &Output) -> Content<'a>
    ensures { (value : Key → Outcome Out) → Agrees value cache.now
        → HasSource value cache.now output.now →
        result ≡ outcome_bytes (value output.now.from) output.now.part }
{
    match cache.get(&output.from) {
        Some(entry) => outcome_bytes(&entry.result, output.part),
        None => Content::text(b"".as_slice()),
    }
}

fn file_of<'a>(
    alloc: Global,
    label: &Label,
    cache: &'a Cache<Key, Out>,
    output: &Output,
) -> Result<FileOut<'a>, WantOfMemory>
    ensures { (value : Key → Outcome Out) → Agrees value cache.now
        → HasSource value cache.now output.now →
        IfOk result (λ f. f ≡ labelled label.now (pair_of value output.now)) }
{
    let path = below(alloc, &label.folder, &output.path)?;
    FileOut::new(alloc, path, content_of(cache, output))
}

fn files_of<'a>(
    alloc: Global,
    label: &Label,
    cache: &'a Cache<Key, Out>,
    outputs: &[Output],
) -> Result<Rows<FileOut<'a>>, WantOfMemory>
    ensures { (value : Key → Outcome Out) → Tells value cache.now outputs.now →
        IfOk result (λ fs. fs ≡ map (labelled label.now) (map (pair_of value) outputs.now)) }
{
    let mut files = Rows::new(alloc);
    for output in outputs {
        files.push(file_of(alloc, label, cache, output)?)?;
    }
    Ok(files)
}

fn outputs_in(given: &Out) -> &[Output]
    ensures { result.now ≡ outputs_in given.now }
{
    match given {
        Out::All(outputs) => outputs.items(),
        _ => &[],
    }
}

fn make<'a>(
    alloc: Global,
    label: &Label,
    given: &Outcome<Out>,
    cache: &'a Cache<Key, Out>,
) -> Result<Made<'a>, WantOfMemory>
    ensures made { (value : Key → Outcome Out) → AgreesOnGood given.now value cache.now →
        IfOk result (λ m. IsMade m label.now (files_by value given.now)) }
    ensures own { IfOk result (λ m. made_status m ≡ result_status given.now) }
{
    match given {
        Outcome::Good(outputs) => Ok(Made::Files(files_of(
            alloc,
            label,
            cache,
            outputs_in(outputs.value()),
        )?)),
        Outcome::Bad(fault) => Ok(Made::Faulty(fault_text(alloc, fault.value())?)),
    }
}

/// What a build of this outcome emits, lent by the entries that it left.
pub(crate) fn make_ready<'a>(
    alloc: Global,
    label: &Label,
    given: &Outcome<Out>,
    cache: &'a Cache<Key, Out>,
    steps: u64,
    reused: u64,
) -> Result<PreparedOutputs<'a>, WantOfMemory>
    ensures ready { (value : Key → Outcome Out) → AgreesOnGood given.now value cache.now →
        IfOk result (λ r. IsReady r label.now (files_by value given.now) steps reused) }
    ensures made { (value : Key → Outcome Out) → AgreesOnGood given.now value cache.now →
        IfOk result (λ r. IsMade r.made label.now (files_by value given.now)) }
    ensures own { IfOk result (λ r. made_status r.made ≡ result_status given.now) }
    ensures line { IfOk result
        (λ r. r.summary ≡ summary label.now (result_status given.now) steps reused) }
{
    let made = make(alloc, label, given, cache)?;
    let summary = summary(alloc, label, made.status(), steps, reused)?;
    Ok(PreparedOutputs { made, summary })
}

/// Writes a text.
pub(crate) fn write_text<S: Sink>(
    sink: &mut S,
    target: &Target,
    bytes: &Text,
) -> Result<(), SinkFailed>
    ensures written { Writes (S.written sink.old) (S.written sink.new)
        (text target.now bytes.now ∷ []) result }
    ensures cause { Cause (S.faults sink.old) (S.faults sink.new) result }
{
    sink.emit(target, bytes.bytes())
}

impl Made<'_> {
    /// The status of a build that writes it.
    fn status(&self) -> Status
        ensures { result ≡ made_status self.now }
    {
        match self {
            Made::Files(_) => Status::Done,
            Made::Faulty(_) => Status::FileFault,
        }
    }

    // Writes it, without taking memory.
    fn write<S: Sink>(&self, sink: &mut S) -> Result<(), SinkFailed>
        ensures written { Writes (S.written sink.old) (S.written sink.new) (made_outputs self.now)
            result }
        ensures cause { Cause (S.faults sink.old) (S.faults sink.new) result }
    {
        match self {
            Made::Files(files) => write_all(sink, files.items()),
            Made::Faulty(message) => write_text(sink, &Target::Err, message),
        }
    }
}

impl PreparedOutputs<'_> {
    /// The status of a build that writes it.
    pub fn status(&self) -> Status
        ensures { result ≡ made_status self.now.made }
    {
        self.made.status()
    }

    /// Writes it, without taking memory.
    pub fn write<S: Sink>(&self, sink: &mut S) -> Result<(), SinkFailed>
        ensures written { Writes (S.written sink.old) (S.written sink.new) (ready_outputs self.now)
            result }
        ensures cause { Cause (S.faults sink.old) (S.faults sink.new) result }
    {
        if let Err(failed) = self.made.write(sink) {
            return Err(failed);
        }
        if let Err(failed) = write_text(sink, &Target::Out, &self.summary) {
            return Err(failed);
        }
        Ok(())
    }

    /// Writes all but the summary, without taking memory.
    pub(crate) fn write_outputs<S: Sink>(&self, sink: &mut S) -> Result<(), SinkFailed>
        ensures written { Writes (S.written sink.old) (S.written sink.new)
            (made_outputs self.now.made) result }
        ensures cause { Cause (S.faults sink.old) (S.faults sink.new) result }
    {
        self.made.write(sink)
    }

    /// Writes the summary, without taking memory.
    pub(crate) fn write_summary<S: Sink>(&self, sink: &mut S) -> Result<(), SinkFailed>
        ensures written { Emits (S.written sink.old) (S.written sink.new) ToOut self.now.summary
            result }
        ensures cause { Cause (S.faults sink.old) (S.faults sink.new) result }
    {
        sink.emit(&Target::Out, self.summary.bytes())
    }
}
