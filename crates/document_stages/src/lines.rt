//! The lines of a document from what is known of its files.
ghost use Rattle.std.specs.Prelude.{◌≡◌, [], Ok, IfOk, IfSome, true};
ghost use Rattle.build_stages.specs.Gives.{GivesIn};
ghost use Rattle.document_stages.specs.Documents.{got_in};
ghost use Rattle.document_stages.specs.Learning.{gets, IsTold, AreTold, IsBegun, Learns, GivesLines};

use build_base::{FILE_LIMIT, Got, Lines, Macro, Path, Permit, Rows, Same, Text, WantOfMemory};
use build_stages::{Known as KnownAnswers, StepTypes, Stop, gather};
use macro_conditions::{Known, OpenDocument, Turned};
use std::alloc::Global;
use step_engine::{Answer, Ask};

// What was got of a file.
fn content_of<K, O>(alloc: Global, answer: &Answer<O>) -> Result<Got, Stop<K>>
    ensures { GivesIn (λ got. got) result (got_in answer.now) }
{
    match answer {
        Answer::Bytes(bytes) => {
            let text = bytes.value();
            if text.bytes().len() as u64 > FILE_LIMIT {
                return Err(Stop::ImpossibleAnswer);
            }
            Ok(Got::File(text.copy(alloc)?))
        }
        Answer::Absent => Ok(Got::Absent),
        Answer::TooLong => Ok(Got::TooLong),
        _ => Err(Stop::ImpossibleAnswer),
    }
}

// What the talk tells of a path, where that can be got.
fn told_file<S: StepTypes>(
    alloc: Global,
    rules: &S,
    known: &KnownAnswers<'_, S::Key, S::Out>,
    path: &Path,
) -> Result<Option<Got>, WantOfMemory>
    ensures { IfOk result
        (λ told. IfSome told (λ got. gets S.Key.cmp S.staged.fits known.now path.now ≡ Ok got)) }
{
    let ask = Ask::File(path.copy(alloc)?);
    let Some(answer) = known.get(&ask) else {
        return Ok(None);
    };
    if !rules.fits(&ask, answer) {
        return Ok(None);
    }
    let outcome: Result<Got, Stop<S::Key>> = content_of(alloc, answer);
    match outcome {
        Ok(got) => Ok(Some(got)),
        Err(Stop::WantOfMemory) => Err(WantOfMemory),
        Err(_stop) => Ok(None),
    }
}

// The same path, whose copies share its bytes.
fn shared_path(alloc: Global, path: &Path) -> Result<Path, WantOfMemory>
    ensures { IfOk result (λ p. p ≡ path.now) }
{
    let bytes = Vec::from_slice(alloc, path.bytes())?;
    match Path::of_text(Text::from_vec_shared(alloc, bytes)?) {
        Some(shared) => Ok(shared),
        None => path.copy(alloc),
    }
}

// Whether the same was got.
fn same_got(one: &Got, other: &Got) -> bool
    ensures { result ≡ true → one.now ≡ other.now }
{
    match (one, other) {
        (Got::File(one), Got::File(other)) => one.same(other),
        (Got::Absent, Got::Absent) => true,
        (Got::TooLong, Got::TooLong) => true,
        _ => false,
    }
}

// Whether the talk tells what is known of a file.
fn is_told<S: StepTypes>(
    alloc: Global,
    rules: &S,
    known: &KnownAnswers<'_, S::Key, S::Out>,
    file: &Known,
) -> Result<bool, WantOfMemory>
    ensures { IfOk result
        (λ told. told ≡ true → IsTold (gets S.Key.cmp S.staged.fits known.now) file.now) }
{
    match told_file(alloc, rules, known, &file.path)? {
        Some(got) => Ok(same_got(&got, &file.got)),
        None => Ok(false),
    }
}

// Whether it tells what is known of each of these.
fn are_told<S: StepTypes>(
    alloc: Global,
    rules: &S,
    known: &KnownAnswers<'_, S::Key, S::Out>,
    files: &[Known],
) -> Result<bool, WantOfMemory>
    ensures { IfOk result
        (λ told. told ≡ true → AreTold (gets S.Key.cmp S.staged.fits known.now) files.now) }
{
    let mut left = files;
    while let [file, rest @ ..] = left {
        if !is_told(alloc, rules, known, file)? {
            return Ok(false);
        }
        left = rest;
    }
    Ok(true)
}

// Whether a turn can begin with a document that an earlier one left.
fn may_go_on<S: StepTypes>(
    alloc: Global,
    rules: &S,
    known: &KnownAnswers<'_, S::Key, S::Out>,
    root: &Path,
    macros: &Rows<Macro>,
    fixed: &Rows<Macro>,
    document: &OpenDocument,
) -> Result<bool, WantOfMemory>
    ensures { IfOk result (λ may. may ≡ true → IsBegun (gets S.Key.cmp S.staged.fits known.now)
        root.now macros.now fixed.now document.now) }
{
    if !document.is_of(root, macros, fixed) {
        return Ok(false);
    }
    are_told(alloc, rules, known, document.files())
}

// A document of which no file is known.
fn unread(
    alloc: Global,
    root: &Path,
    macros: &Rows<Macro>,
    fixed: &Rows<Macro>,
) -> Result<OpenDocument, WantOfMemory>
    ensures { IfOk result (λ d.
        d ≡ record { root = root.now; macros = macros.now; fixed = fixed.now; files = [] }) }
{
    let root = shared_path(alloc, root)?;
    let macros = macros.copy(alloc)?;
    let fixed = fixed.copy(alloc)?;
    Ok(OpenDocument::new(root, macros, fixed, Rows::new(alloc)))
}

// The document that an earlier turn left, where this one is told the same, else one at its
// beginning.
fn begun<S: StepTypes>(
    alloc: Global,
    rules: &S,
    known: &KnownAnswers<'_, S::Key, S::Out>,
    root: &Path,
    macros: &Rows<Macro>,
    fixed: &Rows<Macro>,
    parked: Option<OpenDocument>,
) -> Result<OpenDocument, WantOfMemory>
    ensures { IfOk result (λ d. IsBegun (gets S.Key.cmp S.staged.fits known.now)
        root.now macros.now fixed.now d) }
{
    if let Some(document) = parked {
        if may_go_on(alloc, rules, known, root, macros, fixed, &document)? {
            return Ok(document);
        }
    }
    unread(alloc, root, macros, fixed)
}

// Learns what was got of one path more.
fn learn<S: StepTypes>(
    alloc: Global,
    rules: &S,
    known: &KnownAnswers<'_, S::Key, S::Out>,
    document: &mut OpenDocument,
    path: &Path,
    permit: Permit,
) -> Result<Permit, Stop<S::Key>>
    ensures { Learns result (gets S.Key.cmp S.staged.fits known.now) path.now
        document.old document.new }
{
    let mut asks = Rows::new(alloc);
    asks.push(Ask::File(path.copy(alloc)?))?;
    let (given, permit) = gather(alloc, rules, known, asks.items(), permit)?;
    let got = content_of(alloc, given.file(path)?)?;
    document.learn(shared_path(alloc, path)?, got)?;
    Ok(permit)
}

// The lines of a document, and the permit again.
fn lines_from<S: StepTypes>(
    alloc: Global,
    rules: &S,
    known: &KnownAnswers<'_, S::Key, S::Out>,
    document: &mut OpenDocument,
    permit: Permit,
) -> Result<(Lines, Permit), Stop<S::Key>>
    requires { AreTold (gets S.Key.cmp S.staged.fits known.now) document.old.files }
    ensures { GivesLines S.Key.cmp S.staged.fits known.now
        document.old.root document.old.macros document.old.fixed result }
{
    let mut permit = permit;
    loop {
        match document.go_on(alloc) {
            Ok(Turned::Whole(lines)) => return Ok((lines, permit)),
            Ok(Turned::Need(paths)) => {
                match learn(alloc, rules, known, document, &paths.items()[0], permit) {
                    Ok(again) => permit = again,
                    Err(stop) => return Err(stop),
                }
            }
            Err(refusal) => return Err(Stop::from(refusal)),
        }
    }
}

/// The lines of a document, and the permit again. Each path that an include line comes to is asked
/// for, one after another, the document's own first. The places of a file's lines share its path.
///
/// A document that stops is parked. A later turn goes on with a parked one, if it is told the same
/// of all files that were read.
pub fn lines_of<S: StepTypes>(
    alloc: Global,
    rules: &S,
    known: &KnownAnswers<'_, S::Key, S::Out>,
    root: &Path,
    macros: &Rows<Macro>,
    fixed: &Rows<Macro>,
    park: &mut Option<OpenDocument>,
    permit: Permit,
) -> Result<(Lines, Permit), Stop<S::Key>>
    ensures { GivesLines S.Key.cmp S.staged.fits known.now root.now macros.now fixed.now result }
{
    let mut document = begun(alloc, rules, known, root, macros, fixed, park.take())?;
    match lines_from(alloc, rules, known, &mut document, permit) {
        Ok(read) => Ok(read),
        Err(stop) => {
            *park = Some(document);
            Err(stop)
        }
    }
}
