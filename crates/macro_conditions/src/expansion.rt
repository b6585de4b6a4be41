//! The lines that a document comes to: macros, conditionals and includes.
ghost use Rattle.std.specs.Prelude.{◌≡◌, ℕ, List, [], ◌∷◌, ◌++◌, ◌<◌, ◌≤◌, ◌+◌, ◌-◌, Some, None, Ok, Err, IfOk, OnOk, map, length, get_or, slice_index, Result};
ghost use Rattle.std.specs.List.{list_any};
ghost use Rattle.build_base.specs.declared.lines.Lines.{Lines as Document};
ghost use Rattle.build_base.specs.FaultText.{fault_of};
ghost use Rattle.macro_expressions.specs.Macros.{same_text};
ghost use Rattle.macro_conditions.specs.Directives.{kind_of};
ghost use Rattle.macro_conditions.specs.declared.directive.Directive.TheVariants.{Act};
ghost use Rattle.macro_conditions.specs.declared.work.LinePlace.{LinePlace as PlaceOfLine};
ghost use Rattle.macro_conditions.specs.Sources.{answer, places, located};
ghost use Rattle.macro_conditions.specs.Expansion.{bad, need, settled, hex_digit, spot_detail, lines_read, place_of, include_field, include_path, included_file, is_open, too_long, inside, begun, document, expansion, Stop};
ghost use Rattle.build_base.specs.declared.outside.Got.{Got as Gotten};
ghost use Rattle.macro_conditions.specs.Worlds.{told, AgreesWith, HoldsIn};
ghost use Rattle.macro_conditions.specs.Work.{source_view, text_line, line_in, frames_of, env_of, left_last, state_of, Halts, stop_in, Agrees, Expands};
ghost use Rattle.macro_conditions.specs.OpenFiles.{IsInclude, Steps, Goes, lines_at, opened_of, opened, found_file, OpensFile, AtInclude, StopsAt, Turns, Tops, stack_of, names, files_of, within, Ends, root_file, Begins, IsLeft, IsPause, Comes, paired};

use crate::conditional::{active, close, end, open, turn};
use crate::directive::{Directive, directive_rest, is_include, kind_of};
use crate::known::{Known, Located, answer, locate};
use crate::places::places;
use crate::work::{
    FileText, Frame, Halted, Left, LinePlace, Next, OpenFile, SourceLine, Stopped, Work, act, bad,
    bad_at,
};
use build_base::fault_codes::{
    BAD_BYTE, BAD_PATH, FILE_ABSENT, FILE_TOO_LONG, INCLUDE_ABSENT, INCLUDE_LOOP, INCLUDE_TOO_DEEP,
};
use build_base::path::path_field;
use build_base::{Got, Lines, Macro, Path, Place, Refusal, Rows, Same, Taken, Text, WantOfMemory};
use itoa::Buffer;
use macro_expressions::macros::{Undefined, replace, without_workspace};
use macro_expressions::table::{ListedMacros, MacroTable};
use meta_lexer::LexRefusal;
use std::alloc::Global;

// How many files may be open, the root counted.
const OPEN_FILES: usize = 32;

/// The lines of a document, or the one path whose answer is wanted next.
#[derive(Drop)]
pub enum Turned {
    Need(Rows<Path>),
    Whole(Lines),
}

// What is known of files, and the fixed macros.
#[derive(Clone, Copy)]
pub(crate) struct Given<'a> {
    pub known: &'a [Known],
    pub fixed: &'a ListedMacros<'a>,
}

fn hex_digit(n: u8) -> u8
    requires { n < 16 }
    ensures { result ≡ hex_digit n }
{
    if n < 10 { b'0' + n } else { b'A' + (n - 10) }
}

// A bad byte in hexadecimal, or how long a line is.
#[tactic(auto, unfolding(crate::specs::Expansion::spot_detail))]
fn spot_detail(
    alloc: Global,
    bytes: &[u8],
    code: u16,
    start: u64,
    end: u64,
) -> Result<Vec<u8>, WantOfMemory>
    ensures { IfOk result (λ v. v.items ≡ spot_detail bytes.now code start end) }
{
    if code == BAD_BYTE {
        let byte = byte_at(bytes, start);
        return Ok(Vec::from_slice(alloc, &[hex_digit(byte / 16), hex_digit(byte % 16)])?);
    }
    let mut digits = Buffer::new();
    Ok(Vec::from_slice(alloc, digits.format(end.saturating_sub(start)).as_bytes())?)
}

// The byte at a place, or 0 where there is none.
fn byte_at(bytes: &[u8], place: u64) -> u8
    ensures { result ≡ slice_index bytes.now place }
{
    if place < bytes.len() as u64 {
        bytes[place as usize]
    } else {
        0
    }
}

fn bad_file(alloc: Global, code: u16, path: &Path, line: u64, detail: &[u8]) -> Stopped
    ensures { Halts result (Some (bad (fault_of code (place_of path.now line) detail.now))) }
{
    match path.copy(alloc) {
        Ok(path) => bad_at(alloc, code, &Place { path, line }, detail),
        Err(_) => Stopped::WantOfMemory,
    }
}

// The lines of a file, or its first faulty line.
#[tactic(auto, unfolding(crate::specs::Expansion::lines_read))]
fn lines_read(alloc: Global, path: &Path, bytes: &[u8]) -> Result<Vec<LinePlace>, Stopped>
    ensures { Agrees (λ v. map (text_line bytes.now) v.items) result
        (settled (lines_read path.now bytes.now)) }
{
    match places(alloc, bytes) {
        Ok(lines) => Ok(lines),
        Err(
            LexRefusal::Bad {
                code,
                line,
                start,
                end,
            },
        ) => {
            let detail = spot_detail(alloc, bytes, code, start, end)?;
            Err(bad_file(alloc, code, path, line, detail.as_slice()))
        }
        Err(LexRefusal::WantOfMemory) => Err(Stopped::WantOfMemory),
    }
}

fn too_long(alloc: Global, path: &Path) -> Stopped
    ensures { Halts result (Some (too_long path.now)) }
{
    bad_file(alloc, FILE_TOO_LONG, path, 0, path.bytes())
}

fn is_open(path: &Path, work: &Work) -> bool
    ensures { result ≡ is_open path.now (env_of work.now) }
{
    has_path(path.bytes(), work.open_files.as_slice())
}

fn has_path(path: &[u8], open_files: &[Path]) -> bool
    ensures { result ≡ list_any (same_text path.now) open_files.now }
{
    open_files.iter().any(|open| path == open.bytes())
}

// One line of a file: whether it is an include, which waits.
fn one_line(
    alloc: Global,
    fixed: &ListedMacros<'_>,
    work: &mut Work,
    file: FileText<'_>,
    frames: &mut Vec<Frame>,
    place: LinePlace,
) -> Result<bool, Stopped>
    ensures steps { Steps fixed.now (line_in file.entry.path.now file.entry.bytes.now place)
        (state_of file.entry.path.now file.entry.bytes.now frames.old work.old)
        (state_of file.entry.path.now file.entry.bytes.now frames.new work.new) result }
    ensures open_files { OnOk result (work.new.open_files.items ≡ work.old.open_files.items) }
{
    let line = file.line(place);
    match kind_of(line.text) {
        Directive::If => open(alloc, fixed, work, file, frames, place)?,
        Directive::Elseif => turn(alloc, fixed, work, file, frames, false, place)?,
        Directive::Else => turn(alloc, fixed, work, file, frames, true, place)?,
        Directive::Endif => close(alloc, fixed, work, file, frames, place)?,
        Directive::Act => return taken_line(alloc, fixed, work, frames, line),
    }
    Ok(false)
}

// A line that is no directive of a conditional: whether it is an include, which waits.
fn taken_line(
    alloc: Global,
    fixed: &ListedMacros<'_>,
    work: &mut Work,
    frames: &Vec<Frame>,
    line: SourceLine<'_>,
) -> Result<bool, Stopped>
    ensures steps { (path bytes : List ℕ) → kind_of line.entry.text.now ≡ Act
        → Steps fixed.now (source_view line.entry)
        (state_of path bytes frames.now work.old) (state_of path bytes frames.now work.new) result }
    ensures open_files { OnOk result (work.new.open_files.items ≡ work.old.open_files.items) }
{
    if !active(frames) {
        return Ok(false);
    }
    if is_include(line.text) {
        return Ok(true);
    }
    match act(alloc, fixed, work, line) {
        Ok(()) => Ok(false),
        Err(stopped) => Err(stopped),
    }
}

// The lines of a file, one by one, up to an include or to the end.
fn plain_lines(
    alloc: Global,
    fixed: &ListedMacros<'_>,
    work: &mut Work,
    file: FileText<'_>,
    frames: &mut Vec<Frame>,
    lines: &[LinePlace],
    from: usize,
) -> Result<usize, Stopped>
    ensures goes { Goes fixed.now (lines_at file.entry.path.now file.entry.bytes.now lines.now) from
        (state_of file.entry.path.now file.entry.bytes.now frames.old work.old)
        (state_of file.entry.path.now file.entry.bytes.now frames.new work.new) result }
    ensures further { IfOk result (λ at. from ≤ at) }
    ensures include { IfOk result (λ at. (d : PlaceOfLine) → at < length lines.now → IsInclude
        (frames_of file.entry.path.now file.entry.bytes.now frames.new.items)
        (line_in file.entry.path.now file.entry.bytes.now (get_or lines.now at d))) }
    ensures open_files { OnOk result (work.new.open_files.items ≡ work.old.open_files.items) }
{
    let mut at = from;
    while at < lines.len() {
        match one_line(alloc, fixed, work, file, frames, lines[at]) {
            Ok(true) => return Ok(at),
            Ok(false) => at += 1,
            Err(stopped) => return Err(stopped),
        }
    }
    Ok(at)
}

fn enter(work: &mut Work, path: Path) -> Result<(), WantOfMemory>
    ensures { OnOk result (env_of work.new ≡ inside path (env_of work.old)) }
{
    match work.open_files.push(path) {
        Ok(()) => Ok(()),
        Err(_) => Err(WantOfMemory),
    }
}

fn leave(work: &mut Work)
    ensures { env_of work.new ≡ left_last (env_of work.old) }
{
    let _ = work.open_files.pop();
}

// The path that an include states.
fn include_path(
    alloc: Global,
    given: Given<'_>,
    work: &Work,
    line: SourceLine<'_>,
) -> Result<Path, Stopped>
    ensures { Agrees (λ path. path) result
        (include_path (source_view line.entry)
        (include_field given.entry.fixed.now (source_view line.entry) (env_of work.now))) }
{
    let field = replace(
        alloc,
        Undefined::Kept,
        work.scope(given.fixed),
        directive_rest(line.text),
    )?;
    match path_field(alloc, without_workspace(field.as_slice()))? {
        Some(path) => Ok(path),
        None => Err(bad(alloc, BAD_PATH, line, field.as_slice())),
    }
}

// The place and the text of the file that an include of this path finds.
fn included_file<'a>(
    alloc: Global,
    known: &'a [Known],
    line: SourceLine<'_>,
    path: &Path,
) -> Result<(Path, &'a Text), Stopped>
    ensures { Agrees (λ found. (found.0, found.1.now)) result
        (included_file (source_view line.entry) path.now
        (located (answer known.now) (places line.entry.path.now path.now))) }
{
    match locate(alloc, known, line.path, path)? {
        Located::Wanted(place) => Err(Stopped::Need(place)),
        Located::Missing => Err(bad(alloc, INCLUDE_ABSENT, line, path.bytes())),
        Located::OverLimit(place) => Err(too_long(alloc, &place)),
        Located::There(place, text) => Ok((place, text)),
    }
}

// A file that is opened, at its first line.
fn opened(alloc: Global, path: Path, text: &Text) -> Result<OpenFile, Stopped>
    ensures { Agrees opened_of result (opened path text.now) }
{
    match lines_read(alloc, &path, text.bytes()) {
        Ok(lines) => {
            let text = text.copy(alloc)?;
            Ok(OpenFile {
                path,
                text,
                lines,
                next: 0,
                frames: Vec::new(alloc),
            })
        }
        Err(stopped) => Err(stopped),
    }
}

// The file that an include of this path finds, where so many files more may be open.
fn open_found(
    alloc: Global,
    work: &Work,
    levels: usize,
    line: SourceLine<'_>,
    path: &Path,
    place: Path,
    text: &Text,
) -> Result<OpenFile, Stopped>
    ensures { Agrees opened_of result
        (found_file levels (source_view line.entry) path.now place text.now (env_of work.now)) }
{
    if levels == 0 {
        return Err(bad(alloc, INCLUDE_TOO_DEEP, line, path.bytes()));
    }
    if is_open(&place, work) {
        return Err(bad(alloc, INCLUDE_LOOP, line, path.bytes()));
    }
    opened(alloc, place, text)
}

// The file that an include opens, where so many files more may be open.
fn open_included(
    alloc: Global,
    given: Given<'_>,
    work: &Work,
    levels: usize,
    line: SourceLine<'_>,
) -> Result<OpenFile, Stopped>
    ensures { OpensFile (answer given.entry.known.now) given.entry.fixed.now levels
        (source_view line.entry) (env_of work.now) result }
{
    let path = match include_path(alloc, given, work, line) {
        Ok(path) => path,
        Err(stopped) => return Err(stopped),
    };
    match included_file(alloc, given.known, line, &path) {
        Ok((place, text)) => open_found(alloc, work, levels, line, &path, place, text),
        Err(stopped) => Err(stopped),
    }
}

// A file at an include, where so many files more may be open.
fn at_include(
    alloc: Global,
    given: Given<'_>,
    work: &mut Work,
    levels: usize,
    file: OpenFile,
) -> Result<Next, Stopped>
    requires { AtInclude file }
    ensures { Turns (answer given.entry.known.now) given.entry.fixed.now levels (opened_of file)
        (env_of work.old) (env_of work.new) result }
{
    let mut file = file;
    let line = file_text(&file).line(file.lines[file.next]);
    match open_included(alloc, given, work, levels, line) {
        Ok(inner) => {
            enter(work, inner.path.copy(alloc)?)?;
            file.next += 1;
            Ok(Next::Within(file, inner))
        }
        Err(stopped) => stopped_at(file, stopped),
    }
}

// A file whose include stops.
fn stopped_at(file: OpenFile, stopped: Stopped) -> Result<Next, Stopped>
    ensures { StopsAt file stopped result }
{
    match stopped {
        Stopped::Need(path) => Ok(Next::Wants(file, path)),
        Stopped::Bad(fault) => Err(Stopped::Bad(fault)),
        Stopped::WantOfMemory => Err(Stopped::WantOfMemory),
    }
}

// The path and the bytes of a file that is open.
fn file_text(file: &OpenFile) -> FileText<'_>
    ensures path { result.path.now ≡ file.now.path }
    ensures bytes { result.bytes.now ≡ file.now.text }
{
    FileText {
        path: &file.path,
        bytes: file.text.bytes(),
    }
}

// A file at its end.
fn at_end(
    alloc: Global,
    given: Given<'_>,
    work: &mut Work,
    levels: usize,
    file: OpenFile,
) -> Result<Next, Stopped>
    requires { length file.lines.items ≤ file.next }
    ensures { Turns (answer given.entry.known.now) given.entry.fixed.now levels (opened_of file)
        (env_of work.old) (env_of work.new) result }
{
    if let Err(stopped) = end(alloc, given.fixed, file_text(&file), &file.frames) {
        return Err(stopped);
    }
    leave(work);
    Ok(Next::Ended)
}

// The innermost file goes on, up to an include or to its end, where so many files more may be open.
fn turn_file(
    alloc: Global,
    given: Given<'_>,
    work: &mut Work,
    levels: usize,
    file: OpenFile,
) -> Result<Next, Stopped>
    ensures { Turns (answer given.entry.known.now) given.entry.fixed.now levels (opened_of file)
        (env_of work.old) (env_of work.new) result }
{
    let OpenFile {
        path,
        text,
        lines,
        next,
        mut frames,
    } = file;
    let within = FileText {
        path: &path,
        bytes: text.bytes(),
    };
    match plain_lines(
        alloc,
        given.fixed,
        work,
        within,
        &mut frames,
        lines.as_slice(),
        next,
    ) {
        Ok(at) => {
            let ended = at >= lines.len();
            let file = OpenFile {
                path,
                text,
                lines,
                next: at,
                frames,
            };
            if ended {
                at_end(alloc, given, work, levels, file)
            } else {
                at_include(alloc, given, work, levels, file)
            }
        }
        Err(stopped) => Err(stopped),
    }
}

// Two files more, the inner one last.
fn push_two(files: &mut Vec<OpenFile>, file: OpenFile, inner: OpenFile) -> Result<(), WantOfMemory>
    ensures { OnOk result (files.new.items ≡ files.old.items ++ file ∷ inner ∷ []) }
{
    push_one(files, file)?;
    push_one(files, inner)
}

fn push_one(files: &mut Vec<OpenFile>, file: OpenFile) -> Result<(), WantOfMemory>
    ensures { OnOk result (files.new.items ≡ files.old.items ++ file ∷ []) }
{
    match files.push(file) {
        Ok(()) => Ok(()),
        Err(_) => Err(WantOfMemory),
    }
}

// The innermost of the files that are open goes on, up to an include or to its end: the path that
// is wanted, if one is.
fn turn_top(
    alloc: Global,
    given: Given<'_>,
    work: &mut Work,
    files: &mut Vec<OpenFile>,
    file: OpenFile,
) -> Result<Option<Path>, Stopped>
    ensures { Tops (answer given.entry.known.now) given.entry.fixed.now
        (opened_of file ∷ stack_of files.old.items) (env_of work.old)
        (stack_of files.new.items) (env_of work.new) result }
{
    let levels = (OPEN_FILES - 1).saturating_sub(files.len());
    match turn_file(alloc, given, work, levels, file) {
        Ok(Next::Ended) => Ok(None),
        Ok(Next::Within(file, inner)) => {
            push_two(files, file, inner)?;
            Ok(None)
        }
        Ok(Next::Wants(file, path)) => {
            push_one(files, file)?;
            Ok(Some(path))
        }
        Err(stopped) => Err(stopped),
    }
}

// The files that are open go on, up to the end of the root or to a path that is wanted.
fn all_files(alloc: Global, given: Given<'_>, left: Left) -> Result<Halted, Stopped>
    requires { (within left).open_files ≡ names (files_of left) }
    ensures { Ends (answer given.entry.known.now) given.entry.fixed.now (files_of left) (within left)
        result }
{
    let Left {
        mut work,
        mut files,
    } = left;
    while let Some(file) = files.pop() {
        match turn_top(alloc, given, &mut work, &mut files, file) {
            Ok(None) => {}
            Ok(Some(path)) => return Ok(Halted::Wants(path, Left { work, files })),
            Err(stopped) => return Err(stopped),
        }
    }
    Ok(Halted::Whole(work))
}

// The root of a document, at its first line.
fn open_root(alloc: Global, given: Given<'_>, root: &Path) -> Result<OpenFile, Stopped>
    ensures { Agrees opened_of result (root_file root.now (answer given.entry.known.now root.now)) }
{
    match answer(given.known, root) {
        None => Err(Stopped::Need(root.copy(alloc)?)),
        Some(Got::Absent) => Err(bad_file(alloc, FILE_ABSENT, root, 0, root.bytes())),
        Some(Got::TooLong) => Err(too_long(alloc, root)),
        Some(Got::File(text)) => opened(alloc, root.copy(alloc)?, text),
    }
}

// The root of a document as the one file that is open.
fn rooted(
    alloc: Global,
    root: &Path,
    macros: &[Macro],
    file: OpenFile,
) -> Result<Left, WantOfMemory>
    ensures { IfOk result (λ left. (files_of left ≡ opened_of file ∷ [])
        × (within left ≡ inside root.now (begun macros.now))) }
{
    let mut work = Work {
        rows: Rows::new(alloc),
        macros: MacroTable::of(alloc, macros)?,
        open_files: Vec::new(alloc),
    };
    enter(&mut work, root.copy(alloc)?)?;
    let mut files = Vec::new(alloc);
    push_one(&mut files, file)?;
    Ok(Left { work, files })
}

// A document at its beginning.
fn begin(alloc: Global, given: Given<'_>, root: &Path, macros: &[Macro]) -> Result<Left, Stopped>
    ensures { Begins (answer given.entry.known.now) root.now macros.now given.entry.fixed.now
        result }
{
    match open_root(alloc, given, root) {
        Ok(file) => Ok(rooted(alloc, root, macros, file)?),
        Err(stopped) => Err(stopped),
    }
}

fn whole(alloc: Global, root: &Path, work: Work) -> Result<Turned, Refusal>
    ensures { Expands result (document root.now (env_of work)) }
{
    let root = root.copy(alloc)?;
    let macros = work.macros.rows(alloc)?;
    Ok(Turned::Whole(Lines {
        root,
        rows: work.rows,
        macros,
    }))
}

#[tactic(auto, using(crate::proofs::FileTurns::stops))]
fn make_turned(alloc: Global, stopped: Stopped) -> Result<Turned, Refusal>
    ensures { (outcome : Result Document Stop) → Halts stopped (stop_in outcome)
        → Expands result outcome }
{
    match stopped {
        Stopped::Bad(fault) => Err(Refusal::Bad(fault)),
        Stopped::Need(path) => {
            let mut paths = Rows::new(alloc);
            paths.push(path)?;
            Ok(Turned::Need(paths))
        }
        Stopped::WantOfMemory => Err(Refusal::WantOfMemory),
    }
}

// What is left of a document goes on.
fn go_on(
    alloc: Global,
    given: Given<'_>,
    root: &Path,
    macros: &[Macro],
    left: Left,
) -> Result<(Turned, Option<Left>), Refusal>
    requires { IsLeft (answer given.known.now) root.now macros.now given.fixed.now (files_of left)
        (within left) }
    ensures { Comes (answer given.entry.known.now) root.now macros.now given.entry.fixed.now
        result }
{
    match all_files(alloc, given, left) {
        Ok(Halted::Whole(work)) => with_left(whole(alloc, root, work), None),
        Ok(Halted::Wants(path, left)) => with_left(wanted(alloc, path), Some(left)),
        Err(stopped) => with_left(make_turned(alloc, stopped), None),
    }
}

fn with_left(
    turned: Result<Turned, Refusal>,
    left: Option<Left>,
) -> Result<(Turned, Option<Left>), Refusal>
    ensures { result ≡ paired turned left }
{
    match turned {
        Ok(turned) => Ok((turned, left)),
        Err(refusal) => Err(refusal),
    }
}

fn wanted(alloc: Global, path: Path) -> Result<Turned, Refusal>
    ensures { Expands result (Err (need path)) }
{
    let mut paths = Rows::new(alloc);
    paths.push(path)?;
    Ok(Turned::Need(paths))
}

// A document goes on where it stopped, or begins.
pub(crate) fn carry_out(
    alloc: Global,
    given: Given<'_>,
    root: &Path,
    macros: &[Macro],
    left: Option<Left>,
) -> Result<(Turned, Option<Left>), Refusal>
    requires { IsPause (answer given.known.now) root.now macros.now given.fixed.now left }
    ensures { Comes (answer given.entry.known.now) root.now macros.now given.entry.fixed.now
        result }
{
    match left {
        Some(left) => go_on(alloc, given, root, macros, left),
        None => match begin(alloc, given, root, macros) {
            Ok(left) => go_on(alloc, given, root, macros, left),
            Err(stopped) => with_left(make_turned(alloc, stopped), None),
        },
    }
}

fn expanded(
    alloc: Global,
    root: &Path,
    macros: &Rows<Macro>,
    fixed: &Rows<Macro>,
    files: &Rows<Known>,
) -> Result<Turned, Refusal>
    ensures { Expands result (expansion (answer files.now) root.now macros.now fixed.now) }
{
    let fixed = ListedMacros::of(alloc, fixed.items())?;
    let given = Given {
        known: files.items(),
        fixed: &fixed,
    };
    match carry_out(alloc, given, root, macros.items(), None) {
        Ok((turned, _left)) => Ok(turned),
        Err(refusal) => Err(refusal),
    }
}

/// The lines that a document comes to, from what is known of its files: its conditionals and
/// includes are carried out, and its macros replaced. `macros` are those that it starts with, and
/// `fixed` hold above every definition of a file.
pub fn expand(
    alloc: Global,
    root: &Path,
    macros: &Rows<Macro>,
    fixed: &Rows<Macro>,
    files: &Rows<Known>,
) -> Result<Turned, Refusal>
    ensures outcome { Expands result (expansion (answer files.now) root.now macros.now fixed.now) }
    ensures worlds { (world : List ℕ → Gotten) → AgreesWith world (answer files.now)
        → HoldsIn result (expansion (told world) root.now macros.now fixed.now) }
{
    expanded(alloc, root, macros, fixed, files)
}
