//! What an expansion has taken so far, and what one line adds to it.
ghost use Rattle.std.specs.Prelude.{◌≡◌, IfOk, IfErr, OnOk, Some, Ok};
ghost use Rattle.build_base.specs.FaultText.{fault_of};
ghost use Rattle.macro_expressions.specs.Macros.{replaced};
ghost use Rattle.macro_expressions.specs.Scopes.{scope_of};
ghost use Rattle.meta_lexer.specs.Lines.{without_blanks};
ghost use Rattle.macro_conditions.specs.Directives.{macro_named, directive_rest, definition_of};
ghost use Rattle.macro_conditions.specs.Expansion.{bad, settled, is_full, fault_at, holds, names, tested, defined, written, apply_directive, scope};
ghost use Rattle.macro_conditions.specs.Work.{source_view, env_of, text_at, line_in, Halts, Agrees};

use crate::directive::{
    definition_of, directive_rest, directive_word, is_definition, is_directive, macro_named,
};
use build_base::fault_codes::{BAD_DIRECTIVE, BAD_EXPRESSION, TOO_MANY_MACROS};
use build_base::{
    Fault, Macro, Path, Place, Refusal, Rows, Same, Taken, Text, WantOfMemory, refuse,
};
use macro_expressions::expression::{Value, detail, value_in};
use macro_expressions::macros::{Scope, Undefined, is_plain, replace};
use macro_expressions::table::{ListedMacros, MacroTable};
use meta_lexer::line::trim;
use meta_lexer::words::same_word;
use std::alloc::Global;

// How many names of macros there may be.
const MACRO_LIMIT: usize = 4096;

// A line of a file, as it stands there.
#[derive(Clone, Copy)]
pub(crate) struct SourceLine<'a> {
    pub path: &'a Path,
    pub number: u64,
    pub text: &'a [u8],
}

// A line of a file: its number, where its text begins, and how many bytes it has.
#[derive(Clone, Copy)]
pub(crate) struct LinePlace {
    pub number: u64,
    pub start: usize,
    pub count: usize,
}

// A file: its path and its bytes.
#[derive(Clone, Copy)]
pub(crate) struct FileText<'a> {
    pub path: &'a Path,
    pub bytes: &'a [u8],
}

// What has become of a conditional: its branch is taken, none was yet, or none is any more.
#[derive(Clone, Copy)]
pub(crate) enum Mode {
    Taking,
    Waiting,
    Passing,
}

// An open conditional: its `!if`, its mode, and whether its `!else` was seen.
#[derive(Clone, Copy)]
pub(crate) struct Frame {
    pub opener: LinePlace,
    pub mode: Mode,
    pub last: bool,
}

// Why an expansion stops.
#[derive(Drop)]
pub(crate) enum Stopped {
    Bad(Fault),
    Need(Path),
    WantOfMemory,
}

impl From<WantOfMemory> for Stopped {
    ghost use Rattle.std.specs.Prelude.{◌≡◌};
    ghost use Rattle.macro_conditions.specs.declared.work.Stopped.TheVariants.{WantOfMemory as Wanting};

    ghost from_gives = { λ _ e. e ≡ Wanting };

    fn from(_: WantOfMemory) -> Stopped {
        Stopped::WantOfMemory
    }
}

// The lines taken, the macros of the files, and the files that are open, the innermost last.
#[derive(Drop)]
pub(crate) struct Work {
    pub rows: Rows<Taken>,
    pub macros: MacroTable,
    pub open_files: Vec<Path>,
}

// So many bytes behind a start, or as many as there are.
pub(crate) fn text_at(bytes: &[u8], place: LinePlace) -> &[u8]
    ensures { result.now ≡ text_at bytes.now place }
{
    let rest = &bytes[place.start.min(bytes.len())..];
    &rest[..place.count.min(rest.len())]
}

impl<'a> FileText<'a> {
    // The line at a place.
    pub(crate) fn line(self, place: LinePlace) -> SourceLine<'a>
        ensures { source_view result ≡ line_in self.entry.path.now self.entry.bytes.now place }
    {
        SourceLine {
            path: self.path,
            number: place.number,
            text: text_at(self.bytes, place),
        }
    }
}

// A file that is open: its lines, which of them is the next, and its open conditionals.
#[derive(Drop)]
pub(crate) struct OpenFile {
    pub path: Path,
    pub text: Text,
    pub lines: Vec<LinePlace>,
    pub next: usize,
    pub frames: Vec<Frame>,
}

// Where a file stops: at its end, at an include that opens another file, or at one whose path is
// wanted.
#[derive(Drop)]
pub(crate) enum Next {
    Ended,
    Within(OpenFile, OpenFile),
    Wants(OpenFile, Path),
}

// What is left of a document: the files that are open, the innermost last, and the work so far.
#[derive(Drop)]
pub(crate) struct Left {
    pub work: Work,
    pub files: Vec<OpenFile>,
}

// A document at its end, or at a path that is wanted.
#[derive(Drop)]
pub(crate) enum Halted {
    Whole(Work),
    Wants(Path, Left),
}

fn place(alloc: Global, line: SourceLine<'_>) -> Result<Place, WantOfMemory>
    ensures { IfOk result (λ p. p ≡ (source_view line.entry).at) }
{
    Ok(Place {
        path: line.path.copy(alloc)?,
        line: line.number,
    })
}

// The fault of a line, with its detail.
pub(crate) fn bad(alloc: Global, code: u16, line: SourceLine<'_>, detail: &[u8]) -> Stopped
    ensures { Halts result (Some (bad (fault_at code (source_view line.entry) detail.now))) }
{
    match place(alloc, line) {
        Ok(at) => bad_at(alloc, code, &at, detail),
        Err(_) => Stopped::WantOfMemory,
    }
}

// The fault of a place, with its detail.
pub(crate) fn bad_at(alloc: Global, code: u16, at: &Place, detail: &[u8]) -> Stopped
    ensures { Halts result (Some (bad (fault_of code at.now detail.now))) }
{
    match refuse(alloc, code, at, detail) {
        Refusal::Bad(fault) => Stopped::Bad(fault),
        Refusal::WantOfMemory => Stopped::WantOfMemory,
    }
}

fn is_full(name: &[u8], macros: &MacroTable) -> bool
    ensures { result ≡ is_full name.now macros.now }
{
    macros.value_of(name).is_none() && macros.len() >= MACRO_LIMIT
}

fn holds(alloc: Global, line: SourceLine<'_>, value: Result<Value, u16>) -> Result<bool, Stopped>
    ensures { Agrees (λ b. b) result (settled (holds (source_view line.entry) value)) }
{
    let text = directive_rest(line.text);
    match value {
        Ok(Value::Number(n)) => Ok(n != 0),
        Ok(Value::Word(_)) => Err(bad(alloc, BAD_EXPRESSION, line, text)),
        Err(code) => Err(bad(alloc, code, line, detail(code, text))),
    }
}

fn names(alloc: Global, line: SourceLine<'_>, scope: Scope<'_>) -> Result<bool, Stopped>
    ensures { Agrees (λ b. b) result
        (settled (names (source_view line.entry) (scope_of scope.entry)
        (macro_named (directive_rest line.entry.text.now)))) }
{
    match macro_named(directive_rest(line.text)) {
        Some(name) => Ok(scope.value_of(name).is_some()),
        None => Err(bad(alloc, BAD_DIRECTIVE, line, line.text)),
    }
}

impl Work {
    // The macros above a line, and the fixed ones.
    pub(crate) fn scope<'a>(&'a self, fixed: &'a ListedMacros<'a>) -> Scope<'a>
        ensures { scope_of result ≡ scope fixed.now (env_of self.now) }
    {
        Scope {
            files: &self.macros,
            fixed,
        }
    }
}

// What the condition of an `!if`, `!ifdef`, `!ifndef`, `!elseif` or `!else` says.
#[tactic(auto, unfolding(crate::specs::Expansion::tested))]
pub(crate) fn test(
    alloc: Global,
    fixed: &ListedMacros<'_>,
    work: &Work,
    line: SourceLine<'_>,
) -> Result<bool, Stopped>
    ensures { Agrees (λ b. b) result
        (settled (tested fixed.now (source_view line.entry) (env_of work.now))) }
{
    let word = directive_word(line.text);
    if same_word(word, b"else".as_slice()) {
        return Ok(true);
    }
    if same_word(word, b"ifdef".as_slice()) {
        return names(alloc, line, work.scope(fixed));
    }
    if same_word(word, b"ifndef".as_slice()) {
        return match names(alloc, line, work.scope(fixed)) {
            Ok(defined) => Ok(!defined),
            Err(stopped) => Err(stopped),
        };
    }
    holds(
        alloc,
        line,
        value_in(alloc, work.scope(fixed), directive_rest(line.text))?,
    )
}

fn define(
    alloc: Global,
    fixed: &ListedMacros<'_>,
    work: &mut Work,
    line: SourceLine<'_>,
) -> Result<(), Stopped>
    ensures outcome { Agrees (λ u. env_of work.new) result
        (settled (defined fixed.now (source_view line.entry) (env_of work.old)
        (definition_of line.entry.text.now))) }
    ensures open_files { OnOk result (work.new.open_files.items ≡ work.old.open_files.items) }
{
    let Some((name, value)) = definition_of(line.text) else {
        return Err(bad(alloc, BAD_DIRECTIVE, line, line.text));
    };
    if is_full(name, &work.macros) {
        return Err(bad(alloc, TOO_MANY_MACROS, line, name));
    }
    let value = replace(alloc, Undefined::Kept, work.scope(fixed), value)?;
    work.macros.put(alloc, name, Text::from_vec(value))?;
    Ok(())
}

// A line with its macros replaced, and without blanks at both ends.
#[tactic(auto, using(macro_expressions::proofs::MacroFronts::plain_whole))]
fn replaced_line(alloc: Global, scope: Scope<'_>, text: &[u8]) -> Result<Text, WantOfMemory>
    ensures { IfOk result
        (λ t. t ≡ without_blanks (replaced Undefined.Kept (scope_of scope.entry) text.now)) }
{
    if is_plain(text) {
        return Text::of(alloc, trim(text));
    }
    let written = replace(alloc, Undefined::Kept, scope, text)?;
    Text::of(alloc, trim(written.as_slice()))
}

fn take(
    alloc: Global,
    fixed: &ListedMacros<'_>,
    work: &mut Work,
    line: SourceLine<'_>,
) -> Result<(), Stopped>
    ensures outcome { OnOk result
        (env_of work.new ≡ written fixed.now (source_view line.entry) (env_of work.old)) }
    ensures open_files { OnOk result (work.new.open_files.items ≡ work.old.open_files.items) }
    ensures cause { IfErr result (λ e. e ≡ Stopped.WantOfMemory) }
{
    let text = replaced_line(alloc, work.scope(fixed), line.text)?;
    let at = place(alloc, line)?;
    work.rows.push(Taken { at, text })?;
    Ok(())
}

// What a line does that is no include.
#[tactic(auto, unfolding(crate::specs::Expansion::apply_directive))]
pub(crate) fn act(
    alloc: Global,
    fixed: &ListedMacros<'_>,
    work: &mut Work,
    line: SourceLine<'_>,
) -> Result<(), Stopped>
    ensures outcome { Agrees (λ u. env_of work.new) result
        (settled (apply_directive fixed.now (source_view line.entry) (env_of work.old))) }
    ensures open_files { OnOk result (work.new.open_files.items ≡ work.old.open_files.items) }
{
    if is_directive(line.text) {
        return Err(bad(alloc, BAD_DIRECTIVE, line, line.text));
    }
    if is_definition(line.text) {
        return define(alloc, fixed, work, line);
    }
    take(alloc, fixed, work, line)
}
