//! The stack of open conditionals.
ghost use Rattle.std.specs.Prelude.{◌≡◌, ◌++◌, ◌∷◌, [], ℕ, List, None, Some, OnOk, IfErr};
ghost use Rattle.macro_conditions.specs.declared.directive.Directive.TheVariants.{If};
ghost use Rattle.macro_conditions.specs.LineMeaning.{at_end};
ghost use Rattle.macro_conditions.specs.LineStack.{active, mode_by, outermost, open_frame, next_mode, turn_frame, shut, step_by};
ghost use Rattle.macro_conditions.specs.Expansion.{Env, acts, unbalanced, bad};
ghost use Rattle.macro_conditions.specs.Work.{source_view, line_in, mode_view, frames_of, env_of, state_of, idle, Halts, Agrees};

use crate::directive::directive_word;
use crate::work::{FileText, Frame, LinePlace, Mode, SourceLine, Stopped, Work, bad, test};
use build_base::fault_codes::UNBALANCED;
use macro_expressions::table::ListedMacros;
use std::alloc::Global;

// Whether lines are taken here.
pub(crate) fn active(frames: &Vec<Frame>) -> bool
    ensures { (path bytes : List ℕ) → result ≡ active (frames_of path bytes frames.now.items) }
{
    match frames.last() {
        None => true,
        Some(frame) => matches!(&frame.mode, Mode::Taking),
    }
}

fn mode_by(holds: bool) -> Mode
    ensures { mode_view result ≡ mode_by holds }
{
    if holds { Mode::Taking } else { Mode::Waiting }
}

fn mode_of_test(
    alloc: Global,
    fixed: &ListedMacros<'_>,
    work: &Work,
    line: SourceLine<'_>,
) -> Result<Mode, Stopped>
    ensures { Agrees mode_view result
        (open_frame (acts fixed.now idle) [] (source_view line.entry) (env_of work.now)) }
{
    match test(alloc, fixed, work, line) {
        Ok(holds) => Ok(mode_by(holds)),
        Err(stopped) => Err(stopped),
    }
}

fn open_frame(
    alloc: Global,
    fixed: &ListedMacros<'_>,
    work: &Work,
    frames: &Vec<Frame>,
    line: SourceLine<'_>,
) -> Result<Mode, Stopped>
    ensures { (path bytes : List ℕ) → Agrees mode_view result
        (open_frame (acts fixed.now idle) (frames_of path bytes frames.now.items)
        (source_view line.entry) (env_of work.now)) }
{
    if active(frames) {
        mode_of_test(alloc, fixed, work, line)
    } else {
        Ok(Mode::Passing)
    }
}

fn next_mode(
    alloc: Global,
    fixed: &ListedMacros<'_>,
    work: &Work,
    mode: Mode,
    line: SourceLine<'_>,
) -> Result<Mode, Stopped>
    ensures { Agrees mode_view result
        (next_mode (acts fixed.now idle) (mode_view mode) (source_view line.entry)
        (env_of work.now)) }
{
    match mode {
        Mode::Taking | Mode::Passing => Ok(Mode::Passing),
        Mode::Waiting => mode_of_test(alloc, fixed, work, line),
    }
}

fn stray(alloc: Global, line: SourceLine<'_>) -> Stopped
    ensures { Halts result (Some (bad (unbalanced (source_view line.entry)))) }
{
    bad(alloc, UNBALANCED, line, directive_word(line.text))
}

fn push(frames: &mut Vec<Frame>, frame: Frame) -> Result<(), Stopped>
    ensures frames { OnOk result (frames.new.items ≡ frames.old.items ++ frame ∷ []) }
    ensures cause { IfErr result (λ e. e ≡ Stopped.WantOfMemory) }
{
    match frames.push(frame) {
        Ok(()) => Ok(()),
        Err(_) => Err(Stopped::WantOfMemory),
    }
}

/// An `!if`, `!ifdef` or `!ifndef`.
pub(crate) fn open(
    alloc: Global,
    fixed: &ListedMacros<'_>,
    work: &Work,
    file: FileText<'_>,
    frames: &mut Vec<Frame>,
    place: LinePlace,
) -> Result<(), Stopped>
    ensures { Agrees
        (λ u. state_of file.entry.path.now file.entry.bytes.now frames.new work.now) result
        (step_by (acts fixed.now idle) If
        (frames_of file.entry.path.now file.entry.bytes.now frames.old.items) (env_of work.now)
        (line_in file.entry.path.now file.entry.bytes.now place)) }
{
    let line = file.line(place);
    match open_frame(alloc, fixed, work, frames, line) {
        Ok(mode) => {
            let frame = Frame {
                opener: place,
                mode,
                last: false,
            };
            push(frames, frame)
        }
        Err(stopped) => Err(stopped),
    }
}

/// An `!elseif`, or an `!else`, which is the last.
pub(crate) fn turn(
    alloc: Global,
    fixed: &ListedMacros<'_>,
    work: &Work,
    file: FileText<'_>,
    frames: &mut Vec<Frame>,
    last: bool,
    place: LinePlace,
) -> Result<(), Stopped>
    ensures { Agrees
        (λ u. state_of file.entry.path.now file.entry.bytes.now frames.new work.now) result
        (turn_frame (acts fixed.now idle) last
        (frames_of file.entry.path.now file.entry.bytes.now frames.old.items) (env_of work.now)
        (line_in file.entry.path.now file.entry.bytes.now place)) }
{
    let line = file.line(place);
    let Some(frame) = frames.pop() else {
        return Err(stray(alloc, line));
    };
    if frame.last {
        return Err(stray(alloc, line));
    }
    match next_mode(alloc, fixed, work, frame.mode, line) {
        Ok(mode) => {
            let next = Frame {
                opener: frame.opener,
                mode,
                last,
            };
            push(frames, next)
        }
        Err(stopped) => Err(stopped),
    }
}

/// An `!endif`.
pub(crate) fn close(
    alloc: Global,
    fixed: &ListedMacros<'_>,
    work: &Work,
    file: FileText<'_>,
    frames: &mut Vec<Frame>,
    place: LinePlace,
) -> Result<(), Stopped>
    ensures { Agrees
        (λ u. state_of file.entry.path.now file.entry.bytes.now frames.new work.now) result
        (shut (acts fixed.now idle)
        (frames_of file.entry.path.now file.entry.bytes.now frames.old.items) (env_of work.now)
        (line_in file.entry.path.now file.entry.bytes.now place)) }
{
    let line = file.line(place);
    match frames.pop() {
        Some(_) => Ok(()),
        None => Err(stray(alloc, line)),
    }
}

/// The end of a file, where no conditional may be open.
pub(crate) fn end(
    alloc: Global,
    fixed: &ListedMacros<'_>,
    file: FileText<'_>,
    frames: &Vec<Frame>,
) -> Result<(), Stopped>
    ensures { (e : Env) → Agrees (λ u. e) result
        (at_end (acts fixed.now idle)
        (outermost (frames_of file.entry.path.now file.entry.bytes.now frames.now.items) None) e) }
{
    match frames.first() {
        None => Ok(()),
        Some(frame) => Err(stray(alloc, file.line(frame.opener))),
    }
}
