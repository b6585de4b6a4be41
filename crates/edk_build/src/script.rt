//! The script of a replay.
ghost use Rattle.std.specs.Prelude.{◌≡◌, ◌≤◌, ◌++◌, ℕ, true, IfOk, OnOk, IfSome, length, map, string_bytes};
ghost use Rattle.build_base.specs.Path.{path_field};
ghost use Rattle.std.specs.List.{list_all};
ghost use Rattle.meta_lexer.specs.Lines.{is_plain, piece_of};
ghost use Rattle.edk_build.specs.Script.{are_plain, put_of, drop_of, build_of, order_of, content_of, content_in, line_content, lines_at, script_of};

use build_base::path::path_field;
use build_base::{Path, Rows, Text, WantOfMemory};
use build_words::words_job;
use job_fields::Job;
use job_fields::checks::has_plain_bytes_alone;
use meta_lexer::line::{is_end, split_line, without_line_end};
use meta_lexer::parts::words;
use std::alloc::Global;

/// The most lines of a script.
const MOST_LINES: u64 = 1000;

/// What a line of a script asks for: that a path gets the bytes that another one has in the tree,
/// that there is no file at a path, or a build.
#[derive(Drop)]
pub(crate) enum ScriptCommand {
    Put { path: Path, from: Path },
    Drop(Path),
    Build(Job),
}

/// A line of a script that isn't empty; lines count from 1.
#[derive(Drop)]
pub(crate) struct ScriptLine {
    pub number: u64,
    pub order: ScriptCommand,
}

fn put_of(alloc: Global, path: &[u8], from: &[u8]) -> Result<Option<ScriptCommand>, WantOfMemory>
    ensures { IfOk result (λ order. order ≡ put_of (path_field path.now) (path_field from.now)) }
{
    let Some(path) = path_field(alloc, path)? else {
        return Ok(None);
    };
    let Some(from) = path_field(alloc, from)? else {
        return Ok(None);
    };
    Ok(Some(ScriptCommand::Put { path, from }))
}

fn drop_of(alloc: Global, path: &[u8]) -> Result<Option<ScriptCommand>, WantOfMemory>
    ensures { IfOk result (λ order. order ≡ drop_of (path_field path.now)) }
{
    match path_field(alloc, path)? {
        Some(path) => Ok(Some(ScriptCommand::Drop(path))),
        None => Ok(None),
    }
}

// A word; its bytes are plain, and so they are UTF-8.
#[tactic(auto, using(crate::proofs::PlainLemmas::plain_utf8))]
fn string_of(alloc: Global, word: &Text) -> Result<String, WantOfMemory>
    requires { list_all is_plain word.now ≡ true }
    ensures { IfOk result (λ string. string_bytes string ≡ word.now) }
{
    match str::from_utf8(word.bytes()) {
        Ok(text) => Ok(String::from_str(alloc, text)?),
        Err(_) => unreachable!(),
    }
}

fn strings_of(alloc: Global, words: &[Text]) -> Result<Vec<String>, WantOfMemory>
    requires { are_plain words.now ≡ true }
    ensures { IfOk result (λ strings. map string_bytes strings.items ≡ words.now) }
{
    let mut strings = Vec::new(alloc);
    for word in words {
        if strings.push(string_of(alloc, word)?).is_err() {
            return Err(WantOfMemory);
        }
    }
    Ok(strings)
}

fn build_of(alloc: Global, words: &[Text]) -> Result<Option<ScriptCommand>, WantOfMemory>
    requires { are_plain words.now ≡ true }
    ensures { IfOk result (λ order. order ≡ build_of words.now) }
{
    let strings = strings_of(alloc, words)?;
    match words_job(alloc, strings.as_slice())? {
        Some(job) => Ok(Some(ScriptCommand::Build(job))),
        None => Ok(None),
    }
}

#[tactic(auto, unfolding(crate::specs::Script::order_of))]
fn order_of(alloc: Global, words: &[Text]) -> Result<Option<ScriptCommand>, WantOfMemory>
    requires { are_plain words.now ≡ true }
    ensures { IfOk result (λ order. order ≡ order_of words.now) }
{
    match words {
        [command, path] => {
            if command.bytes() == b"drop".as_slice() {
                return drop_of(alloc, path.bytes());
            }
            build_of(alloc, words)
        }
        [command, path, from] => {
            if command.bytes() == b"put".as_slice() {
                return put_of(alloc, path.bytes(), from.bytes());
            }
            build_of(alloc, words)
        }
        _ => build_of(alloc, words),
    }
}

fn content_of(alloc: Global, words: &[Text]) -> Result<Option<Option<ScriptCommand>>, WantOfMemory>
    requires { are_plain words.now ≡ true }
    ensures { IfOk result (λ content. content ≡ content_of words.now) }
{
    if words.is_empty() {
        return Ok(Some(None));
    }
    match order_of(alloc, words)? {
        Some(order) => Ok(Some(Some(order))),
        None => Ok(None),
    }
}

// What a line holds, or nothing where it isn't in the grammar.
#[tactic(auto, using(crate::proofs::PlainLemmas::words_plain))]
fn content_in(alloc: Global, text: &[u8]) -> Result<Option<Option<ScriptCommand>>, WantOfMemory>
    ensures { IfOk result (λ content. content ≡ content_in text.now) }
{
    if !has_plain_bytes_alone(text) {
        return Ok(None);
    }
    let words = words(alloc, text)?;
    content_of(alloc, words.items())
}

fn line_content(
    alloc: Global,
    number: u64,
    piece: &[u8],
) -> Result<Option<Option<ScriptCommand>>, WantOfMemory>
    ensures content { (at : ℕ) → IfOk result
        (λ content. content ≡ line_content (piece_of number at piece.now)) }
    ensures few { IfOk result (λ content. IfSome content (λ held. number ≤ 1000)) }
{
    if number > MOST_LINES {
        return Ok(None);
    }
    content_in(alloc, without_line_end(piece))
}

fn push_content(
    lines: &mut Rows<ScriptLine>,
    number: u64,
    content: Option<ScriptCommand>,
) -> Result<(), WantOfMemory>
    ensures { OnOk result (lines.new ≡ lines.old ++ lines_at number content) }
{
    if let Some(order) = content {
        lines.push(ScriptLine { number, order })?;
    }
    Ok(())
}

/// The lines of a script that aren't empty, or nothing where one isn't in the grammar.
#[tactic(auto, unfolding(crate::specs::Script::script_of))]
pub(crate) fn read_script(
    alloc: Global,
    bytes: &[u8],
) -> Result<Option<Rows<ScriptLine>>, WantOfMemory>
    ensures script { IfOk result (λ lines. lines ≡ script_of bytes.now) }
    ensures few { IfOk result (λ lines. IfSome lines (λ found. length found ≤ 1000)) }
{
    let mut lines = Rows::new(alloc);
    let mut number = 1;
    let mut rest = bytes;
    while !is_end(rest) {
        let (piece, after) = split_line(rest);
        let Some(content) = line_content(alloc, number, piece)? else {
            return Ok(None);
        };
        push_content(&mut lines, number, content)?;
        number += 1;
        rest = after;
    }
    Ok(Some(lines))
}
