//! Calls of what reads one line: expressions, numbers, fields, tokens and section heads.

use crate::lines::place_of;
use build_base::{Rows, Text};
use case_player::{Output, Page, Stop, Wrong, file_of};
use macro_conditions::{Value, evaluate};
use meta_lexer::parts::field_texts;
use meta_lexer::{Head, LexRefusal, Token, TokenKind, number, section_head, tokens};

// A number, or a text between quotes.
fn tell_value(page: &mut Page, value: &Value) -> Result<(), Stop> {
    match value {
        Value::Number(number) => {
            let text = format!(in page.alloc(); "{number}\n")?;
            page.put(text.as_bytes());
        }
        Value::Word(word) => {
            page.put(b"\"");
            page.put(word.bytes());
            page.put(b"\"\n");
        }
    }
    Ok(())
}

/// What the expression of a file's one line comes to.
pub(crate) fn call_evaluate(page: &mut Page, files: &[Output], path: &str) -> Result<(), Stop> {
    let alloc = page.alloc();
    let text = Text::of(alloc, file_of(files, path)?.trim_ascii())?;
    let at = place_of(alloc, path, 1)?;
    let none = Rows::new(alloc);
    let value = evaluate(alloc, &at, &text, &none)?;
    tell_value(page, &value)
}

/// The plain number that each line of a file is, or `none`.
pub(crate) fn call_number(page: &mut Page, files: &[Output], path: &str) -> Result<(), Stop> {
    let text = file_of(files, path)?.trim_ascii();
    for line in text.split(|byte| *byte == b'\n') {
        tell_number(page, line)?;
    }
    Ok(())
}

fn tell_number(page: &mut Page, line: &[u8]) -> Result<(), Stop> {
    match number(line) {
        Some(number) => {
            let text = format!(in page.alloc(); "{number}\n")?;
            page.put(text.as_bytes());
        }
        None => page.put(b"none\n"),
    }
    Ok(())
}

/// The fields of a file's one line, a line for each.
pub(crate) fn call_fields(page: &mut Page, files: &[Output], path: &str) -> Result<(), Stop> {
    let text = file_of(files, path)?.trim_ascii();
    let fields = field_texts(page.alloc(), text)?;
    for field in fields.items() {
        page.row(b"field", field.bytes());
    }
    Ok(())
}

fn kind_name(kind: TokenKind) -> &'static [u8] {
    match kind {
        TokenKind::Word => b"word",
        TokenKind::Number => b"number",
        TokenKind::Quoted => b"quoted",
        TokenKind::Mark => b"mark",
    }
}

fn tell_tokens(page: &mut Page, tokens: &[Token]) {
    for token in tokens {
        page.put(kind_name(token.kind));
        page.number(token.start);
        page.number(token.end);
        page.end();
    }
}

/// The tokens of a file's one line, each with its span; or the code of its fault and where that
/// begins.
pub(crate) fn call_tokens(page: &mut Page, files: &[Output], path: &str) -> Result<(), Stop> {
    let text = file_of(files, path)?.trim_ascii();
    match tokens(page.alloc(), text) {
        Ok(found) => tell_tokens(page, found.as_slice()),
        Err(LexRefusal::Bad { code, start, .. }) => {
            let text = format!(in page.alloc(); "{code} {start}\n")?;
            page.fail(text.as_bytes());
        }
        Err(LexRefusal::WantOfMemory) => return Err(Stop::Wrong(Wrong::WantOfMemory)),
    }
    Ok(())
}

fn tell_heads(page: &mut Page, heads: &[Head]) {
    for head in heads {
        page.put(b"head\n");
        for part in head.parts.items() {
            page.row(b" part", part.bytes());
        }
    }
}

/// The heads of a file's one line, a line for each part; `none` where the line is no head; or the
/// code of its fault and where that ends.
pub(crate) fn call_heads(page: &mut Page, files: &[Output], path: &str) -> Result<(), Stop> {
    let text = file_of(files, path)?.trim_ascii();
    match section_head(page.alloc(), text) {
        Ok(Some(heads)) => tell_heads(page, heads.items()),
        Ok(None) => page.put(b"none\n"),
        Err(LexRefusal::Bad { code, end, .. }) => {
            let text = format!(in page.alloc(); "{code} {end}\n")?;
            page.fail(text.as_bytes());
        }
        Err(LexRefusal::WantOfMemory) => return Err(Stop::Wrong(Wrong::WantOfMemory)),
    }
    Ok(())
}
