//! The lines of a volume.
ghost use Rattle.std.specs.Prelude.{◌≡◌, ◌∷◌, [], false, Some};
ghost use Rattle.fdf_volumes.specs.Bodies.{section_row};
ghost use Rattle.std.specs.Option.{option_map};
ghost use Rattle.build_base.specs.Answer.{Answers, Finds};
ghost use Rattle.build_base.specs.FaultText.{fault_of};
ghost use Rattle.doc_reading.specs.Gathering.{unless_faulty};
ghost use Rattle.doc_reading.specs.Least.{least_of};
ghost use Rattle.doc_reading.specs.ValueFields.{undefined_macro};
ghost use Rattle.fdf_words.specs.Keys.{key_pair, volume_word};
ghost use Rattle.fdf_words.specs.Words.{word_of};
ghost use Rattle.fdf_volumes.specs.InfLines.{inf_faults, inf_of};
ghost use Rattle.fdf_words.specs.declared.rows.Row.TheVariants as variant;
ghost use Rattle.fdf_volumes.specs.VolumeLines.{statement_named, statement_of, unkeyed_faults, plain_faults, plain_row, shut_faults, shut_row, apriori_faults_in, made_member, apriori_row_in, section_faults_in, whole_faults_in, file_faults_in, whole_row_in, file_row_in, volume_faults, volume_row};
ghost use Rattle.build_base.specs.FaultCodes.{STATEMENT_REFUSED};

use crate::body::{section_line, whole_line};
use crate::inf_line::inf_line;
use crate::statement::{apriori_line, file_line, member_line};
use crate::volume_key::key_line;
use build_base::fault_codes::{FDF_BAD_FILE, STATEMENT_REFUSED};
use build_base::{Refusal, Taken, refuse};
use doc_reading::least_check::least_refusal;
use doc_reading::value_fields::undefined_macro;
use doc_types::volume::Member;
use fdf_words::keys::{key_pair, volume_word};
use fdf_words::marks::{Body, Open};
use fdf_words::number::{no_form, no_key};
use fdf_words::rows::Row;
use fdf_words::words::{begins_with, first_word, is_close};
use meta_lexer::lookup;
use std::alloc::Global;

/// What a line of a volume is by its first word or byte.
#[derive(Clone, Copy, PartialEq, Eq)]
pub enum Statement {
    Apriori,
    Inf,
    File,
    Section,
    Close,
    BadClose,
}

const STATEMENTS: [(&[u8], Statement); 4] = [
    (b"APRIORI", Statement::Apriori),
    (b"INF", Statement::Inf),
    (b"FILE", Statement::File),
    (b"SECTION", Statement::Section),
];

#[tactic(auto, unfolding(crate::specs::VolumeLines::statement_named))]
fn statement_named(word: &[u8]) -> Option<Statement>
    ensures { result ≡ statement_named word.now }
{
    lookup(&STATEMENTS, word)
}

#[tactic(auto, unfolding(crate::specs::VolumeLines::statement_of))]
fn statement_of(text: &[u8]) -> Option<Statement>
    ensures { result ≡ statement_of text.now }
{
    if is_close(text) {
        return Some(Statement::Close);
    }
    if begins_with(b'}', text) {
        return Some(Statement::BadClose);
    }
    let (word, _) = first_word(text);
    statement_named(word)
}

fn no_statement(alloc: Global, line: &Taken, word: &[u8]) -> Refusal
    ensures { Finds result
        (least_of (undefined_macro line.now.at line.now.text
        ∷ Some (fault_of STATEMENT_REFUSED line.now.at word.now) ∷ [])) }
{
    least_refusal(
        undefined_macro(alloc, &line.at, line.text.bytes()),
        refuse(alloc, STATEMENT_REFUSED, &line.at, word),
    )
}

fn refuse_unkeyed(alloc: Global, line: &Taken) -> Refusal
    ensures { Finds result
        (least_of (unkeyed_faults line.now (volume_word (word_of line.now.text)))) }
{
    let (word, _) = first_word(line.text.bytes());
    match volume_word(word) {
        Some(_) => no_key(alloc, line, word, line.text.bytes()),
        None => no_statement(alloc, line, word),
    }
}

fn plain_line(alloc: Global, line: &Taken) -> Result<Option<Row>, Refusal>
    ensures { Answers result
        (unless_faulty (plain_faults line.now (key_pair line.now.text))
        (plain_row line.now (key_pair line.now.text))) }
{
    match key_pair(line.text.bytes()) {
        Some((key, value)) => key_line(alloc, line, key, value),
        None => Err(refuse_unkeyed(alloc, line)),
    }
}

fn inf_statement(alloc: Global, line: &Taken, full: bool) -> Result<Option<Row>, Refusal>
    ensures { Answers result
        (unless_faulty (inf_faults line.now full) (option_map variant.Inf (inf_of line.now))) }
{
    let inf = inf_line(alloc, line, full)?;
    match inf {
        Some(inf) => Ok(Some(Row::Inf(inf))),
        None => Ok(None),
    }
}

fn inf_member(alloc: Global, line: &Taken) -> Result<Option<Row>, Refusal>
    ensures { Answers result
        (unless_faulty (inf_faults line.now false) (option_map made_member (inf_of line.now))) }
{
    let inf = inf_line(alloc, line, false)?;
    match inf {
        Some(inf) => Ok(Some(Row::Member(Member::Inf(inf)))),
        None => Ok(None),
    }
}

fn shut_line(
    alloc: Global,
    line: &Taken,
    full: bool,
    statement: Option<Statement>,
) -> Result<Option<Row>, Refusal>
    ensures { Answers result
        (unless_faulty (shut_faults line.now full statement) (shut_row line.now statement)) }
{
    match statement {
        Some(Statement::Apriori) => apriori_line(alloc, line, full),
        Some(Statement::Inf) => inf_statement(alloc, line, full),
        Some(Statement::File) => file_line(alloc, line, full),
        Some(Statement::Section) => Err(no_form(alloc, FDF_BAD_FILE, line)),
        Some(Statement::Close) => Err(no_form(alloc, FDF_BAD_FILE, line)),
        Some(Statement::BadClose) => Err(no_form(alloc, FDF_BAD_FILE, line)),
        None => plain_line(alloc, line),
    }
}

fn apriori_line_in(
    alloc: Global,
    line: &Taken,
    statement: Option<Statement>,
) -> Result<Option<Row>, Refusal>
    ensures { Answers result
        (unless_faulty (apriori_faults_in line.now statement) (apriori_row_in line.now statement)) }
{
    match statement {
        Some(Statement::Inf) => inf_member(alloc, line),
        Some(Statement::File) => member_line(alloc, line),
        Some(Statement::Close) => Ok(Some(Row::Closes)),
        Some(Statement::Apriori) => Err(no_form(alloc, FDF_BAD_FILE, line)),
        Some(Statement::Section) => Err(no_form(alloc, FDF_BAD_FILE, line)),
        Some(Statement::BadClose) => Err(no_form(alloc, FDF_BAD_FILE, line)),
        None => Err(no_form(alloc, FDF_BAD_FILE, line)),
    }
}

fn section_in(alloc: Global, line: &Taken, body: Body) -> Result<Option<Row>, Refusal>
    ensures { Answers result
        (unless_faulty (section_faults_in line.now body) (section_row line.now)) }
{
    match body {
        Body::Nothing => section_line(alloc, line),
        Body::Sections => section_line(alloc, line),
        Body::Whole => Err(no_form(alloc, FDF_BAD_FILE, line)),
    }
}

fn whole_in(alloc: Global, line: &Taken, body: Body) -> Result<Option<Row>, Refusal>
    ensures { Answers result
        (unless_faulty (whole_faults_in line.now body) (whole_row_in line.now)) }
{
    match body {
        Body::Nothing => whole_line(alloc, line),
        Body::Sections => Err(no_form(alloc, FDF_BAD_FILE, line)),
        Body::Whole => Err(no_form(alloc, FDF_BAD_FILE, line)),
    }
}

fn file_line_in(
    alloc: Global,
    line: &Taken,
    body: Body,
    statement: Option<Statement>,
) -> Result<Option<Row>, Refusal>
    ensures { Answers result
        (unless_faulty (file_faults_in line.now body statement) (file_row_in line.now statement)) }
{
    match statement {
        Some(Statement::Section) => section_in(alloc, line, body),
        Some(Statement::Close) => Ok(Some(Row::Closes)),
        Some(Statement::BadClose) => Err(no_form(alloc, FDF_BAD_FILE, line)),
        Some(Statement::Apriori) => whole_in(alloc, line, body),
        Some(Statement::Inf) => whole_in(alloc, line, body),
        Some(Statement::File) => whole_in(alloc, line, body),
        None => whole_in(alloc, line, body),
    }
}

/// What a line of a volume says; `full` is whether the volume has as many statements as it may.
#[tactic(auto, unfolding(crate::specs::VolumeLines::volume_faults, crate::specs::VolumeLines::volume_row))]
pub fn volume_line(
    alloc: Global,
    line: &Taken,
    braces: Open,
    full: bool,
) -> Result<Option<Row>, Refusal>
    ensures { Answers result
        (unless_faulty (volume_faults line.now braces full) (volume_row line.now braces)) }
{
    let statement = statement_of(line.text.bytes());
    match braces {
        Open::InApriori => apriori_line_in(alloc, line, statement),
        Open::InFile(body) => file_line_in(alloc, line, body, statement),
        Open::Shut => shut_line(alloc, line, full, statement),
        Open::InRule => shut_line(alloc, line, full, statement),
    }
}
