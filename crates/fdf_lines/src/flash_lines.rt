//! The format of a flash description, and what its lines come to.
ghost use Rattle.std.specs.Prelude.{◌≡◌, ◌+◌, ◌&&◌, ◌==◌, nat_lt, IfOk, OnOk, length, [], ◌∷◌, ◌++◌};
ghost use Rattle.build_base.specs.Answer.{Answers, AnswersAs, Checks};
ghost use Rattle.doc_reading.specs.Gathering.{unless_faulty};
ghost use Rattle.fdf_lines.specs.Counts.{saturated, heads_here, count_of, one_scope};
ghost use Rattle.fdf_lines.specs.Grammar.{rank_of, scope_faults, scope_row, line_faults, line_row, is_full, many_fault, open_fault, opens, are_shut, begun_fault, unfiled_fault, left_fault, heads_fault, rows_of_flash};
ghost use Rattle.fdf_lines.specs.Limits.{WithinLimits};
ghost use Rattle.fdf_lines.specs.Reads.{reads_as};
ghost use Rattle.fdf_words.specs.Words.{last_byte};

use crate::counts::{heads_of, scopes_of, statements_of};
use crate::rule_line::rule_line;
use crate::section::{FlashSection, enter};
use crate::standing::{has_volume, marks_after, marks_begun};
use build_base::fault_codes::{BAD_KEY, BAD_RULE, FDF_BAD_FILE, TOO_MANY};
use build_base::{Lines, Place, Refusal, Rows, Same, Taken, WantOfMemory, refuse};
use doc_reading::least_check::{least_of_five, least_of_three};
use doc_reading::value_fields::open_quote;
use doc_reading::{Format, read_document};
use fdf_volumes::volume_line::volume_line;
use fdf_words::device_line::device_line;
use fdf_words::keys::is_set;
use fdf_words::marks::{Marks, Open, Waiting};
use fdf_words::rows::{LineRead, Row, Scope};
use fdf_words::set_line::set_line;
use fdf_words::words::first_word;
use meta_lexer::head::Head;
use meta_lexer::words::same_word;
use std::alloc::Global;

/// How many devices, volumes and rules there may be, and statements of a volume.
const LIMIT: u64 = 65535;

/// What is kept of the lines above: what they came to, what they left open, whether the last heads
/// begin a volume, how many statements it has, and how many devices, volumes and rules there are.
#[derive(Drop)]
pub(crate) struct FlashLines {
    pub alloc: Global,
    pub reads: Rows<LineRead>,
    pub marks: Marks,
    pub volume: bool,
    pub statements: u64,
    pub devices: u64,
    pub volumes: u64,
    pub rules: u64,
}

fn rank_of(scope: &Scope) -> u8
    ensures { result ≡ rank_of scope.now }
{
    match scope {
        Scope::Settings => 5,
        Scope::Device(_) | Scope::Volume(_) | Scope::Rule(_) => 4,
    }
}

fn scope_line(
    alloc: Global,
    line: &Taken,
    marks: Marks,
    full: bool,
    scope: &Scope,
) -> Result<Option<Row>, Refusal>
    ensures { Answers result
        (unless_faulty (scope_faults line.now marks full scope.now)
        (scope_row line.now marks scope.now)) }
{
    match scope {
        Scope::Settings => Ok(Some(Row::Ignored)),
        Scope::Device(_) => {
            open_quote(alloc, &line.at, line.text.bytes())?;
            device_line(alloc, line, marks)
        }
        Scope::Volume(_) => {
            open_quote(alloc, &line.at, line.text.bytes())?;
            volume_line(alloc, line, marks.braces, full)
        }
        Scope::Rule(_) => {
            open_quote(alloc, &line.at, line.text.bytes())?;
            rule_line(alloc, line, marks)
        }
    }
}

#[tactic(auto, unfolding(crate::specs::Grammar::line_faults, crate::specs::Grammar::line_row))]
fn line_row(
    alloc: Global,
    line: &Taken,
    marks: Marks,
    full: bool,
    scope: &Scope,
) -> Result<Option<Row>, Refusal>
    ensures { Answers result
        (unless_faulty (line_faults line.now marks full scope.now)
        (line_row line.now marks scope.now)) }
{
    if is_set(line.text.bytes()) {
        open_quote(alloc, &line.at, line.text.bytes())?;
        return set_line(alloc, line, rank_of(scope));
    }
    scope_line(alloc, line, marks, full, scope)
}

fn is_full(statements: u64) -> bool
    ensures { result ≡ is_full statements }
{
    statements >= LIMIT
}

fn check_many(alloc: Global, line: &Taken, heads: u64) -> Result<(), Refusal>
    ensures { Checks result (many_fault line.now heads) }
{
    if heads > LIMIT {
        return Err(refuse(alloc, TOO_MANY, &line.at, b"65536".as_slice()));
    }
    Ok(())
}

fn check_braces(alloc: Global, line: &Taken, braces: Open) -> Result<(), Refusal>
    ensures { Checks result (open_fault line.now braces) }
{
    match braces {
        Open::Shut => Ok(()),
        Open::InApriori => Err(refuse(alloc, FDF_BAD_FILE, &line.at, b"{".as_slice())),
        Open::InFile(_) => Err(refuse(alloc, FDF_BAD_FILE, &line.at, b"{".as_slice())),
        Open::InRule => Err(refuse(alloc, BAD_RULE, &line.at, b"{".as_slice())),
    }
}

fn check_filed(alloc: Global, line: &Taken, unfiled: bool) -> Result<(), Refusal>
    ensures { Checks result (unfiled_fault line.now unfiled) }
{
    if unfiled {
        return Err(refuse(alloc, BAD_RULE, &line.at, b"FILE".as_slice()));
    }
    Ok(())
}

fn ends_with_brace(text: &[u8]) -> bool
    ensures { result ≡ (nat_lt 0 (length text.now) && (last_byte text.now == 123)) }
{
    !text.is_empty() && text[text.len() - 1] == b'{'
}

#[tactic(auto, unfolding(crate::specs::Grammar::opens))]
fn opens(text: &[u8]) -> bool
    ensures { result ≡ opens text.now }
{
    let (word, _) = first_word(text);
    (same_word(word, b"FILE".as_slice()) || same_word(word, b"APRIORI".as_slice()))
        && ends_with_brace(text)
}

fn are_shut(braces: Open) -> bool
    ensures { result ≡ are_shut braces }
{
    match braces {
        Open::Shut => true,
        Open::InApriori | Open::InFile(_) | Open::InRule => false,
    }
}

fn check_begun(alloc: Global, line: &Taken, marks: Marks, volume: bool) -> Result<(), Refusal>
    ensures { Checks result (begun_fault line.now marks volume) }
{
    if volume && are_shut(marks.braces) && opens(line.text.bytes()) {
        return Err(refuse(alloc, FDF_BAD_FILE, &line.at, b"{".as_slice()));
    }
    Ok(())
}

fn check_left(alloc: Global, line: &Taken, marks: Marks, volume: bool) -> Result<(), Refusal>
    ensures { Checks result (left_fault line.now marks volume) }
{
    least_of_three(
        check_braces(alloc, line, marks.braces),
        check_begun(alloc, line, marks, volume),
        check_filed(alloc, line, marks.unfiled),
    )
}

fn check_counts(
    alloc: Global,
    line: &Taken,
    marks: Marks,
    devices: u64,
    volumes: u64,
    rules: u64,
) -> Result<(), Refusal>
    ensures { Checks result (heads_fault line.now marks devices volumes rules) }
{
    least_of_five(
        check_braces(alloc, line, marks.braces),
        check_filed(alloc, line, marks.unfiled),
        check_many(alloc, line, devices),
        check_many(alloc, line, volumes),
        check_many(alloc, line, rules),
    )
}

fn copied_scopes(alloc: Global, scopes: &[Scope]) -> Result<Rows<Scope>, WantOfMemory>
    ensures { IfOk result (λ rows. rows ≡ scopes.now) }
{
    let mut rows = Rows::new(alloc);
    for scope in scopes {
        rows.push(scope.copy(alloc)?)?;
    }
    Ok(rows)
}

fn with_heads(above: u64, section: FlashSection, heads: &[Head]) -> u64
    ensures { result ≡ saturated (above + saturated (heads_here section heads.now)) }
{
    above.saturating_add(heads_of(section, heads))
}

fn with_scopes(above: u64, section: FlashSection, scopes: &[Scope]) -> u64
    ensures { result ≡ saturated (above + saturated (count_of (one_scope section) scopes.now)) }
{
    above.saturating_add(scopes_of(section, scopes))
}

impl Format for FlashLines {
    ghost use Rattle.fdf_lines.specs.Grammar.{flash_grammar};
    ghost use Rattle.fdf_lines.specs.Holding.{Holds};
    ghost use Rattle.fdf_words.specs.declared.rows.Row.{Row};
    ghost use Rattle.fdf_words.specs.declared.rows.Scope.{Scope};
    ghost use Rattle.doc_reading.specs.Grammar.{Read, gave};
    ghost use Rattle.std.specs.Prelude.{List, ◌++◌};

    type Scope = Scope;

    type Row = Row;

    ghost grammar = { flash_grammar };

    ghost holds = { Holds };

    fn stray_code(&self) -> u16 {
        BAD_KEY
    }

    fn enter(&self, line: &Taken, head: &Head) -> Result<Option<Scope>, Refusal> {
        enter(self.alloc, line, head)
    }

    fn read_line(&self, line: &Taken, scope: &Scope) -> Result<Option<Row>, Refusal> {
        line_row(
            self.alloc,
            line,
            self.marks,
            is_full(self.statements),
            scope,
        )
    }

    fn check_heads(&self, line: &Taken, heads: &[Head]) -> Result<(), Refusal> {
        check_counts(
            self.alloc,
            line,
            self.marks,
            with_heads(self.devices, FlashSection::Device, heads),
            with_heads(self.volumes, FlashSection::Volume, heads),
            with_heads(self.rules, FlashSection::Rule, heads),
        )
    }

    fn check_open(&self, line: &Taken) -> Result<(), Refusal> {
        check_left(self.alloc, line, self.marks, self.volume)
    }

    fn begin(&mut self, at: &Place, scopes: &[Scope]) -> Result<(), WantOfMemory> {
        let heads = LineRead::Heads {
            at: at.copy(self.alloc)?,
            scopes: copied_scopes(self.alloc, scopes)?,
        };
        self.reads.push(heads)?;
        self.marks = marks_begun(scopes);
        self.volume = has_volume(scopes);
        self.statements = 0;
        self.devices = with_scopes(self.devices, FlashSection::Device, scopes);
        self.volumes = with_scopes(self.volumes, FlashSection::Volume, scopes);
        self.rules = with_scopes(self.rules, FlashSection::Rule, scopes);
        Ok(())
    }

    fn add_rows(&mut self, rows: Vec<Row>) -> Result<(), WantOfMemory>
        ensures { (above : List (Read Scope Row)) → Holds above self.old
            → OnOk result (Holds (above ++ gave rows.items ∷ []) self.new) }
    {
        self.marks = marks_after(self.marks, rows.as_slice());
        self.statements = self
            .statements
            .saturating_add(statements_of(rows.as_slice()));
        self.reads.push(LineRead::Body(Rows::from_vec(rows)))?;
        Ok(())
    }
}

/// What the lines of a flash description come to, or the fault of the first line that has one.
/// There are at most 65,535 devices, volumes and rules, and as many statements below each line of
/// heads.
#[tactic(auto, unfolding(crate::specs::Grammar::rows_of_flash), using(crate::proofs::LimitLemmas::within_held))]
pub fn read_rows(alloc: Global, lines: &Lines) -> Result<Rows<LineRead>, Refusal>
    ensures rows { AnswersAs reads_as result (rows_of_flash lines.now.rows) }
    ensures limits { IfOk result (λ rows. WithinLimits (reads_as rows)) }
{
    let format = FlashLines {
        alloc,
        reads: Rows::new(alloc),
        marks: Marks {
            braces: Open::Shut,
            waiting: Waiting::NoRegion,
            pair: false,
            unfiled: false,
        },
        volume: false,
        statements: 0,
        devices: 0,
        volumes: 0,
        rules: 0,
    };
    let format = read_document(alloc, format, lines.rows.items())?;
    Ok(format.reads)
}
