//! Reading a document of any format.
ghost use Rattle.std.specs.Prelude.{◌≡◌, ◌++◌, [], List, OnOk, IfOk, Some};
ghost use Rattle.build_base.specs.Answer.{Answers, AnswersAs, Checks};
ghost use Rattle.doc_reading.specs.declared.form.LineForm.TheVariants as form;
ghost use Rattle.doc_reading.specs.Grammar.{Read, heads_entered, rows_given, body_given, read_of, end_fault, first_fault, fault_as, form_read};
ghost use Rattle.doc_reading.specs.Holding.{Held};

use crate::form::{LineForm, form_of};
use crate::format::Format;
use crate::gathered::LineResult;
use crate::least_check::{lesser_check, with_check};
use crate::reader::{Reader, read_lines};
use build_base::fault_codes::{BAD_SECTION, OPEN_QUOTE};
use build_base::{Refusal, Rows, Taken, refuse};
use meta_lexer::head::Head;
use std::alloc::Global;

/// What a reader of a document holds: the scopes of the last heads, and what its format keeps.
#[derive(Drop)]
pub struct Document<S, F> {
    pub alloc: Global,
    pub scopes: Option<Rows<S>>,
    pub format: F,
}

fn scopes_entered<F: Format>(
    alloc: Global,
    format: &F,
    line: &Taken,
    heads: &[Head],
) -> Result<Vec<F::Scope>, Refusal>
    ensures { AnswersAs (λ scopes. scopes.items) result
        (heads_entered F.grammar line.now heads.now) }
{
    let mut gathered = LineResult::new(alloc, heads.len());
    for head in heads {
        gathered.add(format.enter(line, head))?;
    }
    gathered.finish()
}

fn scopes_of<F: Format>(
    alloc: Global,
    format: &F,
    line: &Taken,
    heads: &[Head],
) -> Result<Rows<F::Scope>, Refusal>
    ensures { Answers result (heads_entered F.grammar line.now heads.now) }
{
    let scopes = scopes_entered(alloc, format, line, heads)?;
    Ok(Rows::from_vec(scopes))
}

fn rows_below<F: Format>(
    alloc: Global,
    format: &F,
    line: &Taken,
    scopes: &[F::Scope],
) -> Result<Vec<F::Row>, Refusal>
    ensures { (above : List (Read F.Scope F.Row)) → F.holds above format.now →
        AnswersAs (λ rows. rows.items) result (rows_given F.grammar above line.now scopes.now) }
{
    let mut gathered = LineResult::new(alloc, scopes.len());
    for scope in scopes {
        gathered.add(format.read_line(line, scope))?;
    }
    gathered.finish()
}

impl<F: Format> Document<F::Scope, F> {
    // What a line gives below the last heads.
    fn body_rows(&self, line: &Taken) -> Result<Vec<F::Row>, Refusal>
        ensures { (above : List (Read F.Scope F.Row)) → F.holds above self.now.format →
            AnswersAs (λ rows. rows.items) result
            (body_given F.grammar above line.now self.now.scopes) }
    {
        match &self.scopes {
            None => Err(refuse(
                self.alloc,
                self.format.stray_code(),
                &line.at,
                line.text.bytes(),
            )),
            Some(scopes) => rows_below(self.alloc, &self.format, line, scopes.items()),
        }
    }

    // Refuses what is open below the last line.
    fn check_end(&self, line: &Taken, last: bool) -> Result<(), Refusal>
        ensures { (above : List (Read F.Scope F.Row)) → F.holds above self.now.format →
            Checks result (end_fault F.grammar above line.now last) }
    {
        if last {
            return self.format.check_open(line);
        }
        Ok(())
    }

    // Takes a line below heads.
    fn take_body(&mut self, line: &Taken, last: bool) -> Result<(), Refusal>
        ensures fault { (above : List (Read F.Scope F.Row)) → Held F.holds above self.old →
            Checks result (fault_as F.grammar above line.now last form.Body) }
        ensures rows { (above : List (Read F.Scope F.Row)) → Held F.holds above self.old →
            OnOk result
            (Held F.holds (above ++ form_read F.grammar above line.now form.Body) self.new) }
    {
        match self.body_rows(line) {
            Ok(rows) => {
                self.format.add_rows(rows)?;
                self.check_end(line, last)
            }
            Err(Refusal::WantOfMemory) => Err(Refusal::WantOfMemory),
            Err(refusal) => Err(with_check(refusal, self.check_end(line, last))),
        }
    }

    // Enters the sections of heads.
    fn take_heads(&mut self, line: &Taken, heads: &[Head], last: bool) -> Result<(), Refusal>
        ensures fault { (above : List (Read F.Scope F.Row)) (hs : _) → hs ≡ heads.now →
            Held F.holds above self.old →
            Checks result (fault_as F.grammar above line.now last (form.Heads hs)) }
        ensures rows { (above : List (Read F.Scope F.Row)) (hs : _) → hs ≡ heads.now →
            Held F.holds above self.old →
            OnOk result
            (Held F.holds (above ++ form_read F.grammar above line.now (form.Heads hs)) self.new) }
    {
        let above = self.format.check_heads(line, heads);
        match scopes_of(self.alloc, &self.format, line, heads) {
            Ok(scopes) => {
                self.format.begin(&line.at, scopes.items())?;
                self.scopes = Some(scopes);
                lesser_check(above, self.check_end(line, last))?;
                Ok(())
            }
            Err(Refusal::WantOfMemory) => Err(Refusal::WantOfMemory),
            Err(refusal) => {
                Err(with_check(refusal, lesser_check(above, self.check_end(line, last))))
            }
        }
    }

    // Takes a line of this form.
    fn take(&mut self, line: &Taken, last: bool, form: LineForm) -> Result<(), Refusal>
        ensures fault { (above : List (Read F.Scope F.Row)) → Held F.holds above self.old →
            Checks result (fault_as F.grammar above line.now last form) }
        ensures rows { (above : List (Read F.Scope F.Row)) → Held F.holds above self.old →
            OnOk result (Held F.holds (above ++ form_read F.grammar above line.now form) self.new) }
    {
        match form {
            LineForm::Blank => self.check_end(line, last),
            LineForm::Heads(heads) => self.take_heads(line, heads.items(), last),
            LineForm::OpenHead => {
                Err(refuse(self.alloc, OPEN_QUOTE, &line.at, b"\"".as_slice()))
            }
            LineForm::BadHead => Err(refuse(self.alloc, BAD_SECTION, &line.at, line.text.bytes())),
            LineForm::Body => self.take_body(line, last),
        }
    }
}

impl<F: Format> Reader for Document<F::Scope, F> {
    ghost use Rattle.doc_reading.specs.Grammar.{line_fault, read_of};
    ghost use Rattle.doc_reading.specs.Holding.{Held};

    ghost read = { λ above document. Held F.holds (read_of F.grammar above) document };

    ghost fault = { line_fault F.grammar };

    fn line(&mut self, line: &Taken, last: bool) -> Result<(), Refusal> {
        let form = form_of(self.alloc, line.text.bytes())?;
        self.take(line, last, form)?;
        Ok(())
    }
}

/// Reads the lines of a document, or answers the fault of the first line that has one.
pub fn read_document<F: Format + Drop>(
    alloc: Global,
    format: F,
    lines: &[Taken],
) -> Result<F, Refusal>
    requires { F.holds [] format }
    ensures fault { Checks result (first_fault F.grammar lines.now) }
    ensures holds { IfOk result (λ f. F.holds (read_of F.grammar lines.now) f) }
{
    let mut document = Document {
        alloc,
        scopes: None,
        format,
    };
    read_lines(&mut document, lines)?;
    Ok(document.format)
}
