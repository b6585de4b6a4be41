//! What a call tells, row by row. Once memory was wanting, nothing more is told: so what tells a
//! row has no way out, and is quick to prove.

use crate::notes::Notes;
use crate::stop::Stop;
use crate::told::{Told, add_output};
use crate::wrong::Wrong;
use build_base::fault::fault_text;
use build_base::{Fault, Guid};
use std::alloc::Global;
use std::fmt::Debug;
use uuid::Uuid;

/// What was told so far, and whether memory was wanting.
#[derive(Drop)]
pub struct Page {
    alloc: Global,
    told: Told,
    notes: Notes,
}

impl Page {
    /// Nothing yet.
    pub fn new(alloc: Global) -> Page {
        Page {
            alloc,
            told: Told::new(alloc),
            notes: Notes::new(),
        }
    }

    /// Where memory is taken from.
    pub fn alloc(&self) -> Global {
        self.alloc
    }

    /// These bytes on standard output.
    pub fn put(&mut self, bytes: &[u8]) {
        self.notes.add(&mut self.told.out, bytes);
    }

    /// A word behind a blank.
    pub fn word(&mut self, word: &[u8]) {
        self.put(b" ");
        self.put(word);
    }

    /// A number behind a blank.
    pub fn number(&mut self, number: u64) {
        match format!(in self.alloc; "{number}") {
            Ok(text) => self.word(text.as_bytes()),
            Err(_) => self.notes.short(),
        }
    }

    /// A value's name in the code, behind a blank.
    pub fn name<T: Debug>(&mut self, value: &T) {
        match format!(in self.alloc; "{value:?}") {
            Ok(text) => self.word(text.as_bytes()),
            Err(_) => self.notes.short(),
        }
    }

    /// A GUID behind a blank.
    pub fn guid(&mut self, guid: &Guid) {
        let mut buffer = [0; 36];
        let id = Uuid::from_bytes_le(guid.0);
        let text = id.hyphenated().encode_lower(&mut buffer);
        self.word(text.as_bytes());
    }

    /// Two words.
    pub fn pair(&mut self, first: &[u8], second: &[u8]) {
        self.word(first);
        self.word(second);
    }

    /// A word and a number.
    pub fn count(&mut self, word: &[u8], number: u64) {
        self.word(word);
        self.number(number);
    }

    /// The end of a row.
    pub fn end(&mut self) {
        self.put(b"\n");
    }

    /// A row of a name and a word.
    pub fn row(&mut self, name: &[u8], word: &[u8]) {
        self.put(name);
        self.word(word);
        self.end();
    }

    /// A fault's text on standard output.
    pub fn put_fault(&mut self, fault: &Fault) {
        match fault_text(self.alloc, fault) {
            Ok(text) => self.put(text.bytes()),
            Err(_) => self.notes.short(),
        }
    }

    /// The status 1, and these bytes on standard error.
    pub fn fail(&mut self, bytes: &[u8]) {
        self.told.status = 1;
        self.notes.add(&mut self.told.err, bytes);
    }

    /// The status 1, and a fault's text on standard error.
    pub fn fault(&mut self, fault: &Fault) {
        match fault_text(self.alloc, fault) {
            Ok(text) => self.fail(text.bytes()),
            Err(_) => self.notes.short(),
        }
    }

    /// A file.
    pub fn file(&mut self, path: &[u8], bytes: &[u8]) {
        add_output(
            &mut self.notes,
            self.alloc,
            &mut self.told.files,
            path,
            bytes,
        );
    }

    /// All that was told, for a call that ended so.
    pub fn into_told(self, ended: Result<(), Stop>) -> Result<Told, Wrong> {
        let mut page = self;
        match page.end_by(ended) {
            Ok(()) => Ok(page.told),
            Err(wrong) => Err(wrong),
        }
    }

    // Tells the fault by which a call ended, and says what is wrong.
    fn end_by(&mut self, ended: Result<(), Stop>) -> Result<(), Wrong> {
        match ended {
            Ok(()) => {}
            Err(Stop::Bad(fault)) => self.fault(&fault),
            Err(Stop::Wrong(wrong)) => return Err(wrong),
        }
        self.notes.whole()
    }
}
