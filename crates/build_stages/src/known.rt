//! What is known of a talk.
ghost use Rattle.std.specs.Prelude.{◌≡◌, OnOk, IfOk};
ghost use Rattle.std.specs.Option.{option_copied};
ghost use Rattle.build_stages.specs.Asks.{found_at};
ghost use Rattle.build_stages.specs.Known.{known_at, missing_at, seen_in, IsOf, AreOf, NotesAll};

use crate::ask_table::AskTable;
use build_base::{Rows, Same, WantOfMemory};
use std::alloc::Global;
use std::marker::Model;
use step_engine::{Answer, Ask, Pair, StepKey, Talk};

/// The answers of a talk, by their asks.
#[derive(Drop)]
pub struct Known<'a, K: StepKey, O> {
    answers: AskTable<K, &'a Answer<O>>,
}

impl<'a, K: StepKey, O> Model for Known<'a, K, O> {
    ghost use Rattle.std.specs.Borrow.{Bor};
    ghost use Rattle.step_engine.specs.declared.talk.Answer.{Answer};
    ghost use Rattle.build_stages.specs.Asks.{Tables};

    ghost Value = { Tables K (Bor (Answer O)) };

    ghost view = { λ k. k.answers };
}

// Puts the answers of a batch where there are none.
fn note_all<'a, K: StepKey, O>(
    alloc: Global,
    answers: &mut AskTable<K, &'a Answer<O>>,
    pairs: &'a [Pair<K, O>],
) -> Result<(), WantOfMemory>
    ensures { OnOk result (NotesAll K.cmp pairs.now answers.old answers.new) }
{
    for pair in pairs {
        answers.note(alloc, &pair.ask, &pair.answer)?;
    }
    Ok(())
}

impl<'a, K: StepKey, O> Known<'a, K, O> {
    /// What is known of a talk: of an ask that stands twice, the first answer.
    pub fn of(alloc: Global, talk: &'a Talk<K, O>) -> Result<Known<'a, K, O>, WantOfMemory>
        ensures { IfOk result (IsOf K.cmp talk.now.batches) }
    {
        let mut answers = AskTable::new(alloc);
        for batch in talk.batches.items() {
            note_all(alloc, &mut answers, batch.pairs.items())?;
        }
        Ok(Known { answers })
    }

    /// The answer to an ask.
    pub fn get(&self, ask: &Ask<K>) -> Option<&'a Answer<O>>
        ensures { option_copied result ≡ known_at K.cmp self.now ask.now }
    {
        match self.answers.get(ask) {
            Some(answer) => Some(*answer),
            None => None,
        }
    }

    // The answers to all asks, where each is known.
    pub(crate) fn all<'b>(
        &'b self,
        alloc: Global,
        asks: &[Ask<K>],
    ) -> Result<Option<Vec<&'b Answer<O>>>, WantOfMemory>
        ensures { IfOk result (AreOf K.cmp self.now asks.now) }
    {
        let mut answers = Vec::new(alloc);
        for ask in asks {
            match self.get(ask) {
                Some(answer) => {
                    if answers.push(answer).is_err() {
                        return Err(WantOfMemory);
                    }
                }
                None => return Ok(None),
            }
        }
        Ok(Some(answers))
    }

    // Whether an ask is known or noted.
    fn is_seen(&self, noted: &AskTable<K, ()>, ask: &Ask<K>) -> bool
        ensures { result ≡ seen_in (known_at K.cmp self.now) (found_at K.cmp noted.now) ask.now }
    {
        if noted.get(ask).is_some() {
            return true;
        }
        self.get(ask).is_some()
    }

    // The asks that have no answer, each once.
    pub(crate) fn missing(
        &self,
        alloc: Global,
        asks: &[Ask<K>],
    ) -> Result<Rows<Ask<K>>, WantOfMemory>
        ensures { IfOk result (λ wanted. wanted ≡ missing_at K.cmp self.now asks.now) }
    {
        let mut wanted = Rows::new(alloc);
        let mut noted: AskTable<K, ()> = AskTable::new(alloc);
        for ask in asks {
            if !self.is_seen(&noted, ask) {
                noted.note(alloc, ask, ())?;
                wanted.push(ask.copy(alloc)?)?;
            }
        }
        Ok(wanted)
    }
}
