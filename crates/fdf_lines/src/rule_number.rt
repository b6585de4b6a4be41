//! The build numbers of a rule's sections.
ghost use Rattle.std.specs.Prelude.{◌≡◌};
ghost use Rattle.build_base.specs.Answer.{Answers};
ghost use Rattle.fdf_lines.specs.RuleNumbers.{begins_another, holds_another, within_word, build_number, stated_number};

use build_base::fault_codes::{BAD_EXPRESSION, BAD_RULE, UNDEFINED_MACRO};
use build_base::{Refusal, Rows, Taken, Text, refuse};
use fdf_words::number::bad_line;
use macro_expressions::{Value, evaluate};
use meta_lexer::field::ends_quoted;
use std::alloc::Global;

fn begins_another(text: &[u8]) -> bool
    ensures { result ≡ begins_another text.now }
{
    text.starts_with(b"$(") && !text.starts_with(b"$(BUILD_NUMBER)")
}

// Whether another macro than `$(BUILD_NUMBER)` stands in a text.
#[tactic(auto, unfolding(crate::specs::RuleNumbers::holds_another))]
fn holds_another(text: &[u8]) -> bool
    ensures { result ≡ holds_another text.now }
{
    for (i, _) in text.iter().enumerate() {
        if begins_another(&text[i..]) {
            return true;
        }
    }
    false
}

fn within_word(alloc: Global, line: &Taken, word: &[u8], number: u64) -> Result<u16, Refusal>
    ensures { Answers result (within_word line.now word.now number) }
{
    if holds_another(word) {
        return Err(bad_line(alloc, UNDEFINED_MACRO, line));
    }
    if number <= 65535 {
        Ok(number as u16)
    } else {
        Err(bad_line(alloc, BAD_RULE, line))
    }
}

#[tactic(auto, unfolding(crate::specs::RuleNumbers::build_number))]
fn build_number(alloc: Global, line: &Taken, word: &[u8]) -> Result<u16, Refusal>
    ensures { Answers result (build_number line.now word.now) }
{
    if ends_quoted(word) {
        return Err(refuse(alloc, BAD_EXPRESSION, &line.at, word));
    }
    let written = Text::of(alloc, word)?;
    let none = Rows::new(alloc);
    match evaluate(alloc, &line.at, &written, &none) {
        Ok(Value::Number(number)) => within_word(alloc, line, word, number),
        Ok(Value::Word(_)) => Err(refuse(alloc, BAD_EXPRESSION, &line.at, word)),
        Err(refusal) => Err(refusal),
    }
}

/// The number that an option of a rule's section states, or 0 where it states none.
pub(crate) fn stated_number(
    alloc: Global,
    line: &Taken,
    stated: bool,
    word: &[u8],
) -> Result<u16, Refusal>
    ensures { Answers result (stated_number line.now stated word.now) }
{
    if stated {
        return build_number(alloc, line, word);
    }
    Ok(0)
}
