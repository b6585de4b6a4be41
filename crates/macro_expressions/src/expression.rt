//! Values of expressions.
ghost use Rattle.std.specs.Prelude.{◌≡◌, IfOk, Some, map, slice_index};
ghost use Rattle.std.specs.Option.{option_map};
ghost use Rattle.std.specs.List.{All};
ghost use Rattle.build_base.specs.Answer.{Answers, Finds};
ghost use Rattle.build_base.specs.FaultText.{fault_of};
ghost use Rattle.meta_lexer.specs.Fields.{IsWithin};
ghost use Rattle.meta_lexer.specs.Tokens.{token_span};
ghost use Rattle.macro_expressions.specs.declared.macros.Undefined.TheVariants.{Zero};
ghost use Rattle.macro_expressions.specs.Macros.{replaced};
ghost use Rattle.macro_expressions.specs.Scopes.{scope_of};
ghost use Rattle.macro_expressions.specs.Values.{view};
ghost use Rattle.macro_expressions.specs.ExpressionTree.{term_view};
ghost use Rattle.macro_expressions.specs.Expressions.{numeral, keyword_named, word_symbol, one_mark, mark_before_equals, mark_twice, mark_symbol, symbol_of, symbol_at, answered, value_of_text, detail_of, evaluation, IsMeaningOf};

use crate::machine::run;
use crate::macros::{Scope, Undefined, replace};
use crate::operand::{Operand, Term};
use crate::operator::{BinaryOperator, Keyword, PrefixOperator};
use crate::table::{ListedMacros, MacroTable};
use build_base::fault_codes::{BAD_EXPRESSION, OPEN_QUOTE, VALUE_RANGE};
use build_base::{Macro, Place, Refusal, Rows, Text, WantOfMemory, refuse};
use meta_lexer::head::{bytes_at, without_quotes};
use meta_lexer::{LexRefusal, Span, Token, TokenKind, lookup, number, tokens};
use std::alloc::Global;

/// The value of an expression.
#[derive(Drop)]
pub enum Value {
    Number(u64),
    Word(Text),
}

fn numeral<'a>(read: Option<u64>) -> Operand<'a>
    ensures { view result ≡ numeral read }
{
    match read {
        None => Operand::Error(VALUE_RANGE),
        Some(n) => Operand::Number(n),
    }
}

// What the words of expressions stand for.
const KEYWORDS: [(&[u8], Keyword); 11] = [
    (b"TRUE", Keyword::Number(1)),
    (b"FALSE", Keyword::Number(0)),
    (b"OR", Keyword::Binary(BinaryOperator::Or)),
    (b"AND", Keyword::Binary(BinaryOperator::And)),
    (b"EQ", Keyword::Binary(BinaryOperator::Eq)),
    (b"NE", Keyword::Binary(BinaryOperator::Ne)),
    (b"LT", Keyword::Binary(BinaryOperator::Lt)),
    (b"LE", Keyword::Binary(BinaryOperator::Le)),
    (b"GT", Keyword::Binary(BinaryOperator::Gt)),
    (b"GE", Keyword::Binary(BinaryOperator::Ge)),
    (b"NOT", Keyword::Prefix(PrefixOperator::Not)),
];

#[tactic(auto, unfolding(crate::specs::Expressions::keyword_named))]
fn keyword_named(word: &[u8]) -> Option<Keyword>
    ensures { result ≡ keyword_named word.now }
{
    lookup(&KEYWORDS, word)
}

#[tactic(auto, unfolding(crate::specs::Expressions::word_symbol))]
fn word_term(word: &[u8]) -> Term<'_>
    ensures { term_view result ≡ word_symbol word.now }
{
    match keyword_named(word) {
        Some(Keyword::Number(truth)) => Term::Value(Operand::Number(truth)),
        Some(Keyword::Binary(operator)) => Term::Binary(operator),
        Some(Keyword::Prefix(operator)) => Term::Prefix(operator),
        None => Term::Value(Operand::Word(word)),
    }
}

#[tactic(auto, unfolding(crate::specs::Expressions::one_mark))]
fn one_mark<'a>(b: u8) -> Term<'a>
    ensures { term_view result ≡ one_mark b }
{
    match b {
        b'|' => Term::Binary(BinaryOperator::BitOr),
        b'^' => Term::Binary(BinaryOperator::BitXor),
        b'&' => Term::Binary(BinaryOperator::BitAnd),
        b'<' => Term::Binary(BinaryOperator::Lt),
        b'>' => Term::Binary(BinaryOperator::Gt),
        b'+' => Term::Binary(BinaryOperator::Add),
        b'-' => Term::Binary(BinaryOperator::Sub),
        b'*' => Term::Binary(BinaryOperator::Mul),
        b'/' => Term::Binary(BinaryOperator::Div),
        b'%' => Term::Binary(BinaryOperator::Rem),
        b'!' => Term::Prefix(PrefixOperator::Not),
        b'~' => Term::Prefix(PrefixOperator::Flip),
        b'(' => Term::Open,
        b')' => Term::Close,
        _ => Term::Unknown,
    }
}

#[tactic(auto, unfolding(crate::specs::Expressions::mark_before_equals))]
fn mark_before_equals<'a>(a: u8) -> Term<'a>
    ensures { term_view result ≡ mark_before_equals a }
{
    match a {
        b'!' => Term::Binary(BinaryOperator::Ne),
        b'<' => Term::Binary(BinaryOperator::Le),
        b'>' => Term::Binary(BinaryOperator::Ge),
        _ => Term::Binary(BinaryOperator::Eq),
    }
}

#[tactic(auto, unfolding(crate::specs::Expressions::mark_twice))]
fn mark_twice<'a>(a: u8) -> Term<'a>
    ensures { term_view result ≡ mark_twice a }
{
    match a {
        b'|' => Term::Binary(BinaryOperator::Or),
        b'&' => Term::Binary(BinaryOperator::And),
        b'<' => Term::Binary(BinaryOperator::Shl),
        _ => Term::Binary(BinaryOperator::Shr),
    }
}

#[tactic(auto, unfolding(crate::specs::Expressions::mark_symbol))]
fn mark_term<'a>(mark: &[u8]) -> Term<'a>
    ensures { term_view result ≡ mark_symbol mark.now }
{
    if mark.len() == 2 {
        if mark[1] == b'=' {
            mark_before_equals(mark[0])
        } else {
            mark_twice(mark[0])
        }
    } else {
        one_mark(first_byte(mark))
    }
}

// The first byte, or 0 where there is none.
fn first_byte(text: &[u8]) -> u8
    ensures { result ≡ slice_index text.now 0 }
{
    if text.is_empty() { 0 } else { text[0] }
}

#[tactic(auto, unfolding(crate::specs::Expressions::symbol_of))]
fn term_of(kind: TokenKind, bytes: &[u8]) -> Term<'_>
    ensures { term_view result ≡ symbol_of kind bytes.now }
{
    match kind {
        TokenKind::Word => word_term(bytes),
        TokenKind::Number => Term::Value(numeral(number(bytes))),
        TokenKind::Quoted => Term::Value(Operand::Word(without_quotes(bytes))),
        TokenKind::Mark => mark_term(bytes),
    }
}

fn term_at<'a>(text: &'a [u8], token: &Token) -> Term<'a>
    requires { IsWithin text.now (token_span token.now) }
    ensures { term_view result ≡ symbol_at text.now token.now }
{
    let span = Span {
        start: token.start,
        end: token.end,
    };
    term_of(token.kind, bytes_at(text, &span))
}

fn terms<'a>(alloc: Global, text: &'a [u8], tokens: &[Token]) -> Result<Vec<Term<'a>>, WantOfMemory>
    requires { All (λ token. IsWithin text.now (token_span token)) tokens.now }
    ensures { IfOk result (λ v. map term_view v.items ≡ map (symbol_at text.now) tokens.now) }
{
    let mut terms = Vec::new(alloc);
    for token in tokens {
        if terms.push(term_at(text, token)).is_err() {
            return Err(WantOfMemory);
        }
    }
    Ok(terms)
}

// The value, or the code of the fault.
fn answer(alloc: Global, found: Option<Operand<'_>>) -> Result<Result<Value, u16>, WantOfMemory>
    ensures { IfOk result (λ r. r ≡ answered (option_map view found.entry)) }
{
    match found {
        None | Some(Operand::TypeError) => Ok(Err(BAD_EXPRESSION)),
        Some(Operand::Error(code)) => Ok(Err(code)),
        Some(Operand::Number(n)) => Ok(Ok(Value::Number(n))),
        Some(Operand::Word(word)) => Ok(Ok(Value::Word(Text::of(alloc, word)?))),
    }
}

/// What an expression without macros comes to: its value, or the code of its fault.
#[tactic(auto, unfolding(crate::specs::Expressions::value_of_text))]
pub fn value_of_text(alloc: Global, text: &[u8]) -> Result<Result<Value, u16>, WantOfMemory>
    ensures { IfOk result (λ r. r ≡ value_of_text text.now) }
{
    match tokens(alloc, text) {
        Ok(tokens) => {
            let terms = terms(alloc, text, tokens.as_slice())?;
            answer(alloc, run(alloc, terms.as_slice())?)
        }
        Err(LexRefusal::Bad { code, .. }) => Ok(Err(code)),
        Err(LexRefusal::WantOfMemory) => Err(WantOfMemory),
    }
}

/// The detail of the fault with this code: the open quote, or the expression as written.
pub fn detail(code: u16, text: &[u8]) -> &[u8]
    ensures { result.now ≡ detail_of code text.now }
{
    if code == OPEN_QUOTE {
        b"\"".as_slice()
    } else {
        text
    }
}

/// What an expression comes to in a scope: its value, or the code of its fault.
pub fn value_in(
    alloc: Global,
    scope: Scope<'_>,
    text: &[u8],
) -> Result<Result<Value, u16>, WantOfMemory>
    ensures { IfOk result (λ r. r ≡ value_of_text (replaced Zero (scope_of scope.entry) text.now)) }
{
    let written = replace(alloc, Undefined::Zero, scope, text)?;
    value_of_text(alloc, written.as_slice())
}

// The same for the macros of a list.
fn listed_value(
    alloc: Global,
    text: &[u8],
    macros: &[Macro],
) -> Result<Result<Value, u16>, WantOfMemory>
    ensures { IfOk result (λ r. r ≡ value_of_text (replaced Zero macros.now text.now)) }
{
    let files = MacroTable::new(alloc);
    let fixed = ListedMacros::of(alloc, macros)?;
    let scope = Scope {
        files: &files,
        fixed: &fixed,
    };
    value_in(alloc, scope, text)
}

/// The refusal of an expression with a fault.
pub(crate) fn refuse_expression(alloc: Global, code: u16, at: &Place, text: &[u8]) -> Refusal
    ensures { Finds result (Some (fault_of code at.now (detail_of code text.now))) }
{
    refuse(alloc, code, at, detail(code, text))
}

/// What an expression at a place comes to. Macros are replaced first, and one that isn't defined is
/// 0.
#[tactic(auto, unfolding(crate::specs::Expressions::evaluation))]
pub fn evaluate(
    alloc: Global,
    at: &Place,
    text: &Text,
    macros: &Rows<Macro>,
) -> Result<Value, Refusal>
    ensures value { Answers result (evaluation at.now text.now macros.now) }
    ensures tree { IsMeaningOf (replaced Zero macros.now text.now) result }
{
    match listed_value(alloc, text.bytes(), macros.items())? {
        Ok(value) => Ok(value),
        Err(code) => Err(refuse_expression(alloc, code, at, text.bytes())),
    }
}
