//! The forms of the lines of PCDs.
ghost use Rattle.std.specs.Prelude.{◌≡◌};
ghost use Rattle.std.specs.Option.{option_map};
ghost use Rattle.doc_types.specs.Pcds.{datum_named};
ghost use Rattle.meta_lexer.specs.Tokens.{quoted_of};
ghost use Rattle.dsc_lines.specs.PcdLines.{is_there, small_in, small_of, is_star, is_written, is_variable, plain_number, hii_number, vpd_offset, vpd_number, number_field, is_plain_form, is_hii_front, is_hii_form, is_vpd_form, is_form};

use crate::section::StoreKind;
use build_base::Text;
use doc_types::pcd::datum_named;
use meta_lexer::numbers::number;
use meta_lexer::token::quoted_span;
use meta_lexer::words::is_identifier;

fn small_in(number: Option<u64>) -> Option<u32>
    ensures { result ≡ small_in number }
{
    match number {
        Some(number) => {
            if number < 0x1_0000_0000 {
                return Some(number as u32);
            }
            None
        }
        None => None,
    }
}

/// The plain number below 2^32 that a text is.
#[tactic(auto, unfolding(crate::specs::PcdLines::small_of))]
pub(crate) fn small_number(text: &[u8]) -> Option<u32>
    ensures { result ≡ small_of text.now }
{
    small_in(number(text))
}

fn is_datum(word: &[u8]) -> bool
    ensures { result ≡ is_there (datum_named word.now) }
{
    match datum_named(word) {
        Some(_) => true,
        None => false,
    }
}

#[tactic(auto, unfolding(crate::specs::PcdLines::is_star))]
fn is_star(text: &[u8]) -> bool
    ensures { result ≡ is_star text.now }
{
    text == b"*".as_slice()
}

fn is_written(text: &Text) -> bool
    ensures { result ≡ is_written text.now }
{
    !text.bytes().is_empty()
}

fn is_quoted(text: &[u8]) -> bool
    ensures { result ≡ is_there (quoted_of text.now) }
{
    match quoted_span(text) {
        Some(_) => true,
        None => false,
    }
}

fn is_variable(text: &[u8]) -> bool
    ensures { result ≡ is_variable text.now }
{
    match text {
        [letter, text @ ..] => *letter == b'L' && is_quoted(text),
        [] => false,
    }
}

fn plain_number(fields: &[Text]) -> Option<&[u8]>
    ensures { option_map (λ t. t.now) result ≡ plain_number fields.now }
{
    match fields {
        [_, _, _, max] => Some(max.bytes()),
        _ => None,
    }
}

fn hii_number(fields: &[Text]) -> Option<&[u8]>
    ensures { option_map (λ t. t.now) result ≡ hii_number fields.now }
{
    match fields {
        [_, _, _, offset] => Some(offset.bytes()),
        [_, _, _, offset, _] => Some(offset.bytes()),
        [_, _, _, offset, _, _] => Some(offset.bytes()),
        _ => None,
    }
}

fn vpd_offset(offset: &[u8]) -> Option<&[u8]>
    ensures { option_map (λ t. t.now) result ≡ vpd_offset offset.now }
{
    if is_star(offset) {
        return None;
    }
    Some(offset)
}

fn vpd_number(fields: &[Text]) -> Option<&[u8]>
    ensures { option_map (λ t. t.now) result ≡ vpd_number fields.now }
{
    match fields {
        [_, offset] => vpd_offset(offset.bytes()),
        [_, offset, _] => vpd_offset(offset.bytes()),
        [_, offset, _, _] => vpd_offset(offset.bytes()),
        _ => None,
    }
}

/// The field that is to be a plain number.
pub fn number_field(stored: StoreKind, fields: &[Text]) -> Option<&[u8]>
    ensures { option_map (λ t. t.now) result ≡ number_field stored fields.now }
{
    match stored {
        StoreKind::Plain => plain_number(fields),
        StoreKind::Hii => hii_number(fields),
        StoreKind::Vpd => vpd_number(fields),
    }
}

fn is_plain_form(fields: &[Text]) -> bool
    ensures { result ≡ is_plain_form fields.now }
{
    match fields {
        [_, value] => is_written(value),
        [_, value, datum] => is_written(value) && is_datum(datum.bytes()),
        [_, value, datum, _] => is_written(value) && is_datum(datum.bytes()),
        _ => false,
    }
}

fn is_hii_front(variable: &Text, guid: &Text) -> bool
    ensures { result ≡ is_hii_front variable.now guid.now }
{
    is_variable(variable.bytes()) && is_identifier(guid.bytes())
}

fn is_hii_form(fields: &[Text]) -> bool
    ensures { result ≡ is_hii_form fields.now }
{
    match fields {
        [_, variable, guid, _] => is_hii_front(variable, guid),
        [_, variable, guid, _, default] => is_hii_front(variable, guid) && is_written(default),
        [_, variable, guid, _, default, attributes] => {
            is_hii_front(variable, guid) && is_written(default) && is_written(attributes)
        }
        _ => false,
    }
}

fn is_vpd_form(fields: &[Text]) -> bool
    ensures { result ≡ is_vpd_form fields.now }
{
    match fields {
        [_, _] => true,
        [_, _, one] => is_written(one),
        [_, _, one, two] => is_written(one) && is_written(two),
        _ => false,
    }
}

/// Whether these are the fields of a line of a section's form, but for the name and the number.
pub(crate) fn is_form(stored: StoreKind, fields: &[Text]) -> bool
    ensures { result ≡ is_form stored fields.now }
{
    match stored {
        StoreKind::Plain => is_plain_form(fields),
        StoreKind::Hii => is_hii_form(fields),
        StoreKind::Vpd => is_vpd_form(fields),
    }
}
