//! Words of a line, alignments and the options of a file.
ghost use Rattle.std.specs.Prelude.{◌≡◌, ◌≤◌, length};
ghost use Rattle.std.specs.Option.{option_map};
ghost use Rattle.std.specs.List.{list_all, position_or_len};
ghost use Rattle.fdf_words.specs.Words.{ends_word, word_of, after_word, after_equals, unit_of, digits_of, is_decimal, decimal_of, scaled_number, alignment_of, scaled_of, power_in, volume_alignment, stated_align, option_named, with_align, with_option, next_option, options_of, before_brace, begins_with, is_close};

use doc_types::volume::Align;
use meta_lexer::line::trim;
use meta_lexer::lookup;
use meta_lexer::numbers::number;

/// A word that states an option of a file.
#[derive(Clone, Copy, PartialEq, Eq)]
pub enum FileOption {
    Fixed,
    Checksum,
    Aligned,
}

/// The options of a file.
#[derive(Clone, Copy, PartialEq, Eq)]
pub struct Options {
    pub fixed: bool,
    pub checksum: bool,
    pub align: Align,
}

const FILE_OPTIONS: [(&[u8], FileOption); 3] = [
    (b"FIXED", FileOption::Fixed),
    (b"CHECKSUM", FileOption::Checksum),
    (b"Align", FileOption::Aligned),
];

fn ends_word(byte: u8) -> bool
    ensures { result ≡ ends_word byte }
{
    byte == b'\t' || byte == b' ' || byte == b'='
}

/// Where the first word ends.
pub fn word_end(text: &[u8]) -> usize
    ensures at { result ≡ position_or_len ends_word text.now }
    ensures within { result ≤ length text.now }
{
    for (i, byte) in text.iter().enumerate() {
        if ends_word(*byte) {
            return i;
        }
    }
    text.len()
}

/// The first word of a text, up to a blank or `=`, and what follows it.
#[tactic(auto, unfolding(crate::specs::Words::word_of, crate::specs::Words::after_word))]
pub fn first_word(text: &[u8]) -> (&[u8], &[u8])
    ensures word { result.0.now ≡ word_of text.now }
    ensures rest { result.1.now ≡ after_word text.now }
{
    let end = word_end(text);
    (&text[..end], trim(&text[end..]))
}

/// What follows `=`.
#[tactic(auto, unfolding(crate::specs::Words::after_equals))]
pub fn after_equals(text: &[u8]) -> Option<&[u8]>
    ensures { option_map (λ t. t.now) result ≡ after_equals text.now }
{
    if !text.is_empty() && text[0] == b'=' {
        Some(trim(&text[1..]))
    } else {
        None
    }
}

// A number's digits, and its unit.
fn digits_and_unit(text: &[u8]) -> (&[u8], u64)
    ensures digits { result.0.now ≡ digits_of text.now }
    ensures unit { result.1 ≡ unit_of text.now }
{
    match text {
        [digits @ .., b'K'] => (digits, 0x400),
        [digits @ .., b'M'] => (digits, 0x10_0000),
        _ => (text, 1),
    }
}

fn has_decimals(text: &[u8]) -> bool
    ensures { result ≡ list_all is_decimal text.now }
{
    text.iter().all(|byte| byte.is_ascii_digit())
}

#[tactic(auto, unfolding(crate::specs::Words::decimal_of))]
fn decimal(text: &[u8]) -> Option<u64>
    ensures { result ≡ decimal_of text.now }
{
    if has_decimals(text) {
        number(text)
    } else {
        None
    }
}

fn scaled_number(unit: u64, number: Option<u64>) -> Option<u32>
    ensures { result ≡ scaled_number unit number }
{
    match number?.checked_mul(unit) {
        Some(bytes) if bytes <= 0x8000_0000 => Some(bytes as u32),
        _ => None,
    }
}

/// The alignment that a number states, in bytes.
#[tactic(auto, unfolding(crate::specs::Words::alignment_of))]
pub fn alignment_of(text: &[u8]) -> Option<u32>
    ensures { result ≡ alignment_of text.now }
{
    let (digits, unit) = digits_and_unit(text);
    scaled_number(unit, decimal(digits))
}

#[tactic(auto, unfolding(crate::specs::Words::scaled_of))]
fn scaled_of(text: &[u8]) -> Option<u32>
    ensures { result ≡ scaled_of text.now }
{
    match text {
        [digits @ .., b'G'] => scaled_number(0x4000_0000, decimal(digits)),
        _ => alignment_of(text),
    }
}

fn power_in(bytes: Option<u32>) -> Option<u32>
    ensures { result ≡ power_in bytes }
{
    match bytes {
        Some(bytes) => {
            if bytes.is_power_of_two() {
                Some(bytes)
            } else {
                None
            }
        }
        None => None,
    }
}

/// The alignment of a volume that a number states, in bytes: a power of two.
#[tactic(auto, unfolding(crate::specs::Words::volume_alignment))]
pub fn volume_alignment(text: &[u8]) -> Option<u32>
    ensures { result ≡ volume_alignment text.now }
{
    power_in(scaled_of(text))
}

/// The number of `= number`, and what follows it.
#[tactic(auto, unfolding(crate::specs::Words::stated_align))]
pub fn stated_align(text: &[u8]) -> Option<(u32, &[u8])>
    ensures { option_map (λ p. (p.0, p.1.now)) result ≡ stated_align text.now }
{
    let text = after_equals(text)?;
    let (word, rest) = first_word(text);
    let bytes = alignment_of(word)?;
    Some((bytes, rest))
}

#[tactic(auto, unfolding(crate::specs::Words::option_named))]
fn option_named(word: &[u8]) -> Option<FileOption>
    ensures { result ≡ option_named word.now }
{
    lookup(&FILE_OPTIONS, word)
}

fn with_align(options: Options, rest: &[u8]) -> Option<(Options, &[u8])>
    ensures { option_map (λ p. (p.0, p.1.now)) result ≡ with_align options (stated_align rest.now) }
{
    let (bytes, rest) = stated_align(rest)?;
    match options.align {
        Align::Unset => Some((
            Options {
                fixed: options.fixed,
                checksum: options.checksum,
                align: Align::Bytes(bytes),
            },
            rest,
        )),
        Align::Auto | Align::Bytes(_) => None,
    }
}

fn with_fixed(options: Options) -> Options
    ensures { result ≡ record options { fixed = Rattle.std.specs.Prelude.true } }
{
    Options {
        fixed: true,
        checksum: options.checksum,
        align: options.align,
    }
}

fn with_checksum(options: Options) -> Options
    ensures { result ≡ record options { checksum = Rattle.std.specs.Prelude.true } }
{
    Options {
        fixed: options.fixed,
        checksum: true,
        align: options.align,
    }
}

fn with_option(options: Options, rest: &[u8], option: FileOption) -> Option<(Options, &[u8])>
    ensures { option_map (λ p. (p.0, p.1.now)) result
        ≡ with_option options rest.now (Rattle.std.specs.Prelude.Some option) }
{
    match option {
        FileOption::Fixed if !options.fixed => Some((with_fixed(options), rest)),
        FileOption::Checksum if !options.checksum => Some((with_checksum(options), rest)),
        FileOption::Aligned => with_align(options, rest),
        _ => None,
    }
}

#[tactic(auto, unfolding(crate::specs::Words::next_option))]
fn next_option(options: Options, text: &[u8]) -> Option<(Options, &[u8])>
    ensures { option_map (λ p. (p.0, p.1.now)) result ≡ next_option options text.now }
{
    if text.is_empty() {
        return Some((options, text));
    }
    let (word, rest) = first_word(text);
    let option = option_named(word)?;
    with_option(options, rest, option)
}

/// The options of a file, in any order, each at most once.
#[tactic(auto, unfolding(crate::specs::Words::options_of))]
pub fn options_of(text: &[u8]) -> Option<Options>
    ensures { result ≡ options_of text.now }
{
    let none = Options {
        fixed: false,
        checksum: false,
        align: Align::Unset,
    };
    let (options, text) = next_option(none, text)?;
    let (options, text) = next_option(options, text)?;
    let (options, text) = next_option(options, text)?;
    if text.is_empty() { Some(options) } else { None }
}

/// What stands before the brace at the end.
#[tactic(auto, unfolding(crate::specs::Words::before_brace))]
pub fn before_brace(text: &[u8]) -> Option<&[u8]>
    ensures { option_map (λ t. t.now) result ≡ before_brace text.now }
{
    match text {
        [front @ .., b'{'] => Some(trim(front)),
        _ => None,
    }
}

/// Whether a text begins with this byte.
pub fn begins_with(byte: u8, text: &[u8]) -> bool
    ensures { result ≡ begins_with byte text.now }
{
    !text.is_empty() && text[0] == byte
}

/// Whether a line is a closing brace.
pub fn is_close(text: &[u8]) -> bool
    ensures { result ≡ is_close text.now }
{
    text.len() == 1 && text[0] == b'}'
}
