//! The options of a rule's sections.
ghost use Rattle.std.specs.Prelude.{◌≡◌};
ghost use Rattle.fdf_words.specs.Words.{after_word, after_equals};
ghost use Rattle.fdf_lines.specs.Rules.{rule_option, rule_align, with_optional, with_rule_align, with_number, first_number, with_rule_option, next_rule, rule_parts};

use doc_types::volume::Align;
use fdf_words::words::{after_equals, alignment_of, first_word};
use meta_lexer::lookup;
use meta_lexer::words::same_word;

/// A word that states an option of a rule's section.
#[derive(Clone, Copy, PartialEq, Eq)]
pub enum RuleOption {
    Optional,
    Aligned,
    BuildNumber,
}

/// The options of a rule's section: whether a build number is stated, and whether an option stands
/// twice or isn't of its form.
#[derive(Clone, Copy, PartialEq, Eq)]
pub struct RuleOptions {
    pub optional: bool,
    pub align: Align,
    pub numbered: bool,
    pub wrong: bool,
}

const RULE_OPTIONS: [(&[u8], RuleOption); 3] = [
    (b"Optional", RuleOption::Optional),
    (b"Align", RuleOption::Aligned),
    (b"BUILD_NUM", RuleOption::BuildNumber),
];

#[tactic(auto, unfolding(crate::specs::Rules::rule_option))]
fn rule_option(word: &[u8]) -> Option<RuleOption>
    ensures { result ≡ rule_option word.now }
{
    lookup(&RULE_OPTIONS, word)
}

#[tactic(auto, unfolding(crate::specs::Rules::rule_align))]
fn rule_align(word: &[u8]) -> Option<Align>
    ensures { result ≡ rule_align word.now }
{
    if same_word(word, b"Auto".as_slice()) {
        return Some(Align::Auto);
    }
    match alignment_of(word) {
        Some(bytes) => Some(Align::Bytes(bytes)),
        None => None,
    }
}

fn with_optional(options: RuleOptions) -> RuleOptions
    ensures { result ≡ with_optional options }
{
    RuleOptions {
        optional: true,
        align: options.align,
        numbered: options.numbered,
        wrong: options.wrong || options.optional,
    }
}

fn with_wrong(options: RuleOptions) -> RuleOptions
    ensures { result ≡ record options { wrong = Rattle.std.specs.Prelude.true } }
{
    RuleOptions {
        optional: options.optional,
        align: options.align,
        numbered: options.numbered,
        wrong: true,
    }
}

fn with_rule_align(options: RuleOptions, align: Option<Align>) -> RuleOptions
    ensures { result ≡ with_rule_align options align }
{
    let Some(align) = align else {
        return with_wrong(options);
    };
    match options.align {
        Align::Unset => RuleOptions {
            optional: options.optional,
            align,
            numbered: options.numbered,
            wrong: options.wrong,
        },
        Align::Auto | Align::Bytes(_) => with_wrong(options),
    }
}

fn with_number(options: RuleOptions) -> RuleOptions
    ensures { result ≡ with_number options }
{
    RuleOptions {
        optional: options.optional,
        align: options.align,
        numbered: true,
        wrong: options.wrong || options.numbered,
    }
}

fn first_number<'a>(options: RuleOptions, number: &'a [u8], word: &'a [u8]) -> &'a [u8]
    ensures { result.now ≡ first_number options number.now word.now }
{
    if options.numbered { number } else { word }
}

fn with_rule_option<'a>(
    options: RuleOptions,
    number: &'a [u8],
    text: &'a [u8],
    rest: &'a [u8],
    option: Option<RuleOption>,
) -> (RuleOptions, &'a [u8], &'a [u8])
    requires { rest.now ≡ after_word text.now }
    ensures { (result.0, result.1.now, result.2.now)
        ≡ with_rule_option options number.now text.now option (after_equals rest.now) }
{
    match (option, after_equals(rest)) {
        (Some(RuleOption::Optional), _) => (with_optional(options), number, rest),
        (Some(RuleOption::Aligned), Some(value)) => {
            let (word, rest) = first_word(value);
            (with_rule_align(options, rule_align(word)), number, rest)
        }
        (Some(RuleOption::BuildNumber), Some(value)) => {
            let (word, rest) = first_word(value);
            (
                with_number(options),
                first_number(options, number, word),
                rest,
            )
        }
        (Some(RuleOption::Aligned), None) => (options, number, text),
        (Some(RuleOption::BuildNumber), None) => (options, number, text),
        (None, _) => (options, number, text),
    }
}

#[tactic(auto, unfolding(crate::specs::Rules::next_rule))]
fn next_rule<'a>(
    options: RuleOptions,
    number: &'a [u8],
    text: &'a [u8],
) -> (RuleOptions, &'a [u8], &'a [u8])
    ensures { (result.0, result.1.now, result.2.now) ≡ next_rule options number.now text.now }
{
    let (word, rest) = first_word(text);
    with_rule_option(options, number, text, rest, rule_option(word))
}

/// The options of a section in any order, the build number as it is written, and what stands behind
/// them. Of two build numbers the first is given.
#[tactic(auto, unfolding(crate::specs::Rules::rule_parts))]
pub fn rule_parts(text: &[u8]) -> (RuleOptions, &[u8], &[u8])
    ensures { (result.0, result.1.now, result.2.now) ≡ rule_parts text.now }
{
    let none = RuleOptions {
        optional: false,
        align: Align::Unset,
        numbered: false,
        wrong: false,
    };
    let (options, number, text) = next_rule(none, &text[..0], text);
    let (options, number, text) = next_rule(options, number, text);
    let (options, number, text) = next_rule(options, number, text);
    next_rule(options, number, text)
}
