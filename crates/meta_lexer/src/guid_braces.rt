//! GUIDs as a DEC file has them: numbers in braces.
ghost use Rattle.std.specs.Prelude.{◌≡◌, ◌<◌, IfSome};
ghost use Rattle.std.specs.Option.{option_map};
ghost use Rattle.meta_lexer.specs.GuidBraces.{number_below, first_below, in_braces, bytes_listed, guid_of_fields, guid_of_braces};

use crate::head::strip_delimiters;
use crate::line::trim;
use crate::numbers::number;
use crate::words::split_once;
use build_base::Guid;

#[tactic(auto, unfolding(crate::specs::GuidBraces::number_below))]
fn number_below(limit: u64, text: &[u8]) -> Option<u64>
    ensures number { result ≡ number_below limit text.now }
    ensures below { IfSome result (λ n. n < limit) }
{
    match number(trim(text)) {
        Some(number) => { if number < limit { Some(number) } else { None } }
        None => None,
    }
}

// The number before the first comma, and what follows the comma.
#[tactic(auto, unfolding(crate::specs::GuidBraces::first_below))]
fn first_below(limit: u64, text: &[u8]) -> Option<(u64, &[u8])>
    ensures number { option_map (λ p. (p.0, p.1.now)) result ≡ first_below limit text.now }
    ensures below { IfSome result (λ p. p.0 < limit) }
{
    let (front, rest) = split_once(b',', text)?;
    let number = number_below(limit, front)?;
    Some((number, rest))
}

#[tactic(auto, unfolding(crate::specs::GuidBraces::in_braces))]
fn in_braces(text: &[u8]) -> Option<&[u8]>
    ensures { option_map (λ t. t.now) result ≡ in_braces text.now }
{
    strip_delimiters(b'{', b'}', trim(text))
}

#[tactic(auto, unfolding(crate::specs::GuidBraces::bytes_listed))]
fn eight_bytes(text: &[u8]) -> Option<[u8; 8]>
    ensures { result ≡ bytes_listed 8 text.now }
{
    let (a, text) = first_below(256, text)?;
    let (b, text) = first_below(256, text)?;
    let (c, text) = first_below(256, text)?;
    let (d, text) = first_below(256, text)?;
    let (e, text) = first_below(256, text)?;
    let (f, text) = first_below(256, text)?;
    let (g, text) = first_below(256, text)?;
    let h = number_below(256, text)?;
    Some([
        a as u8, b as u8, c as u8, d as u8, e as u8, f as u8, g as u8, h as u8,
    ])
}

fn guid_of_fields(a: u32, b: u16, c: u16, last: [u8; 8]) -> Guid
    ensures { result ≡ guid_of_fields a b c last }
{
    let a = a.to_le_bytes();
    let b = b.to_le_bytes();
    let c = c.to_le_bytes();
    Guid([
        a[0], a[1], a[2], a[3], b[0], b[1], c[0], c[1], last[0], last[1], last[2], last[3],
        last[4], last[5], last[6], last[7],
    ])
}

/// The GUID of `{ u32, u16, u16, { eight bytes } }`, each a plain number, blanks around each part
/// dropped (EDK II DEC specification, values of GUIDs).
#[tactic(auto, unfolding(crate::specs::GuidBraces::guid_of_braces))]
pub fn guid_of_braces(text: &[u8]) -> Option<Guid>
    ensures { result ≡ guid_of_braces text.now }
{
    let fields = in_braces(text)?;
    let (a, fields) = first_below(1 << 32, fields)?;
    let (b, fields) = first_below(1 << 16, fields)?;
    let (c, fields) = first_below(1 << 16, fields)?;
    let last = eight_bytes(in_braces(fields)?)?;
    Some(guid_of_fields(a as u32, b as u16, c as u16, last))
}
