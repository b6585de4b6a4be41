//! The path below which the outputs of a module stand.
ghost use Rattle.std.specs.Prelude.{◌≡◌, ◌≤◌, ◌==◌, ◌-◌, length};
ghost use Rattle.std.specs.List.{list_all};
ghost use Rattle.step_answers.specs.Stems.{size_to, stem_of};

// How many bytes of a text stand up to and with the last of a kind.
fn size_to(byte: u8, text: &[u8]) -> usize
    ensures size { result ≡ size_to byte text.now }
    ensures within { result ≤ length text.now }
{
    let mut n = text.len();
    while n > 0 && text[n - 1] != byte {
        n -= 1;
    }
    n
}

// How many bytes stand before the last dot of a name.
fn front_size(name: &[u8]) -> usize
    ensures size { result ≡ size_to 46 name.now - 1 }
    ensures within { result ≤ length name.now }
{
    let size = size_to(b'.', name);
    if size == 0 { 0 } else { size - 1 }
}

fn has_dots_alone(text: &[u8]) -> bool
    ensures { result ≡ list_all (λ b. b == 46) text.now }
{
    text.iter().all(|byte| *byte == b'.')
}

/// A path without the extension of its last segment.
#[tactic(auto, unfolding(crate::specs::Stems::stem_of))]
pub fn stem_of(path: &[u8]) -> &[u8]
    ensures { result.now ≡ stem_of path.now }
{
    let start = size_to(b'/', path);
    let (_, name) = path.split_at(start);
    let front = front_size(name);
    if has_dots_alone(&name[..front]) {
        return path;
    }
    &path[..start + front]
}
