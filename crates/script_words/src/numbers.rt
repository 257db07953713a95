//! Numbers as text.
ghost use Rattle.std.specs.Prelude.{◌≡◌};
ghost use Rattle.script_words.specs.Numbers.{number_of};

/// The value of one to ten digits, if it fits.
pub fn number_of(word: &[u8]) -> Option<u32>
    ensures { result ≡ number_of word.now }
{
    if word.is_empty() || 10 < word.len() {
        return None;
    }
    let mut value: u64 = 0;
    for b in word {
        if !b.is_ascii_digit() {
            return None;
        }
        value = 10 * value + u64::from(*b - b'0');
    }
    if value <= 4_294_967_295 {
        Some(value as u32)
    } else {
        None
    }
}
