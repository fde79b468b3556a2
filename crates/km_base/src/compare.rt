//! Comparisons of a word with bytes that are known.

ghost use Rattle.std.specs.Prelude.{◌≡◌, bytes_eq, option_map};
ghost use Rattle.km_base.specs.Prefix.{behind_prefix, bytes_of};

/// What is left of a word behind these bytes, if it begins with them. Each byte is looked at once.
#[inline(always)]
pub fn behind<'a>(word: &'a [u8], prefix: &[u8]) -> Option<&'a [u8]>
    ensures { option_map bytes_of result ≡ behind_prefix prefix.now word.now }
{
    if word.len() < prefix.len() {
        return None;
    }
    for (i, c) in prefix.iter().enumerate() {
        if word[i] != *c {
            return None;
        }
    }
    Some(&word[prefix.len()..])
}

/// Whether a word is this one. Each byte is looked at once, and none where the lengths differ, so that words of
/// different lengths can be tried in turn.
#[inline(always)]
pub fn is(word: &[u8], keyword: &[u8]) -> bool
    ensures { result ≡ bytes_eq keyword.now word.now }
{
    word.len() == keyword.len() && behind(word, keyword).is_some()
}
