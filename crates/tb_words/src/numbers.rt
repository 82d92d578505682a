//! Words that are numbers, and the byte between fields.
ghost use Rattle.std.specs.Prelude.{◌≡◌, MatchOption};
ghost use Rattle.tb_words.specs.Numbers.{byte_between, number_of, separator_in, slice_of, IsSlice, IsThreads, IsWidth};

fn byte_between(byte: u8) -> Option<u8>
    ensures { result ≡ byte_between byte }
{
    match byte {
        b'"' | b'\n' | b'\r' => None,
        _ => Some(byte),
    }
}

fn separator_in(word: &[u8]) -> Option<u8>
    ensures { result ≡ separator_in word.now }
{
    match word.len() {
        1 => byte_between(word[0]),
        2 if word[0] == b'\\' && word[1] == b't' => Some(b'\t'),
        _ => None,
    }
}

/// The byte between two fields that a word means: a character of one byte that is neither a quote nor ends a line; `\t` stands for a tab.
pub fn separator_of(word: &str) -> Option<u8>
    ensures { result ≡ separator_in word.now }
{
    separator_in(word.as_bytes())
}

/// The width that a word means: a whole number from 1 on that fits.
pub fn width_of(word: &str) -> Option<usize>
    ensures { MatchOption result (¬ IsWidth word.now)
        (λ n. IsWidth word.now × (n ≡ number_of word.now)) }
{
    match word.parse::<usize>() {
        Ok(width) if width > 0 => Some(width),
        _ => None,
    }
}

/// The number of threads that a word means: a whole number from 1 to 1,024.
pub fn threads_of(word: &str) -> Option<u32>
    ensures { MatchOption result (¬ IsThreads word.now)
        (λ n. IsThreads word.now × (n ≡ number_of word.now)) }
{
    match word.parse::<u32>() {
        Ok(count) if 1 <= count && count <= 1024 => Some(count),
        _ => None,
    }
}

/// The slice that a word means: two whole numbers that fit, round its first comma.
pub fn slice_of(word: &str) -> Option<(i64, usize)>
    ensures { MatchOption result (¬ IsSlice word.now)
        (λ s. IsSlice word.now × (s ≡ slice_of word.now)) }
{
    let (offset, length) = word.split_once(',')?;
    let offset = offset.parse::<i64>().ok()?;
    let length = length.parse::<usize>().ok()?;
    Some((offset, length))
}
