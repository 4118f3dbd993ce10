ghost use Rattle.std.specs.Prelude.{◌≡◌, ◌<◌, ◌≤◌, ◌-◌, ◌==◌, count_by, length, MatchOption, ℕ, List, ◌++◌, ◌≢◌};
ghost use Rattle.text_lines.specs.Lines.{first_line, after_line, line_length, line_count};

/// The first line of a text, without its line feed, and what follows it.
pub fn first_line(text: &[u8]) -> (&[u8], &[u8])
    ensures line { result.0.now ≡ first_line text.now }
    ensures rest { result.1.now ≡ after_line text.now }
    ensures shorter { 0 < length text.now → length result.1.now < length text.now }
{
    let length = line_length(text);
    if length < text.len() {
        (&text[..length], &text[length + 1..])
    } else {
        (text, &text[length..])
    }
}

fn line_length(text: &[u8]) -> usize
    ensures length { result ≡ line_length text.now }
    ensures bound { result ≤ length text.now }
{
    text.iter().take_while(|byte| **byte != b'\n').count()
}

/// What follows the word at the front of the line. None exactly where the line does not begin with the word.
pub fn after_word<'a>(line: &'a [u8], word: &str) -> Option<&'a [u8]>
    ensures { MatchOption result
        ((rest : List ℕ) → line.entry.now ≢ word.now ++ rest)
        (λ rest. line.entry.now ≡ word.now ++ rest.now) }
{
    line.strip_prefix(word.as_bytes())
}

/// How many lines a text has; a last one may lack its line feed.
pub fn line_count(text: &[u8]) -> u64
    ensures { result ≡ line_count text.now }
{
    let line_feeds = line_feed_count(text) as u64;
    if text.is_empty() || text[text.len() - 1] == b'\n' {
        line_feeds
    } else {
        line_feeds + 1
    }
}

fn line_feed_count(text: &[u8]) -> usize
    ensures count { result ≡ count_by (λ b. b == 10) text.now }
    ensures bound { result ≤ length text.now }
{
    text.iter().filter(|byte| **byte == b'\n').count()
}
