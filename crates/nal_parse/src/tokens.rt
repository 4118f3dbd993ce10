ghost use Rattle.std.specs.Prelude.{◌≡◌, ◌↔◌, ◌≢◌, ◌<◌, ◌^◌, ◌≤◌, ◌+◌, ◌*◌, ◌-◌, length, SomeIff, IsTrue};
ghost use Rattle.std.specs.List.{prefix_len, list_all};
ghost use Rattle.nal_term.specs.Names.{is_word, is_word_byte, is_digit};
ghost use Rattle.nal_parse.specs.Tokens.{keyword_of, is_blank, run_length, quoted_length, is_number, value_of_digits};

use nal_term::{is_letter, is_name, is_text, is_word_byte};

/// How many bytes a name may have.
const MOST_NAME: usize = 64;

/// The reserved words.
#[derive(Clone, Copy, Debug, PartialEq, Eq)]
pub enum Keyword {
    Says,
    SpeaksFor,
    On,
    And,
    Or,
    Not,
    Forall,
    Exists,
    True,
    False,
}

/// The quantifiers.
#[derive(Clone, Copy, Debug, PartialEq, Eq)]
pub enum Quantifier {
    Universal,
    Existential,
}

/// A token of a formula's text. `docs/FORMATS.md`, "Tokens", states the rules.
#[derive(Clone, Copy, Debug)]
pub enum Token<'a> {
    Keyword(Keyword),
    Name(&'a [u8]),
    Number(u64),
    Variable(&'a [u8]),
    Quoted(&'a [u8]),
    Open,
    Close,
    Comma,
    Dot,
    Colon,
    Equal,
    Less,
    AtMost,
    Arrow,
    End,
    BadName,
    BadNumber,
    BadText,
    Unknown,
}

impl<'a> Token<'a> {
    ghost use Rattle.nal_parse.specs.Tokens.{lexeme_of, keyword_of, word_lexeme, number_lexeme, variable_lexeme, cut_quoted, cut_sign, cut, next_cut, is_number};
    ghost use Rattle.nal_parse.specs.Tokens as lexeme;
    ghost use Rattle.nal_parse.specs.Inner.Reading.{IsWellFormed, goes_on};

    /// The next token of a text, and what follows it.
    #[inline(always)]
    pub fn next(text: &'a [u8]) -> (Token<'a>, &'a [u8])
        ensures cut { (lexeme_of result.0, result.1.now) ≡ next_cut text.now }
        ensures form { IsWellFormed (lexeme_of result.0) }
        ensures bound { length result.1.now ≤ length text.now }
        ensures shorter { lexeme_of result.0 ≢ lexeme.end → length result.1.now < length text.now }
    {
        let blanks = blank_length(text);
        Token::first(&text[blanks..])
    }

    /// Whether the token is this reserved word.
    pub fn is(&self, keyword: Keyword) -> bool
        ensures { IsTrue result ↔ (lexeme_of self.now ≡ lexeme.keyword keyword) }
    {
        match self {
            Token::Keyword(other) => *other == keyword,
            _ => false,
        }
    }

    /// Whether a term goes on with the token: as a longer one, or in a statement of it.
    pub fn goes_on(&self) -> bool
        ensures { result ≡ goes_on (lexeme_of self.now) }
    {
        matches!(
            self,
            Token::Dot
                | Token::Equal
                | Token::Less
                | Token::AtMost
                | Token::Keyword(Keyword::Says)
                | Token::Keyword(Keyword::SpeaksFor)
        )
    }

    #[inline(always)]
    fn first(text: &'a [u8]) -> (Token<'a>, &'a [u8])
        ensures cut { (lexeme_of result.0, result.1.now) ≡ cut text.now }
        ensures form { IsWellFormed (lexeme_of result.0) }
        ensures bound { length result.1.now ≤ length text.now }
        ensures shorter { lexeme_of result.0 ≢ lexeme.end → length result.1.now < length text.now }
    {
        match text.split_first() {
            None => (Token::End, text),
            Some((first, rest)) => {
                if is_letter(*first) {
                    let (word, rest) = text.split_at(run_length(text));
                    (Token::of_word(word), rest)
                } else if first.is_ascii_digit() {
                    let (run, rest) = text.split_at(run_length(text));
                    (Token::of_number(run), rest)
                } else if *first == b'?' {
                    let (word, rest) = rest.split_at(run_length(rest));
                    (Token::of_variable(word), rest)
                } else if *first == b'"' {
                    Token::quoted(rest)
                } else {
                    Token::sign(*first, rest)
                }
            }
        }
    }

    // The bytes are known to be a word, so that a name is told by its length.
    #[tactic(auto, using(crate::proofs::Words::unreserved_name))]
    fn of_word(word: &'a [u8]) -> Token<'a>
        requires { IsTrue (is_word word.now) }
        ensures lexeme { lexeme_of result ≡ word_lexeme word.now }
        ensures form { IsWellFormed (lexeme_of result) }
    {
        match reserved_word(word) {
            Some(keyword) => Token::Keyword(keyword),
            None => {
                if word.len() <= MOST_NAME {
                    Token::Name(word)
                } else {
                    Token::BadName
                }
            }
        }
    }

    fn of_number(run: &'a [u8]) -> Token<'a>
        ensures { lexeme_of result ≡ number_lexeme run.now }
    {
        match number_of_digits(run) {
            Some(number) => Token::Number(number),
            None => Token::BadNumber,
        }
    }

    fn of_variable(word: &'a [u8]) -> Token<'a>
        ensures lexeme { lexeme_of result ≡ variable_lexeme word.now }
        ensures form { IsWellFormed (lexeme_of result) }
    {
        if is_name(word) {
            Token::Variable(word)
        } else {
            Token::BadName
        }
    }

    fn quoted(text: &'a [u8]) -> (Token<'a>, &'a [u8])
        ensures { (lexeme_of result.0, result.1.now) ≡ cut_quoted text.now }
    {
        let length = quoted_length(text);
        if length < text.len() && is_text(&text[..length]) {
            (Token::Quoted(&text[..length]), &text[length + 1..])
        } else {
            (Token::BadText, text)
        }
    }

    fn sign(first: u8, rest: &'a [u8]) -> (Token<'a>, &'a [u8])
        ensures { (lexeme_of result.0, result.1.now) ≡ cut_sign first rest.now }
    {
        match (first, rest.first()) {
            (b'(', _) => (Token::Open, rest),
            (b')', _) => (Token::Close, rest),
            (b',', _) => (Token::Comma, rest),
            (b'.', _) => (Token::Dot, rest),
            (b':', _) => (Token::Colon, rest),
            (b'<', Some(b'=')) => (Token::AtMost, &rest[1..]),
            (b'<', _) => (Token::Less, rest),
            (b'=', Some(b'>')) => (Token::Arrow, &rest[1..]),
            (b'=', _) => (Token::Equal, rest),
            _ => (Token::Unknown, rest),
        }
    }
}

/// The reserved word that these bytes are.
fn reserved_word(word: &[u8]) -> Option<Keyword>
    ensures { result ≡ keyword_of word.now }
{
    if word == "says".as_bytes() {
        return Some(Keyword::Says);
    }
    if word == "speaksfor".as_bytes() {
        return Some(Keyword::SpeaksFor);
    }
    if word == "on".as_bytes() {
        return Some(Keyword::On);
    }
    if word == "and".as_bytes() {
        return Some(Keyword::And);
    }
    if word == "or".as_bytes() {
        return Some(Keyword::Or);
    }
    if word == "not".as_bytes() {
        return Some(Keyword::Not);
    }
    if word == "forall".as_bytes() {
        return Some(Keyword::Forall);
    }
    if word == "exists".as_bytes() {
        return Some(Keyword::Exists);
    }
    if word == "true".as_bytes() {
        return Some(Keyword::True);
    }
    if word == "false".as_bytes() {
        return Some(Keyword::False);
    }
    None
}

/// How many blanks the text begins with.
pub fn blank_length(text: &[u8]) -> usize
    ensures length { result ≡ prefix_len is_blank text.now }
    ensures bound { result ≤ length text.now }
{
    text.iter()
        .take_while(|byte| **byte == b' ' || **byte == b'\t')
        .count()
}

/// How many letters, digits and `_` the text begins with.
pub fn run_length(text: &[u8]) -> usize
    ensures length { result ≡ run_length text.now }
    ensures bound { result ≤ length text.now }
{
    text.iter().take_while(|byte| is_word_byte(**byte)).count()
}

fn quoted_length(text: &[u8]) -> usize
    ensures length { result ≡ quoted_length text.now }
    ensures bound { result ≤ length text.now }
{
    text.iter().take_while(|byte| **byte != b'"').count()
}

/// The number that these bytes write in decimal digits, where they have no leading zero and it fits 64 bits; None exactly where they
/// write none. `docs/FORMATS.md`, "Tokens", states the rule.
pub fn number_of_digits(run: &[u8]) -> Option<u64>
    ensures { SomeIff result (IsTrue (is_number run.now)) (value_of_digits run.now) }
{
    let first = *run.first()?;
    if !are_digits(run) || (first == b'0' && run.len() != 1) {
        return None;
    }
    value_of_digits(run)
}

fn are_digits(run: &[u8]) -> bool
    ensures { result ≡ list_all is_digit run.now }
{
    run.iter().all(|byte| byte.is_ascii_digit())
}

#[tactic(auto, using(crate::proofs::Digits::value_after_ge))]
fn value_of_digits(digits: &[u8]) -> Option<u64>
    requires { IsTrue (list_all is_digit digits.now) }
    ensures { SomeIff result (value_of_digits digits.now < 2 ^ 64) (value_of_digits digits.now) }
{
    let mut rest = digits;
    let mut value = 0u64;
    loop {
        match rest.split_first() {
            None => return Some(value),
            Some((first, others)) => {
                match append_digit(value, *first) {
                    Some(longer) => value = longer,
                    None => return None,
                }
                rest = others;
            }
        }
    }
}

fn append_digit(value: u64, digit: u8) -> Option<u64>
    requires { IsTrue (is_digit digit) }
    ensures { SomeIff result (value * 10 + (digit - 48) < 2 ^ 64) (value * 10 + (digit - 48)) }
{
    match value.checked_mul(10) {
        Some(shifted) => shifted.checked_add(u64::from(digit - b'0')),
        None => None,
    }
}
