ghost use Rattle.std.specs.Prelude.{◌≡◌, ◌↔◌, IfOk};
ghost use Rattle.std.specs.List.{list_all};
ghost use Rattle.nal_term.specs.Names.{IsName, IsText, is_letter, is_word_byte, is_reserved, is_word, is_name, is_text_byte, is_text};
ghost use Rattle.nal_term.specs.declared.names.NameError.TheVariants.{Bad};

use std::alloc::{AllocError, Global};
use std::marker::Model;

/// Why no name or text was made of some bytes.
#[derive(Clone, Copy, Debug, PartialEq, Eq)]
pub enum NameError {
    /// The bytes are not of the form that is due.
    Bad,
    /// There was no memory for the copy.
    Memory,
}

/// A name: a letter, then letters, digits and `_`, at most 64 bytes, and no reserved word.
/// Contracts see the list of its bytes. `docs/FORMATS.md`, "Tokens", states the rule.
#[derive(Drop)]
pub struct Name {
    bytes: Vec<u8>,
}

impl Model for Name {
    ghost use Rattle.std.specs.Prelude.{ℕ, List};
    ghost use Rattle.nal_term.specs.Names.{IsName};

    ghost Value = { List ℕ };

    ghost view = { λ n. n.bytes.items };

    ghost invariant = { λ n. IsName n.bytes.items };
}

/// What stands in a quoted text: at most 256 bytes from 0x20 to 0x7E without `"`, `;` and `\`.
/// Contracts see the list of its bytes. `docs/FORMATS.md`, "Tokens", states the rule.
#[derive(Drop)]
pub struct Text {
    bytes: Vec<u8>,
}

impl Model for Text {
    ghost use Rattle.std.specs.Prelude.{ℕ, List};
    ghost use Rattle.nal_term.specs.Names.{IsText};

    ghost Value = { List ℕ };

    ghost view = { λ t. t.bytes.items };

    ghost invariant = { λ t. IsText t.bytes.items };
}

impl Name {
    /// The name of these bytes, copied. `Bad` exactly where they are no name.
    pub fn of(alloc: Global, bytes: &[u8]) -> Result<Name, NameError>
        ensures made { IfOk result (λ name. name ≡ bytes.now) }
        ensures name { IfOk result (λ _. IsName bytes.now) }
        ensures bad { (result ≡ Err Bad) ↔ ¬ IsName bytes.now }
    {
        if !is_name(bytes) {
            return Err(NameError::Bad);
        }
        match Name::copy_of(alloc, bytes) {
            Ok(name) => Ok(name),
            Err(AllocError) => Err(NameError::Memory),
        }
    }

    /// The name of these bytes, which are one, copied. An `Err` says that there was no memory for it.
    pub fn copy_of(alloc: Global, bytes: &[u8]) -> Result<Name, AllocError>
        requires { IsName bytes.now }
        ensures { IfOk result (λ name. name ≡ bytes.now) }
    {
        let bytes = Vec::from_slice(alloc, bytes)?;
        Ok(Name { bytes })
    }

    /// A copy of the name. An `Err` says that there was no memory for it.
    pub fn copy(&self, alloc: Global) -> Result<Name, AllocError>
        ensures { IfOk result (λ copy. copy ≡ self.now) }
    {
        Name::copy_of(alloc, self.as_slice())
    }

    /// The bytes of the name.
    pub fn as_slice(&self) -> &[u8]
        ensures bytes { result.now ≡ self.now }
        ensures name { IsName result.now }
    {
        self.bytes.as_slice()
    }
}

impl Text {
    /// The text of these bytes, copied. `Bad` exactly where a quoted text cannot hold them.
    pub fn of(alloc: Global, bytes: &[u8]) -> Result<Text, NameError>
        ensures made { IfOk result (λ text. text ≡ bytes.now) }
        ensures text { IfOk result (λ _. IsText bytes.now) }
        ensures bad { (result ≡ Err Bad) ↔ ¬ IsText bytes.now }
    {
        if !is_text(bytes) {
            return Err(NameError::Bad);
        }
        match Text::copy_of(alloc, bytes) {
            Ok(text) => Ok(text),
            Err(AllocError) => Err(NameError::Memory),
        }
    }

    /// The text of these bytes, which a quoted text can hold, copied. An `Err` says that there was no memory for it.
    pub fn copy_of(alloc: Global, bytes: &[u8]) -> Result<Text, AllocError>
        requires { IsText bytes.now }
        ensures { IfOk result (λ text. text ≡ bytes.now) }
    {
        let bytes = Vec::from_slice(alloc, bytes)?;
        Ok(Text { bytes })
    }

    /// A copy of the text. An `Err` says that there was no memory for it.
    pub fn copy(&self, alloc: Global) -> Result<Text, AllocError>
        ensures { IfOk result (λ copy. copy ≡ self.now) }
    {
        Text::copy_of(alloc, self.as_slice())
    }

    /// The bytes of the text, without its quotation marks.
    pub fn as_slice(&self) -> &[u8]
        ensures bytes { result.now ≡ self.now }
        ensures text { IsText result.now }
    {
        self.bytes.as_slice()
    }
}

/// Whether the byte is a letter.
pub const fn is_letter(byte: u8) -> bool
    ensures { result ≡ is_letter byte }
{
    byte.is_ascii_alphabetic()
}

/// Whether the byte may stand in a word after its first letter.
pub const fn is_word_byte(byte: u8) -> bool
    ensures { result ≡ is_word_byte byte }
{
    is_letter(byte) || byte.is_ascii_digit() || byte == b'_'
}

/// Whether the word is reserved, and so names nothing.
pub fn is_reserved(word: &[u8]) -> bool
    ensures { result ≡ is_reserved word.now }
{
    word == "says".as_bytes()
        || word == "speaksfor".as_bytes()
        || word == "on".as_bytes()
        || word == "and".as_bytes()
        || word == "or".as_bytes()
        || word == "not".as_bytes()
        || word == "forall".as_bytes()
        || word == "exists".as_bytes()
        || word == "true".as_bytes()
        || word == "false".as_bytes()
}

/// Whether the bytes are a name.
pub fn is_name(bytes: &[u8]) -> bool
    ensures { result ≡ is_name bytes.now }
{
    is_word(bytes) && bytes.len() <= 64 && !is_reserved(bytes)
}

fn is_word(bytes: &[u8]) -> bool
    ensures { result ≡ is_word bytes.now }
{
    match bytes.split_first() {
        None => false,
        Some((first, rest)) => is_letter(*first) && are_word_bytes(rest),
    }
}

fn are_word_bytes(bytes: &[u8]) -> bool
    ensures { result ≡ list_all is_word_byte bytes.now }
{
    bytes.iter().all(|byte| is_word_byte(*byte))
}

/// Whether the bytes are those of a quoted text.
pub fn is_text(bytes: &[u8]) -> bool
    ensures { result ≡ is_text bytes.now }
{
    are_text_bytes(bytes) && bytes.len() <= 256
}

fn are_text_bytes(bytes: &[u8]) -> bool
    ensures { result ≡ list_all is_text_byte bytes.now }
{
    bytes.iter().all(|byte| is_text_byte(*byte))
}

const fn is_text_byte(byte: u8) -> bool
    ensures { result ≡ is_text_byte byte }
{
    matches!(byte, b' '..=b'~') && byte != b'"' && byte != b';' && byte != b'\\'
}
