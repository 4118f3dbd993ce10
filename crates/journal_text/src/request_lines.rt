ghost use Rattle.std.specs.Prelude.{◌≡◌, ◌≢◌, ◌∷◌, ℕ, List, IfErr, IfOk, MatchOption};
ghost use Rattle.std.specs.Fmt.{decimal};
ghost use Rattle.nal_term.specs.Names.{IsName};
ghost use Rattle.nal_term.specs.Secrets.{IsSecret};
ghost use Rattle.session_wire.specs.declared.requests.Request.{Request};
ghost use Rattle.journal_text.specs.RequestLines.{IsNumber64, IsOneWord, IsRequestLine, IsRequestText, OneRequest};
ghost use Rattle.journal_text.specs.Inner.RequestForms.{HasNoSpace, HasParts, cut, form_named, word_of};

use nal_term::{Name, NameError, Secret};
use nx_io::Bytes;
use session_wire::Request;
use std::alloc::{AllocError, Global};
use text_lines::{after_word, read_number};

/// How many bytes the line of a request may have.
const MOST_BYTES: usize = 33_700;

/// Why a line was not read.
#[derive(Clone, Copy, Debug, PartialEq, Eq)]
pub enum LineError {
    /// The line has none of the forms, or more than 33,700 bytes.
    Bad,
    /// There was no memory for the request.
    Memory,
}

/// The forms of a request's line, each with a first word of its own.
#[derive(Clone, Copy, Debug, PartialEq, Eq)]
enum Form {
    Hello,
    Say,
    Transfer,
    Delete,
    NewObject,
    SetGoal,
    ClearGoal,
    SetProof,
    ClearProof,
    Bind,
    Unbind,
    Call,
    See,
}

const FORMS: [Form; 13] = [
    Form::Hello,
    Form::Say,
    Form::Transfer,
    Form::Delete,
    Form::NewObject,
    Form::SetGoal,
    Form::ClearGoal,
    Form::SetProof,
    Form::ClearProof,
    Form::Bind,
    Form::Unbind,
    Form::Call,
    Form::See,
];

/// Reads the line of a request, without its line feed. Ok exactly where the line is that of a request; no line is that of
/// two. `docs/FORMATS.md`, "Request lines", states the forms.
pub fn read_request(alloc: Global, line: &[u8]) -> Result<Request, LineError>
    ensures ok { IfOk result (IsRequestLine line.now) }
    ensures only { IfOk result (λ request. (other : Request) → IsRequestLine line.now other → other ≡ request) }
    ensures bad { result ≡ Err LineError.Bad → (request : Request) → ¬ IsRequestLine line.now request }
{
    if line.len() > MOST_BYTES {
        return Err(LineError::Bad);
    }
    read_request_text(alloc, line)
}

/// Reads the text of a request, of any length: what stands in an entry's line after session and name, too. Ok exactly
/// where the bytes are the text of a request; none are that of two.
pub(crate) fn read_request_text(alloc: Global, text: &[u8]) -> Result<Request, LineError>
    ensures ok { IfOk result (IsRequestText text.now) }
    ensures only { IfOk result (λ request. (other : Request) → IsRequestText text.now other → other ≡ request) }
    ensures bad { result ≡ Err LineError.Bad → (request : Request) → ¬ IsRequestText text.now request }
{
    let Some((word, parts)) = cut_at_space(text) else {
        return Err(LineError::Bad);
    };
    match Form::of_word(word) {
        Some(form) => read_parts(alloc, form, parts),
        None => Err(LineError::Bad),
    }
}

/// No bytes are the text of two requests. The call does nothing.
#[tactic(auto, using(crate::proofs::OneRequest::one_request))]
pub fn lines_tell_one_request()
    ensures { OneRequest }
{}

impl Form {
    /// The form whose lines begin with this word.
    #[tactic(auto, unfolding(crate::specs::Inner::RequestForms::form_named))]
    fn of_word(word: &[u8]) -> Option<Form>
        ensures { result ≡ form_named word.now }
    {
        FORMS
            .iter()
            .copied()
            .find(|form| form.word().as_bytes() == word)
    }

    /// The word that the lines of this form begin with.
    fn word(self) -> &'static str
        ensures { result.now ≡ word_of self }
    {
        match self {
            Form::Hello => "hello",
            Form::Say => "say",
            Form::Transfer => "transfer",
            Form::Delete => "delete",
            Form::NewObject => "object",
            Form::SetGoal => "goal",
            Form::ClearGoal => "nogoal",
            Form::SetProof => "proof",
            Form::ClearProof => "noproof",
            Form::Bind => "bind",
            Form::Unbind => "unbind",
            Form::Call => "call",
            Form::See => "see",
        }
    }
}

/// The request of this form with these parts.
fn read_parts(alloc: Global, form: Form, parts: &[u8]) -> Result<Request, LineError>
    ensures ok { IfOk result (HasParts form parts.now) }
    ensures bad { result ≡ Err LineError.Bad → (request : Request) → ¬ HasParts form parts.now request }
{
    match form {
        Form::Hello => {
            let (name, secret) = name_and_secret(alloc, parts)?;
            Ok(Request::Hello { name, secret })
        }
        Form::Say => {
            let (principal, formula) = word_and_text(alloc, parts)?;
            Ok(Request::Say { principal, formula })
        }
        Form::Transfer => {
            let (number, to) = number_and_name(alloc, parts)?;
            Ok(Request::Transfer { number, to })
        }
        Form::Delete => {
            let number = number(parts)?;
            Ok(Request::Delete { number })
        }
        Form::NewObject => {
            let name = name(alloc, parts)?;
            Ok(Request::NewObject { name })
        }
        Form::SetGoal => {
            let (op, object, formula) = place_and_text(alloc, parts)?;
            Ok(Request::SetGoal {
                op,
                object,
                formula,
            })
        }
        Form::ClearGoal => {
            let (op, object) = place(alloc, parts)?;
            Ok(Request::ClearGoal { op, object })
        }
        Form::SetProof => {
            let (op, object, proof) = place_and_text(alloc, parts)?;
            Ok(Request::SetProof { op, object, proof })
        }
        Form::ClearProof => {
            let (op, object) = place(alloc, parts)?;
            Ok(Request::ClearProof { op, object })
        }
        Form::Bind => {
            let (principal, port) = word_and_number(alloc, parts)?;
            Ok(Request::Bind { principal, port })
        }
        Form::Unbind => {
            let principal = one_word(alloc, parts)?;
            Ok(Request::Unbind { principal })
        }
        Form::Call => {
            let (op, object, arg) = place_and_number(alloc, parts)?;
            Ok(Request::Call { op, object, arg })
        }
        Form::See => {
            let number = number(parts)?;
            Ok(Request::See { number })
        }
    }
}

fn name_and_secret(alloc: Global, bytes: &[u8]) -> Result<(Name, Secret), LineError>
    ensures ok { IfOk result (λ p. IsName p.0 × IsSecret p.1 × (bytes.now ≡ cut p.0 p.1)) }
    ensures bad { result ≡ Err LineError.Bad → (n s : List ℕ) → IsName n → IsSecret s → bytes.now ≢ cut n s }
{
    let Some((first, second)) = cut_at_space(bytes) else {
        return Err(LineError::Bad);
    };
    let name = name(alloc, first)?;
    match Secret::of(alloc, second) {
        Ok(secret) => Ok((name, secret)),
        Err(NameError::Bad) => Err(LineError::Bad),
        Err(NameError::Memory) => Err(LineError::Memory),
    }
}

fn word_and_text(alloc: Global, bytes: &[u8]) -> Result<(Bytes, Bytes), LineError>
    ensures ok { IfOk result (λ p. IsOneWord p.0 × (bytes.now ≡ cut p.0 (58 ∷ 32 ∷ p.1))) }
    ensures bad { result ≡ Err LineError.Bad → (w t : List ℕ) → IsOneWord w → bytes.now ≢ cut w (58 ∷ 32 ∷ t) }
{
    let Some((first, second)) = cut_at_space(bytes) else {
        return Err(LineError::Bad);
    };
    let Some(text) = after_word(second, ": ") else {
        return Err(LineError::Bad);
    };
    let word = one_word(alloc, first)?;
    let text = owned(alloc, text)?;
    Ok((word, text))
}

fn number_and_name(alloc: Global, bytes: &[u8]) -> Result<(u64, Name), LineError>
    ensures ok { IfOk result (λ p. IsNumber64 p.0 × IsName p.1 × (bytes.now ≡ cut (decimal p.0) p.1)) }
    ensures bad { result ≡ Err LineError.Bad → (k : ℕ) (n : List ℕ) → IsNumber64 k → IsName n
        → bytes.now ≢ cut (decimal k) n }
{
    let Some((first, second)) = cut_at_space(bytes) else {
        return Err(LineError::Bad);
    };
    let number = number(first)?;
    let name = name(alloc, second)?;
    Ok((number, name))
}

fn word_and_number(alloc: Global, bytes: &[u8]) -> Result<(Bytes, u64), LineError>
    ensures ok { IfOk result (λ p. IsOneWord p.0 × IsNumber64 p.1 × (bytes.now ≡ cut p.0 (decimal p.1))) }
    ensures bad { result ≡ Err LineError.Bad → (w : List ℕ) (k : ℕ) → IsOneWord w → IsNumber64 k
        → bytes.now ≢ cut w (decimal k) }
{
    let Some((first, second)) = cut_at_space(bytes) else {
        return Err(LineError::Bad);
    };
    let word = one_word(alloc, first)?;
    let number = number(second)?;
    Ok((word, number))
}

/// An operation and an object.
fn place(alloc: Global, bytes: &[u8]) -> Result<(Name, Name), LineError>
    ensures ok { IfOk result (λ p. IsName p.0 × IsName p.1 × (bytes.now ≡ cut p.0 p.1)) }
    ensures bad { result ≡ Err LineError.Bad → (a b : List ℕ) → IsName a → IsName b → bytes.now ≢ cut a b }
{
    let Some((first, second)) = cut_at_space(bytes) else {
        return Err(LineError::Bad);
    };
    let op = name(alloc, first)?;
    let object = name(alloc, second)?;
    Ok((op, object))
}

fn place_and_text(alloc: Global, bytes: &[u8]) -> Result<(Name, Name, Bytes), LineError>
    ensures ok { IfOk result (λ p. IsName p.0 × IsName p.1 × (bytes.now ≡ cut p.0 (cut p.1 (58 ∷ 32 ∷ p.2)))) }
    ensures bad { result ≡ Err LineError.Bad
        → (a b t : List ℕ) → IsName a → IsName b → bytes.now ≢ cut a (cut b (58 ∷ 32 ∷ t)) }
{
    let Some((first, rest)) = cut_at_space(bytes) else {
        return Err(LineError::Bad);
    };
    let op = name(alloc, first)?;
    let Some((second, rest)) = cut_at_space(rest) else {
        return Err(LineError::Bad);
    };
    let object = name(alloc, second)?;
    let Some(text) = after_word(rest, ": ") else {
        return Err(LineError::Bad);
    };
    let text = owned(alloc, text)?;
    Ok((op, object, text))
}

fn place_and_number(alloc: Global, bytes: &[u8]) -> Result<(Name, Name, u64), LineError>
    ensures ok { IfOk result
        (λ p. IsName p.0 × IsName p.1 × IsNumber64 p.2 × (bytes.now ≡ cut p.0 (cut p.1 (decimal p.2)))) }
    ensures bad { result ≡ Err LineError.Bad
        → (a b : List ℕ) (k : ℕ) → IsName a → IsName b → IsNumber64 k → bytes.now ≢ cut a (cut b (decimal k)) }
{
    let Some((first, rest)) = cut_at_space(bytes) else {
        return Err(LineError::Bad);
    };
    let op = name(alloc, first)?;
    let Some((second, rest)) = cut_at_space(rest) else {
        return Err(LineError::Bad);
    };
    let object = name(alloc, second)?;
    let number = number(rest)?;
    Ok((op, object, number))
}

/// What stands before the first space, and what stands after it. None exactly where there is no space.
fn cut_at_space(bytes: &[u8]) -> Option<(&[u8], &[u8])>
    ensures { MatchOption result (HasNoSpace bytes.now)
        (λ p. HasNoSpace p.0.now × (bytes.now ≡ cut p.0.now p.1.now)) }
{
    let place = bytes.iter().position(|byte| *byte == b' ')?;
    Some((&bytes[..place], &bytes[place + 1..]))
}

fn name(alloc: Global, bytes: &[u8]) -> Result<Name, LineError>
    ensures ok { IfOk result (λ name. IsName bytes.now × (name ≡ bytes.now)) }
    ensures bad { result ≡ Err LineError.Bad → ¬ IsName bytes.now }
{
    match Name::of(alloc, bytes) {
        Ok(name) => Ok(name),
        Err(NameError::Bad) => Err(LineError::Bad),
        Err(NameError::Memory) => Err(LineError::Memory),
    }
}

fn number(bytes: &[u8]) -> Result<u64, LineError>
    ensures ok { IfOk result (λ n. IsNumber64 n × (bytes.now ≡ decimal n)) }
    ensures bad { result ≡ Err LineError.Bad → (n : ℕ) → IsNumber64 n → bytes.now ≢ decimal n }
{
    match read_number(bytes) {
        Some(number) => Ok(number),
        None => Err(LineError::Bad),
    }
}

fn one_word(alloc: Global, bytes: &[u8]) -> Result<Bytes, LineError>
    ensures ok { IfOk result (λ word. IsOneWord bytes.now × (word ≡ bytes.now)) }
    ensures bad { result ≡ Err LineError.Bad → ¬ IsOneWord bytes.now }
{
    if bytes.is_empty() || bytes.contains(&b' ') {
        return Err(LineError::Bad);
    }
    owned(alloc, bytes)
}

fn owned(alloc: Global, bytes: &[u8]) -> Result<Bytes, LineError>
    ensures ok { IfOk result (λ copy. copy ≡ bytes.now) }
    ensures memory { IfErr result (λ error. error ≡ LineError.Memory) }
{
    match Bytes::of(alloc, bytes) {
        Ok(copy) => Ok(copy),
        Err(AllocError) => Err(LineError::Memory),
    }
}
