ghost use Rattle.std.specs.Prelude.{◌≡◌, ◌≢◌, ◌∷◌, ◌++◌, [], IfOk, OnErr};
ghost use Rattle.nal_term.specs.Names.{IsName};
ghost use Rattle.nal_term.specs.Secrets.{IsSecret};
ghost use Rattle.session_wire.specs.Frames.{IsNumber64, IsShort, number_bytes, text_bytes};
ghost use Rattle.session_wire.specs.Fields.{BeginsFields, sorts_of_kind};
ghost use Rattle.session_wire.specs.Inner.Judging.{AreFields, BeginsSomeField, IsPayloadOf};
ghost use Rattle.session_wire.specs.declared.fields.Sort.TheVariants as sort;

use crate::fields::{cut_number, cut_text};
use crate::requests::Request;
use nal_term::{Name, NameError, Secret};
use nx_io::Bytes;
use std::alloc::{AllocError, Global};

/// The name that the bytes begin with, and what follows it.
fn name(alloc: Global, bytes: &[u8]) -> Result<(Name, &[u8]), AllocError>
    requires { BeginsSomeField sort.Name bytes.now }
    ensures name { IfOk result (λ cut. IsName cut.0) }
    ensures bytes { IfOk result (λ cut. bytes.now ≡ text_bytes cut.0 ++ cut.1.now) }
{
    let Some((text, rest)) = cut_text(bytes) else {
        unreachable!()
    };
    match Name::of(alloc, text) {
        Ok(name) => Ok((name, rest)),
        Err(NameError::Memory) => Err(AllocError),
        Err(NameError::Bad) => unreachable!(),
    }
}

/// The secret that the bytes begin with, and what follows it.
fn secret(alloc: Global, bytes: &[u8]) -> Result<(Secret, &[u8]), AllocError>
    requires { BeginsSomeField sort.Secret bytes.now }
    ensures secret { IfOk result (λ cut. IsSecret cut.0) }
    ensures bytes { IfOk result (λ cut. bytes.now ≡ text_bytes cut.0 ++ cut.1.now) }
{
    let Some((text, rest)) = cut_text(bytes) else {
        unreachable!()
    };
    match Secret::of(alloc, text) {
        Ok(secret) => Ok((secret, rest)),
        Err(NameError::Memory) => Err(AllocError),
        Err(NameError::Bad) => unreachable!(),
    }
}

/// The text that the bytes begin with, and what follows it.
fn text(alloc: Global, bytes: &[u8]) -> Result<(Bytes, &[u8]), AllocError>
    requires { BeginsSomeField sort.Text bytes.now }
    ensures text { IfOk result (λ cut. IsShort cut.0) }
    ensures bytes { IfOk result (λ cut. bytes.now ≡ text_bytes cut.0 ++ cut.1.now) }
{
    let Some((text, rest)) = cut_text(bytes) else {
        unreachable!()
    };
    Ok((Bytes::of(alloc, text)?, rest))
}

/// The number that the bytes begin with, and what follows it.
fn number(bytes: &[u8]) -> (u64, &[u8])
    requires { BeginsSomeField sort.Number bytes.now }
    ensures number { IsNumber64 result.0 }
    ensures bytes { bytes.now ≡ number_bytes result.0 ++ result.1.now }
{
    let Some(cut) = cut_number(bytes) else {
        unreachable!()
    };
    cut
}

/// The request of this kind whose fields these bytes are. An `Err` is want of memory, of a kind that takes any.
#[tactic(auto, unfolding(crate::specs::Fields::sorts_of_kind))]
pub(crate) fn read_payload(alloc: Global, kind: u8, body: &[u8]) -> Result<Request, AllocError>
    requires { AreFields (sorts_of_kind kind) body.now }
    ensures payload { IfOk result (IsPayloadOf kind body.now) }
    ensures memory { OnErr result (kind ≢ 13) }
{
    match kind {
        1 => {
            let (name, secret) = name_and_secret(alloc, body)?;
            Ok(Request::Hello { name, secret })
        }
        2 => {
            let (principal, formula) = two_texts(alloc, body)?;
            Ok(Request::Say { principal, formula })
        }
        3 => {
            let (number, to) = number_and_name(alloc, body)?;
            Ok(Request::Transfer { number, to })
        }
        4 => {
            let number = one_number(body);
            Ok(Request::Delete { number })
        }
        5 => {
            let name = one_name(alloc, body)?;
            Ok(Request::NewObject { name })
        }
        6 => {
            let (op, object, formula) = place_and_text(alloc, body)?;
            Ok(Request::SetGoal {
                op,
                object,
                formula,
            })
        }
        7 => {
            let (op, object) = place(alloc, body)?;
            Ok(Request::ClearGoal { op, object })
        }
        8 => {
            let (op, object, proof) = place_and_text(alloc, body)?;
            Ok(Request::SetProof { op, object, proof })
        }
        9 => {
            let (op, object) = place(alloc, body)?;
            Ok(Request::ClearProof { op, object })
        }
        10 => {
            let (principal, port) = text_and_number(alloc, body)?;
            Ok(Request::Bind { principal, port })
        }
        11 => {
            let principal = one_text(alloc, body)?;
            Ok(Request::Unbind { principal })
        }
        12 => {
            let (op, object, arg) = place_and_number(alloc, body)?;
            Ok(Request::Call { op, object, arg })
        }
        13 => {
            let number = one_number(body);
            Ok(Request::See { number })
        }
        _ => unreachable!(),
    }
}

fn one_number(body: &[u8]) -> u64
    requires { BeginsFields (sort.Number ∷ []) body.now [] }
    ensures parts { IsNumber64 result }
    ensures bytes { body.now ≡ number_bytes result }
{
    let (number, _) = number(body);
    number
}

fn one_name(alloc: Global, body: &[u8]) -> Result<Name, AllocError>
    requires { BeginsFields (sort.Name ∷ []) body.now [] }
    ensures parts { IfOk result IsName }
    ensures bytes { IfOk result (λ name. body.now ≡ text_bytes name) }
{
    let (name, _) = name(alloc, body)?;
    Ok(name)
}

fn one_text(alloc: Global, body: &[u8]) -> Result<Bytes, AllocError>
    requires { BeginsFields (sort.Text ∷ []) body.now [] }
    ensures parts { IfOk result IsShort }
    ensures bytes { IfOk result (λ text. body.now ≡ text_bytes text) }
{
    let (text, _) = text(alloc, body)?;
    Ok(text)
}

fn name_and_secret(alloc: Global, body: &[u8]) -> Result<(Name, Secret), AllocError>
    requires { BeginsFields (sort.Name ∷ sort.Secret ∷ []) body.now [] }
    ensures parts { IfOk result (λ p. IsName p.0 × IsSecret p.1) }
    ensures bytes { IfOk result (λ p. body.now ≡ text_bytes p.0 ++ text_bytes p.1) }
{
    let (name, rest) = name(alloc, body)?;
    let (secret, _) = secret(alloc, rest)?;
    Ok((name, secret))
}

fn two_texts(alloc: Global, body: &[u8]) -> Result<(Bytes, Bytes), AllocError>
    requires { BeginsFields (sort.Text ∷ sort.Text ∷ []) body.now [] }
    ensures parts { IfOk result (λ p. IsShort p.0 × IsShort p.1) }
    ensures bytes { IfOk result (λ p. body.now ≡ text_bytes p.0 ++ text_bytes p.1) }
{
    let (first, rest) = text(alloc, body)?;
    let (second, _) = text(alloc, rest)?;
    Ok((first, second))
}

fn number_and_name(alloc: Global, body: &[u8]) -> Result<(u64, Name), AllocError>
    requires { BeginsFields (sort.Number ∷ sort.Name ∷ []) body.now [] }
    ensures parts { IfOk result (λ p. IsNumber64 p.0 × IsName p.1) }
    ensures bytes { IfOk result (λ p. body.now ≡ number_bytes p.0 ++ text_bytes p.1) }
{
    let (number, rest) = number(body);
    let (name, _) = name(alloc, rest)?;
    Ok((number, name))
}

fn text_and_number(alloc: Global, body: &[u8]) -> Result<(Bytes, u64), AllocError>
    requires { BeginsFields (sort.Text ∷ sort.Number ∷ []) body.now [] }
    ensures parts { IfOk result (λ p. IsShort p.0 × IsNumber64 p.1) }
    ensures bytes { IfOk result (λ p. body.now ≡ text_bytes p.0 ++ number_bytes p.1) }
{
    let (text, rest) = text(alloc, body)?;
    let (number, _) = number(rest);
    Ok((text, number))
}

/// An operation and an object.
fn place(alloc: Global, body: &[u8]) -> Result<(Name, Name), AllocError>
    requires { BeginsFields (sort.Name ∷ sort.Name ∷ []) body.now [] }
    ensures parts { IfOk result (λ p. IsName p.0 × IsName p.1) }
    ensures bytes { IfOk result (λ p. body.now ≡ text_bytes p.0 ++ text_bytes p.1) }
{
    let (op, rest) = name(alloc, body)?;
    let (object, _) = name(alloc, rest)?;
    Ok((op, object))
}

fn place_and_text(alloc: Global, body: &[u8]) -> Result<(Name, Name, Bytes), AllocError>
    requires { BeginsFields (sort.Name ∷ sort.Name ∷ sort.Text ∷ []) body.now [] }
    ensures parts { IfOk result (λ p. IsName p.0 × IsName p.1 × IsShort p.2) }
    ensures bytes { IfOk result (λ p. body.now ≡ text_bytes p.0 ++ (text_bytes p.1 ++ text_bytes p.2)) }
{
    let (op, rest) = name(alloc, body)?;
    let (object, rest) = name(alloc, rest)?;
    let (text, _) = text(alloc, rest)?;
    Ok((op, object, text))
}

fn place_and_number(alloc: Global, body: &[u8]) -> Result<(Name, Name, u64), AllocError>
    requires { BeginsFields (sort.Name ∷ sort.Name ∷ sort.Number ∷ []) body.now [] }
    ensures parts { IfOk result (λ p. IsName p.0 × IsName p.1 × IsNumber64 p.2) }
    ensures bytes { IfOk result (λ p. body.now ≡ text_bytes p.0 ++ (text_bytes p.1 ++ number_bytes p.2)) }
{
    let (op, rest) = name(alloc, body)?;
    let (object, rest) = name(alloc, rest)?;
    let (number, _) = number(rest);
    Ok((op, object, number))
}
