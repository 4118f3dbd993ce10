// The requests of a worker of the service's load.
ghost use Rattle.std.specs.Prelude.{◌≡◌, ◌<◌, ◌++◌, IfOk, Some, slice_get};
ghost use Rattle.std.specs.Fmt.{decimal};
ghost use Rattle.session_wire.specs.declared.requests.Request.TheVariants.{Call, Say, SetGoal, SetProof};
ghost use Rattle.nexus_drill.specs.Drills.{drill_principal, first_requests, goal_text, object, principal, proof_text, request_of, secret, set_after, turning};

use crate::opening::name;
use nal_term::{Name, NameError, Secret};
use nx_io::Bytes;
use policy_history::Principal;
use session_wire::Request;
use std::alloc::{AllocError, Global};

/// The request at this place of a worker's first seven, from 0. An `Err` is want of memory. `docs/FORMATS.md`, "Generated load", states them.
pub fn first_request(alloc: Global, worker: u64, place: u64) -> Result<Request, AllocError>
    requires { place < 7 }
    ensures { IfOk result (λ request. slice_get (first_requests worker) place ≡ Some request) }
{
    match place {
        0 => Ok(Request::Hello {
            name: numbered(alloc, "p", worker)?,
            secret: secret(alloc, worker)?,
        }),
        1 => Ok(Request::NewObject {
            name: numbered(alloc, "o", worker)?,
        }),
        2 => goal(alloc, "read", worker),
        3 => goal(alloc, "write", worker),
        4 => proof(alloc, "read", worker),
        5 => proof(alloc, "write", worker),
        _ => said(alloc, worker, "ok"),
    }
}

/// The request of a worker's draw, where the goal of `read` is set or is not. An `Err` is want of memory.
/// `docs/FORMATS.md`, "Generated load", states it.
pub fn request_of(
    alloc: Global,
    worker: u64,
    draw: u64,
    is_set: bool,
) -> Result<Request, AllocError>
    ensures { IfOk result (λ request. request ≡ request_of worker draw is_set) }
{
    match draw % 8 {
        0 => said(alloc, worker, "note"),
        1 => turning(alloc, worker, is_set),
        2 | 3 | 4 => call(alloc, "write", worker, draw),
        _ => call(alloc, "read", worker, 0),
    }
}

/// Whether the goal of `read` is set after the request of a draw, where it was set before or was not.
pub fn set_after(draw: u64, is_set: bool) -> bool
    ensures { result ≡ set_after draw is_set }
{
    if draw % 8 == 1 { !is_set } else { is_set }
}

// Clears the goal of `read` where it is set, and sets it otherwise.
fn turning(alloc: Global, worker: u64, is_set: bool) -> Result<Request, AllocError>
    ensures { IfOk result (λ request. request ≡ turning worker is_set) }
{
    if !is_set {
        return goal(alloc, "read", worker);
    }
    Ok(Request::ClearGoal {
        op: name(alloc, "read")?,
        object: numbered(alloc, "o", worker)?,
    })
}

fn goal(alloc: Global, op: &str, worker: u64) -> Result<Request, AllocError>
    ensures { IfOk result (λ request. request ≡ SetGoal op.now (object worker) (goal_text worker)) }
{
    let formula = format!(in alloc; "p{worker} says ok")?;
    Ok(Request::SetGoal {
        op: name(alloc, op)?,
        object: numbered(alloc, "o", worker)?,
        formula: Bytes::from_vec(formula.into_bytes()),
    })
}

fn proof(alloc: Global, op: &str, worker: u64) -> Result<Request, AllocError>
    ensures { IfOk result (λ request. request ≡ SetProof op.now (object worker) (proof_text worker)) }
{
    let proof = format!(in alloc; "proof 1 ; 1 label : p{worker} says ok ; end")?;
    Ok(Request::SetProof {
        op: name(alloc, op)?,
        object: numbered(alloc, "o", worker)?,
        proof: Bytes::from_vec(proof.into_bytes()),
    })
}

fn said(alloc: Global, worker: u64, formula: &str) -> Result<Request, AllocError>
    ensures { IfOk result (λ request. request ≡ Say (principal worker) formula.now) }
{
    let principal = format!(in alloc; "p{worker}")?;
    Ok(Request::Say {
        principal: Bytes::from_vec(principal.into_bytes()),
        formula: Bytes::of(alloc, formula.as_bytes())?,
    })
}

fn call(alloc: Global, op: &str, worker: u64, arg: u64) -> Result<Request, AllocError>
    ensures { IfOk result (λ request. request ≡ Call op.now (object worker) arg) }
{
    Ok(Request::Call {
        op: name(alloc, op)?,
        object: numbered(alloc, "o", worker)?,
        arg,
    })
}

// A letter and the worker's number, which are a name.
fn numbered(alloc: Global, letter: &str, worker: u64) -> Result<Name, AllocError>
    ensures { IfOk result (λ name. name ≡ letter.now ++ decimal worker) }
{
    let text = format!(in alloc; "{letter}{worker}")?;
    name(alloc, text.as_str())
}

/// The principal of a worker: its name and its secret. An `Err` is want of memory. `docs/FORMATS.md`, "Generated load", states
/// them.
pub fn drill_principal(alloc: Global, worker: u64) -> Result<Principal, AllocError>
    ensures { IfOk result (λ one. one ≡ drill_principal worker) }
{
    Ok(Principal {
        name: numbered(alloc, "p", worker)?,
        secret: secret(alloc, worker)?,
    })
}

fn secret(alloc: Global, worker: u64) -> Result<Secret, AllocError>
    ensures { IfOk result (λ value. value ≡ secret worker) }
{
    let text = format!(in alloc; "s{worker}")?;
    match Secret::of(alloc, text.as_bytes()) {
        Ok(secret) => Ok(secret),
        Err(NameError::Bad) => Err(AllocError),
        Err(NameError::Memory) => Err(AllocError),
    }
}
