//! The store of proofs, as full as it may be. No journal fills it: each of its cases comes of an entry, and a journal is full before.
use crate::policies::{event, name};
use keyed_hash::HashKey;
use policy_history::Event;
use proof_lines::Proof;
use proof_store::{MOST_CASES, ProofStore};
use std::alloc::{AllocError, Global};

fn proof(alloc: Global) -> Result<Proof, AllocError> {
    let event = event(alloc, "proof read f : proof 1 ; 1 true_i : true ; end")?;
    let proof = match &event {
        Event::SetProof {
            proof: Some(proof),
            ..
        } => proof.copy(alloc),
        _ => Err(AllocError),
    };
    drop(event);
    proof
}

// Gives each of so many cases a proof, 65,536 objects for a subject, and says what number the last one got.
fn fill(alloc: Global, store: &mut ProofStore, proof: &Proof) -> Result<u64, AllocError> {
    let mut last = 0;
    for number in 0..MOST_CASES as u64 {
        if store.count() >= MOST_CASES as u64 {
            return Err(AllocError);
        }
        let op = name(alloc, "read")?;
        let copy = proof.copy(alloc)?;
        store.reserve()?;
        last = store.set((number / 65_536) as u32, op, number % 65_536, copy);
    }
    Ok(last)
}

// How many cases a full store has, the number of the last one, the number that is found again of one in the middle, and that of one that
// it has not.
fn filled(alloc: Global) -> Result<String, AllocError> {
    let proof = proof(alloc)?;
    let op = name(alloc, "read")?;
    let mut store = ProofStore::new(alloc, HashKey::new(7, 7));
    let told = match fill(alloc, &mut store, &proof) {
        Ok(last) => {
            let count = store.count();
            let middle = store.number_of(2, &op, 1);
            let none = store.number_of(4, &op, 0);
            format!(in alloc; "{count} {last} {middle:?} {none:?}")
        }
        Err(AllocError) => Err(AllocError),
    };
    drop(store);
    told
}

#[test]
fn there_are_262144_cases(rt: HostRuntime) -> Result<(), AllocError> {
    assert_eq!(rt;
        filled(rt.alloc())?.as_str(),
        "262144 262143 Some(131073) None"
    );
    Ok(())
}
