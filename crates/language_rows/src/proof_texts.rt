// Small texts of each kind, the limits, and the places of errors.
use crate::rows::{Call, play};
use proof_text::{end_segment, read_proof, segment_line};
use std::alloc::{AllocError, Global};

// How many lines the text's proof has.
pub struct Lines;

impl Call for Lines {
    fn told(alloc: Global, input: &[u8]) -> Result<String, AllocError> {
        match read_proof(alloc, input) {
            Ok(proof) => format!(in alloc; "{}", proof.count()),
            Err(error) => format!(in alloc; "{error:?}"),
        }
    }
}

const WITHOUT_FORMULA: &str = " -> BadHeader
proof  1 -> BadHeader
proof 3|1 label : p|end -> BadHeader
proof 1 -> BadLine { line: 1 }
proof 1; -> BadLine { line: 1 }
proof 1 ; end -> BadLine { line: 1 }
proof 1 ; 2 label : p -> BadNumber { line: 1 }
proof 1 ; 01 label : p -> BadLine { line: 1 }
proof 1 ; 1 label alice -> BadLine { line: 1 }
proof 1 ; 1 lable : p -> BadLine { line: 1 }
proof 1 ; 1 and_l : p -> BadLine { line: 1 }
proof 2 ; 1 forall_e 1 : p -> BadLine { line: 1 }";

#[test]
fn texts_without_a_formula_are_refused(rt: HostRuntime) {
    play::<Lines>(&rt, rt.alloc(), WITHOUT_FORMULA);
}

const WITH_FORMULAS: &str = "proof 1 ; 1 label : alice says ok ; end -> 1
proof 2|1 label : p|2 and_i 1 1 : p and p|end| -> 2
proof 2; 1 hyp:p; 2 exists_i 1 [ \"];\" ] : exists ?x : p; end -> BadLine { line: 2 }
proof 2; 1 hyp:p; 2 exists_i 1 [ \"]\" ] : exists ?x : p; end -> 2
proof 1 ; 1 label : p ; 3 label : p ; end -> BadNumber { line: 2 }
proof 1 ; 1 label : p -> NoEnd
proof 1 ; 1 label : p ; -> NoEnd
proof 1 ; 1 label : p ; end ; end -> After
proof 1 ; 1 label : p ; end ; ; -> After
proof 1 ; 1 label : p ; ; end -> BadLine { line: 2 }
proof 1 ; 1 label :  p p ; end -> Formula { line: 1, error: Unexpected { place: 2 } }";

#[test]
fn texts_with_formulas_are_read(rt: HostRuntime) {
    play::<Lines>(&rt, rt.alloc(), WITH_FORMULAS);
}

const LIMITS: &str = "proof 1|{256# label : p|}end| -> 256
proof 1|{257# label : p|}end| -> TooManyLines
{32768* } -> BadHeader
{32769* } -> TooLong";

#[test]
fn a_proof_has_at_most_256_lines_and_32_768_bytes(rt: HostRuntime) {
    play::<Lines>(&rt, rt.alloc(), LIMITS);
}

// The line of the input on which each segment stands, from segment 0 on, and on which one stands that there is not.
struct SegmentLines;

impl Call for SegmentLines {
    fn told(alloc: Global, input: &[u8]) -> Result<String, AllocError> {
        let mut lines = String::new(alloc);
        for segment in [0, 1, 2, 3, 4, 5, 6, u64::MAX] {
            let line = format!(in alloc; "{},", segment_line(input, segment))?;
            lines.push_str(line.as_str())?;
        }
        Ok(lines)
    }
}

struct EndSegment;

impl Call for EndSegment {
    fn told(alloc: Global, input: &[u8]) -> Result<String, AllocError> {
        format!(in alloc; "{}", end_segment(input))
    }
}

const SEGMENT_LINES: &str = "proof 1|1 label : p; 2 ask : q||end| -> 0,1,1,2,3,4,4,4,";

const END_SEGMENTS: &str = "proof 1;1 label:p; end ;x -> 2
proof 1; end; 1 label : p -> 3
 -> 1
end;end;x;y;end;end -> 4";

#[test]
fn segments_stand_on_lines_of_the_input(rt: HostRuntime) {
    play::<SegmentLines>(&rt, rt.alloc(), SEGMENT_LINES);
    play::<EndSegment>(&rt, rt.alloc(), END_SEGMENTS);
}
