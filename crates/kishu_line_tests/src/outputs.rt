// Outputs of cells as a notebook shows them.
use kishu_model::{CellResult, Outcome, Output};
use kishu_outputs::outputs_json;
use std::alloc::{AllocError, Global};
use std::rc::RcStr;
use std::test::Fail;

/// One output of each kind.
fn sample(alloc: Global) -> Result<Vec<Output>, AllocError> {
    let text = RcStr::from_str(alloc, "1\n")?;
    let shown = RcStr::from_str(alloc, "'a'")?;
    let ename = RcStr::from_str(alloc, "ValueError")?;
    let evalue = RcStr::from_str(alloc, "bad")?;
    Ok(vec![in alloc;
        Output::Stream { text },
        Output::Shown { text: shown },
        Output::Fault { ename, evalue },
    ]?)
}

/// Whether outputs are told so, of the cell with number 12.
fn are_told(alloc: Global, outputs: Vec<Output>, want: &str) -> Result<bool, AllocError> {
    let ran = CellResult {
        outcome: Outcome::Done,
        outputs,
    };
    let told = outputs_json(alloc, &ran, 12)?.to_string(alloc)?;
    Ok(told.as_str() == want)
}

/// The outputs of each kind, told.
const SAMPLE: &str =
    "[{\"name\":\"stdout\",\"output_type\":\"stream\",\"text\":\"1\\n\"},{\"data\":{\"text/plain\":\"'a'\"},\"execution_count\":12,\"metadata\":{},\"output_type\":\"execute_result\"},{\"ename\":\"ValueError\",\"evalue\":\"bad\",\"output_type\":\"error\",\"traceback\":[\"ValueError: bad\"]}]";

#[test]
fn tells_outputs(rt: HostRuntime) -> Result<(), Fail> {
    let alloc = rt.alloc();
    let outputs = sample(alloc)?;
    assert!(rt; are_told(alloc, outputs, SAMPLE)?);
    assert!(rt; are_told(alloc, Vec::new(alloc), "[]")?);
    Ok(())
}
