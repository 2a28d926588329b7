//! A client whose answer ends too early.

use cut_messages::{AskFault, ask};
use cut_wires::{MemoryWire, Wire};
use std::test::Fail;

/// The first line of a table.
const HEADER: &[u8] = b"k,h,l,f,trials,receivers,conflicts,silent,extra,votes,decided,right,ppm\n";

// The lines that came whole are written, though the end of the answer did not come.
#[test]
fn an_answer_that_ends_after_its_first_line(rt: HostRuntime) -> Result<(), Fail> {
    let mut answer = Vec::from_slice(rt.alloc(), b"T\0\0\0\x48")?;
    answer.extend_from_slice(HEADER)?;
    let mut server = MemoryWire::new(rt.alloc(), answer, 7);
    let mut output = MemoryWire::new(rt.alloc(), Vec::new(rt.alloc()), 7);
    let end = ask(rt.alloc(), b"{}", &mut server, &mut output);
    assert!(rt; end.map_err(AskFault::number) == Err(42));
    assert!(rt; output.taken() == HEADER && output.taken().len() == 72);
    Ok(())
}
