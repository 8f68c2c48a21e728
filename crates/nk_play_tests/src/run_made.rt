//! What `gen` prints, and that it prints the same at each run.

use crate::run_driver::answers;
use std::test::Fail;

/// The summary of the script that 7 makes, worked out from the rules of docs/generator.md.
const SEVEN: &[u8] =
    b"channels 24\nstopped 24\npieces 743\nbytes 3023955\nreaders 20\nread 2434542\n";

/// The input, which is left alone, is no script.
#[test]
fn a_made_script_is_summed_up_the_same_at_each_run(rt: HostRuntime) -> Result<(), Fail> {
    let alloc = rt.alloc();
    for _ in 0..2 {
        let input = b"no script".to_vec(alloc)?;
        answers(alloc, &["gen", "7"], input, (0, SEVEN, b""))?;
    }
    Ok(())
}
