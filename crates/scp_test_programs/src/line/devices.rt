//! What writers write.

use scp_live_process::below::line::{MemoryOut, ReportOut, write_text};
use std::process::Abort;
use std::test::Fail;

#[test]
fn texts_stand_one_behind_the_other(rt: HostRuntime) -> Result<(), Fail> {
    let mut writer = MemoryOut::new(Vec::from_slice(rt.alloc(), b"node")?);
    for text in ["", " 1\n", "end\n", ""] {
        write_text(&mut writer, text)?;
    }
    assert!(rt; writer.text() == b"node 1\nend\n".as_slice());
    assert_eq!(rt; writer.write(b"#")?, 1);
    assert!(rt; writer.text() == b"node 1\nend\n#".as_slice());
    Ok(())
}
