//! A plan is read and written with ample memory.

use crate::{read_script, write_line};
use std::test::Fail;
use tect_ids::Line;

/// Each kind of line that may be read; written again, it is the same.
#[test]
fn lines_are_written_as_they_are_read(rt: HostRuntime) -> Result<(), Fail> {
    let alloc = rt.alloc();
    let script: &[u8] = b"store 1 2 3 64 5\n\
        c1 look /\n\
        c1 list /a/b\n\
        c1 create /a\n\
        c1 mkdir /!~\n\
        c1 delete /a\n\
        c1 rename /a/b /a/c\n\
        c1 open /a\n\
        c1 append /a 00ff7f80\n\
        c1 blocks /a\n\
        c1 read /a/b\n\
        c1 begin look /a\n\
        c1 step 65535\n\
        dump\n\
        c1 run\n\
        c2 begin rename /a /b\n\
        c2 stop\n\
        c3 begin append / 09af\n";
    let plan = read_script(alloc, script)?;
    let mut out = Vec::new(alloc);
    write_line(&Line::Store(plan.counts), &mut out)?;
    for line in plan.lines.as_slice() {
        write_line(line, &mut out)?;
    }
    assert_eq!(rt; out.as_slice(), script);
    Ok(())
}
