// Checks in ample memory, none of which may answer that memory was refused.

use report::{Open, Settings, Verdict, check};
use round_tests::{CONFIG, asking, in_turn};
use std::io::Cursor;
use std::test::Fail;

// Recordings of each length up to 607 records, so that whatever grows with the records does so at each of its sizes.
#[test]
fn ample_memory_is_enough(rt: HostRuntime) -> Result<(), Fail> {
    let alloc = rt.alloc();
    for times in 0..301u16 {
        let records = 7 + 2 * (times as u32);
        for (workers, depth) in [(1, 1), (1, 64), (7, 1), (7, 64)] {
            let settings = Settings { workers, depth };
            let readers = vec![in alloc; Cursor::new(asking(alloc, times)?)]?;
            let order = Cursor::new(in_turn(alloc, records)?);
            let outcome = check(rt, alloc, CONFIG, readers, order, &[], &[], settings, &Open);
            assert_eq!(rt;
                outcome,
                Ok(Verdict::Yes {
                    records: records as u64
                }),
                "calls: {times}, workers: {workers}, depth: {depth}"
            );
        }
    }
    Ok(())
}
