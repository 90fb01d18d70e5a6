// A run by its schedule over memory. The counts are those of `oracle/simulate`.

use crate::failing::NONE_FAILS;
use crate::made_files::no_files;
use crate::runs::{By, DONE, Setting, run};
use network_run::Counts;
use std::test::Fail;

#[test]
fn a_listing_is_counted(rt: HostRuntime) -> Result<(), Fail> {
    let setting = Setting {
        deck: b"#LIST A\nHELLO\n#END\n",
        piece: 7,
        pages: (256, 256),
        failing: NONE_FAILS,
    };
    let came = run(&rt, By::Schedule(7), setting, no_files(&rt, rt.alloc()))?;
    let wanted = Counts {
        events: 54,
        delays: 9,
        grants: 4,
    };
    assert!(rt; came.outcomes == DONE);
    assert_eq!(rt; came.counts, Some(wanted));
    Ok(())
}
