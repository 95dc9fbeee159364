//! A realistic screen with a source and a sink that move one byte a call, and with each of its writes failing in turn.

use crate::runs::{Call, NO_WORK, ended};
use std::test::Fail;

/// A bar with two texts at its sides, a list that scrolls, and two buttons; then the window gets narrower.
const SCREEN: &[u8] = b"window 320 480\nadd root LinearLayout match match\norient v1 vertical\n\
    add v1 RelativeLayout match 48\npadding v2 8 8 8 8\nadd v2 TextView wrap wrap\n\
    text v3 Inbox\nrule v3 parent_left yes\nrule v3 center_v yes\nadd v2 TextView wrap wrap\n\
    text v4 12\nrule v4 parent_right yes\nrule v4 center_v yes\nadd v1 ScrollView match 0\n\
    weight v5 1\nadd v5 LinearLayout match wrap\norient v6 vertical\n\
    add v6 TextView match wrap\nadd v6 TextView match wrap\nadd v6 TextView match wrap\n\
    padding v7 8 8 8 8\npadding v8 8 8 8 8\npadding v9 8 8 8 8\n\
    text v7 Meeting moved to Friday\n\
    text v8 The build is green again and the release can go out on Monday\ntext v9 Lunch?\n\
    add v1 LinearLayout match 48\nadd v10 TextView 0 match\nadd v10 TextView 0 match\n\
    text v11 OK\ntext v12 Cancel\nweight v11 1\nweight v12 1\nframe\nbounds\nwindow 200 480\n\
    frame\nbounds v4\nbounds v5\nbounds v6\nbounds v7\nbounds v8\nbounds v9\nbounds v11\n\
    bounds v12\n";

const ANSWER: &[u8] =
    b"v1\nv2\nv3\nv4\nv5\nv6\nv7\nv8\nv9\nv10\nv11\nv12\nsettled 0\nv1 0 0 320 480\n\
    v2 0 0 320 48\nv3 8 20 38 28\nv4 300 20 312 28\nv5 0 48 320 432 scroll 0\nv6 0 0 320 80\n\
    v7 0 0 320 24\nv8 0 24 320 56\nv9 0 56 320 80\nv10 0 432 320 480\nv11 0 0 160 48\n\
    v12 160 0 320 48\nsettled 0\nv4 180 20 192 28\nv5 0 48 200 432 scroll 0\nv6 0 0 200 88\n\
    v7 0 0 200 24\nv8 0 24 200 64\nv9 0 64 200 88\nv11 0 0 100 48\nv12 100 0 200 48\n";

/// The lines of the screen that have an answer.
const REPLIES: u64 = 23;

/// The script is read and all its replies are written one byte a call.
#[test]
fn a_screen_is_moved_byte_by_byte(rt: HostRuntime) -> Result<(), Fail> {
    let call = Call {
        words: &["run"],
        script: SCREEN,
        reads: &[],
        writes: &[],
        fetches: &[],
    };
    let mut work = NO_WORK;
    let (status, gone) = ended(rt.alloc(), &call, 1, &mut work)?;
    assert_eq!(rt; (status, gone.as_slice()), (0, ANSWER));
    Ok(())
}

/// A run of which one write fails has written the beginning of its replies and ends with 4; where that write does not
/// happen, it has written all and ends with 0.
#[test]
fn a_screen_ends_at_each_write_that_fails(rt: HostRuntime) -> Result<(), Fail> {
    let mut failed: u64 = 0;
    for k in 1..=3 * REPLIES {
        let call = Call {
            words: &["run"],
            script: SCREEN,
            reads: &[],
            writes: &[k],
            fetches: &[],
        };
        let mut work = NO_WORK;
        let (status, gone) = ended(rt.alloc(), &call, 48, &mut work)?;
        let is_whole = gone.len() == ANSWER.len();
        assert!(rt; ANSWER.starts_with(gone.as_slice()));
        assert_eq!(rt; status, if is_whole { 0 } else { 4 });
        failed = failed.saturating_add(u64::from(!is_whole));
    }
    // Each answer is a write of its own at least, and all writes are among those that failed.
    assert!(rt; REPLIES <= failed && failed < 3 * REPLIES);
    Ok(())
}
