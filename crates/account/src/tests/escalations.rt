//! The texts of escalations, and of what is still on its way.

use super::prints;
use xv_model::operations::Op;
use xv_model::outcomes::{EndRun, Outcome, Then, Wrote};

#[test]
fn escalations(rt: HostRuntime) {
    assert!(rt;
        prints(
            12,
            0,
            Op::Take { i: 0 },
            Outcome::Escalated { e: 7, run: None },
            b"12 0 take 0 -> escalate 7 coalesced\n"
        )
    );
    let run = Some(EndRun::NoEnd { e: 15 });
    assert!(rt;
        prints(
            13,
            2,
            Op::Take { i: 1 },
            Outcome::Escalated { e: 15, run },
            b"13 2 take 1 -> escalate 15 end 15 no-end\n"
        )
    );
    let run = Some(EndRun::Ran {
        e: 4294967295,
        wrote: Some(Wrote {
            addr: 18446744073709551615,
            word: 4294967295,
        }),
        then: Then::Coalesced,
    });
    assert!(rt;
        prints(
            14,
            1,
            Op::Take { i: 2 },
            Outcome::Escalated { e: 4294967295, run },
            b"14 1 take 2 -> escalate 4294967295 end 4294967295 wrote 0xffffffffffffffff 0xffffffff coalesced\n"
        )
    );
}

#[test]
fn what_is_on_its_way(rt: HostRuntime) {
    assert!(rt;
        prints(
            0,
            0,
            Op::Quiet { s: 8191 },
            Outcome::Quiet,
            b"0 0 quiet 8191 -> quiet\n"
        )
    );
    let busy = Outcome::Busy {
        notices: 18446744073709551615,
        messages: 16384,
    };
    assert!(rt;
        prints(
            1,
            3,
            Op::Quiet { s: 4 },
            busy,
            b"1 3 quiet 4 -> busy 18446744073709551615 16384\n"
        )
    );
}
