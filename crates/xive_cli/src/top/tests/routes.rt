//! Notices that are routed: into an event queue, and where they go nowhere.

use super::compare;
use std::test::Fail;
use xv_base::Status;

/// A board of three sources, the last one unclaimed, whose notices go nowhere, and an END without a queue,
/// which a hypercall resets.
const NOWHERE: &[u8] =
    b"board 1\nsources 3\nprocessors 1\nthreads 1\nram 0\nactors 2\nesb 2 0\nunclaimed 2 2\ngo\n0 set 0 00\n0 fire 0\n0 hcall 0x3ac 0x2 0x1 0x0 0x5 0x11\n0 set 1 00\n0 fire 1\n0 set 2 00\n0 fire 2\n0 route 2\n0 hcall 0x3ac 0x2 0x1 0x0 0x6 0x12\n0 endset 6 vb 0 6 0x0 0 0 0x0\n0 trigger 1\n0 finish 1\n0 take 0\n0 hcall 0x3b8 0x0 0x0 0x6 0x0 0x0\n0 trigger 1\n0 finish 1\nend\n";

#[test]
fn routes(rt: HostRuntime) -> Result<(), Fail> {
    let done = Status::Done;
    compare(
        &rt,
        rt.alloc(),
        b"board 1\nsources 1\nprocessors 1\nthreads 1\nram 1\nactors 2\nesb 2 0\ngo\n0 endset 0 vq 0 0 0x1000 12 0 0x0\n0 hcall 0x3ac 0x2 0x0 0x0 0x0 0x10\n0 set 0 00\n0 trigger 0\n0 route 0\n0 eoi 0\n0 trigger 0\n0 route 0\n",
        done,
        &[
            b"xive-account 1\nsources 1\nprocessors 1\nthreads 1\nram 1\nactors 2\nesb 2 0\ngo\n",
            b"0 0 endset 0 vq 0 0 0x1000 12 0 0x0 -> ok\n1 0 hcall 0x3ac 0x2 0x0 0x0 0x0 0x10 -> code 0\n2 0 set 0 00 -> 01 00\n",
            b"3 0 trigger 0 -> 00 10 forward 1\n4 0 route 0 -> 1 end 0 wrote 0x1000 0x80000010 present\n5 0 eoi 0 -> 10 00\n",
            b"6 0 trigger 0 -> 00 10 forward 2\n7 0 route 0 -> 2 end 0 wrote 0x1004 0x80000010 coalesced\n",
            b"end 8\nsource 0 10 2 2\nqueue 0 vq 2 0 11 00\nprocessor 0 saved 0x0 0x0 0x0\nring 0 0x0 0x0 0x0 0xff 0x0\nflight 1\nnotices 0\ndone\n",
        ],
    )?;
    compare(
        &rt,
        rt.alloc(),
        NOWHERE,
        done,
        &[
            b"xive-account 1\nsources 3\nprocessors 1\nthreads 1\nram 0\nactors 2\nesb 2 0\nunclaimed 2 2\ngo\n",
            b"0 0 set 0 00 -> 01 00\n1 0 trigger 0 -> 00 10 forward 1\n2 0 route 0 -> 1 masked\n3 0 hcall 0x3ac 0x2 0x1 0x0 0x5 0x11 -> code 0\n",
            b"4 0 set 1 00 -> 01 00\n5 0 trigger 1 -> 00 10 forward 1\n6 0 route 1 -> 1 end 5 no-end\n7 0 set 2 00 -> 01 00\n",
            b"8 0 trigger 2 -> 00 10 forward 1\n9 0 route 2 -> 1 no-source\n10 0 route 2 -> no-notice\n11 0 hcall 0x3ac 0x2 0x1 0x0 0x6 0x12 -> code 0\n",
            b"12 0 endset 6 vb 0 6 0x0 0 0 0x0 -> ok\n13 0 trigger 1 -> 10 11\n14 0 eoi 1 -> 11 10 forward 2\n15 0 route 1 -> 2 end 6 unwritten present\n",
            b"16 0 take 0 -> present 0 6 backlogged\n17 0 hcall 0x3b8 0x0 0x0 0x6 0x0 0x0 -> code 0\n18 0 trigger 1 -> 10 11\n19 0 eoi 1 -> 11 10 forward 3\n20 0 route 1 -> 3 end 6 no-end\n",
            b"end 21\nsource 0 10 1 1\nsource 1 10 3 3\nsource 2 10 1 1\nprocessor 0 saved 0x0 0x0 0x2\nring 0 0x0 0x0 0x0 0xff 0x0\nflight 0\nnotices 0\ndone\n",
        ],
    )
}
