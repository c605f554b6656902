//! Level sources: an EOI while the line is up, and what the report says of a line.

use super::compare;
use std::test::Fail;
use xv_base::Status;

#[test]
fn an_eoi_while_the_line_is_up(rt: HostRuntime) -> Result<(), Fail> {
    compare(
        &rt,
        rt.alloc(),
        b"board 1\nsources 1\nprocessors 1\nthreads 1\nram 0\nactors 2\nesb 2 0\nlevel 0 0\ngo\n0 set 0 00\n0 raise 0\n0 eoi 0\n0 trigger 0\n0 lower 0\n0 eoi 0\nend\n",
        Status::Done,
        &[
            b"xive-account 1\nsources 1\nprocessors 1\nthreads 1\nram 0\nactors 2\nesb 2 0\nlevel 0 0\ngo\n",
            b"0 0 set 0 00 -> 01 00\n1 0 raise 0 -> 00 10 forward 1\n2 0 eoi 0 -> 10 10 forward 2\n",
            b"3 0 trigger 0 -> 10 10\n4 0 lower 0 -> 10 10\n5 0 eoi 0 -> 10 00\n",
            b"end 6\nsource 0 00 2 0\nprocessor 0 saved 0x0 0x0 0x0\nring 0 0x0 0x0 0x0 0xff 0x0\nflight 0\nnotices 2\ndone\n",
        ],
    )
}

#[test]
fn a_line_that_stays_up(rt: HostRuntime) -> Result<(), Fail> {
    compare(
        &rt,
        rt.alloc(),
        b"board 1\nsources 4\nprocessors 1\nthreads 1\nram 0\nactors 1\nesb 1 1\nlevel 1 2\nlevel 3 3\nunclaimed 3 3\ngo\n0 init 1 1\n0 raise 2\n0 lower 2\n0 set 3 00\n0 assert 3\n0 assert 3\nend\n",
        Status::Done,
        &[
            b"xive-account 1\nsources 4\nprocessors 1\nthreads 1\nram 0\nactors 1\nesb 1 1\nlevel 1 2\nlevel 3 3\nunclaimed 3 3\ngo\n",
            b"0 0 init 1 1 -> 01 01\n1 0 raise 2 -> 01 01\n2 0 lower 2 -> 01 01\n3 0 set 3 00 -> 01 00\n",
            b"4 0 raise 3 -> 00 10 forward 1\n5 0 route 3 -> 1 no-source\n6 0 raise 3 -> 10 10\n",
            b"end 7\nsource 1 01 0 0 asserted\nsource 3 10 1 1 asserted\nprocessor 0 saved 0x0 0x0 0x0\nring 0 0x0 0x0 0x0 0xff 0x0\nflight 0\nnotices 0\ndone\n",
        ],
    )
}
