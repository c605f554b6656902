//! Accounts of whole scripts, and the spellings that a script may have.

use super::{ACCOUNT, SMALLEST, compare};
use std::test::Fail;
use xv_base::Status;

#[test]
fn accounts(rt: HostRuntime) -> Result<(), Fail> {
    let done = Status::Done;
    compare(&rt, rt.alloc(), SMALLEST, done, &ACCOUNT)?;
    compare(
        &rt,
        rt.alloc(),
        b"board 1\nsources 1\nprocessors 1\nthreads 1\nram 0\nactors 1\nesb 2 0\ngo\nend\n",
        done,
        &[
            ACCOUNT[0],
            b"end 0\nprocessor 0 saved 0x0 0x0 0x0\nring 0 0x0 0x0 0x0 0xff 0x0\nflight 0\nnotices 0\ndone\n",
        ],
    )?;
    let two_actors =
        b"xive-account 1\nsources 1\nprocessors 1\nthreads 1\nram 0\nactors 2\nesb 2 0\ngo\n";
    compare(
        &rt,
        rt.alloc(),
        b"board 1\nsources 1\nprocessors 1\nthreads 1\nram 0\nactors 2\nesb 2 0\ngo\n0 trigger 0\n0 set 0 00\n0 trigger 0\n",
        done,
        &[
            two_actors,
            b"0 0 trigger 0 -> 01 01\n1 0 set 0 00 -> 01 00\n2 0 trigger 0 -> 00 10 forward 1\n",
            b"end 3\nsource 0 10 1 0\nprocessor 0 saved 0x0 0x0 0x0\nring 0 0x0 0x0 0x0 0xff 0x0\nflight 0\nnotices 1\ndone\n",
        ],
    )?;
    compare(
        &rt,
        rt.alloc(),
        b"board 1\nsources 1\nprocessors 1\nthreads 1\nram 0\nactors 2\nesb 2 0\ngo\n0 set 0 00\n0 trigger 0\n0 trigger 0\n0 trigger 0\n0 eoi 0\n0 eoi 0\n0 eoi 0\nend\n",
        done,
        &[
            two_actors,
            b"0 0 set 0 00 -> 01 00\n1 0 trigger 0 -> 00 10 forward 1\n2 0 trigger 0 -> 10 11\n3 0 trigger 0 -> 11 11\n",
            b"4 0 eoi 0 -> 11 10 forward 2\n5 0 eoi 0 -> 10 00\n6 0 eoi 0 -> 00 00\n",
            b"end 7\nsource 0 00 2 0\nprocessor 0 saved 0x0 0x0 0x0\nring 0 0x0 0x0 0x0 0xff 0x0\nflight 0\nnotices 2\ndone\n",
        ],
    )
}

#[test]
fn spellings(rt: HostRuntime) -> Result<(), Fail> {
    let scripts = [
        b"# a board\n\n  board   0x1 \n   \nsources 0X03\n # of two\nprocessors 002\nthreads 0x0000000000000002\nram 0x40\n\nactors 00000000000000000002\nesb  01  0x1\n#\ngo  \n\n0x1   set  0X2 00\n  0 trigger 0000000002  \n# one is out\n01 get 0x0002\n\n0 set 0 10\n0x0 get 1\n  end  \n# behind the end\nnothing of this is read".as_slice(),
        b"board 1\nsources 3\nprocessors 2\nthreads 2\nram 64\nactors 2\nesb 1 1\ngo\n1 set 2 00\n0 trigger 2\n1 get 2\n0 set 0 10\n0 get 1",
        b"board 1\nsources 3\nprocessors 2\nthreads 2\nram 64\nactors 2\nesb 1 1\ngo\n1 set 2 00\n0 trigger 2\n1 get 2\n0 set 0 10\n0 get 1\nend",
    ];
    for script in scripts {
        compare(
            &rt,
            rt.alloc(),
            script,
            Status::Done,
            &[
                b"xive-account 1\nsources 3\nprocessors 2\nthreads 2\nram 64\nactors 2\nesb 1 1\ngo\n",
                b"0 1 set 2 00 -> 01 00\n1 0 trigger 2 -> 00 10 forward 1\n2 1 get 2 -> 10 10\n3 0 set 0 10 -> 01 10\n4 0 get 1 -> 01 01\n",
                b"end 5\nsource 0 10 0 0\nsource 2 10 1 0\n",
                b"processor 0 saved 0x0 0x0 0x0\nprocessor 1 saved 0x0 0x0 0x0\n",
                b"ring 0 0x0 0x0 0x0 0xff 0x0\nring 1 0x0 0x0 0x0 0xff 0x0\nflight 0\nnotices 1\ndone\n",
            ],
        )?;
    }
    Ok(())
}
