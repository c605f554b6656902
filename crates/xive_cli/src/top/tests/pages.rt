//! Loads and stores on the pages of sources, of ENDs and of threads.

use super::compare;
use std::test::Fail;
use xv_base::Status;

#[test]
fn a_source_with_two_pages(rt: HostRuntime) -> Result<(), Fail> {
    compare(
        &rt,
        rt.alloc(),
        b"board 1\nsources 1\nprocessors 1\nthreads 1\nram 0\nactors 2\nesb 2 0\ngo\n0 store 0 0 0x123\n0 load 0 0 0x0\n0 load 0 1 0xc00\n0 store 0 0 0x0\n0 load 0 1 0x800\n0 store 0 1 0x400\n0 load 0 1 0x7ff\n0 store 0 1 0xd00\n0 load 0 1 0x1800\n0 store 0 1 0x800\nend\n",
        Status::Done,
        &[
            b"xive-account 1\nsources 1\nprocessors 1\nthreads 1\nram 0\nactors 2\nesb 2 0\ngo\n",
            b"0 0 store 0 0 0x123 -> 01 01\n1 0 load 0 0 0x0 -> ones\n2 0 load 0 1 0xc00 -> 01 00\n",
            b"3 0 store 0 0 0x0 -> 00 10 forward 1\n4 0 load 0 1 0x800 -> 10 10\n5 0 store 0 1 0x400 -> bad-offset\n",
            b"6 0 load 0 1 0x7ff -> 10 00\n7 0 store 0 1 0xd00 -> 00 01\n8 0 load 0 1 0x1800 -> 01 01\n9 0 store 0 1 0x800 -> bad-offset\n",
            b"end 10\nsource 0 01 1 0\nprocessor 0 saved 0x0 0x0 0x0\nring 0 0x0 0x0 0x0 0xff 0x0\nflight 0\nnotices 1\ndone\n",
        ],
    )
}

#[test]
fn a_source_with_one_page_and_store_eoi(rt: HostRuntime) -> Result<(), Fail> {
    compare(
        &rt,
        rt.alloc(),
        b"board 1\nsources 1\nprocessors 1\nthreads 1\nram 0\nactors 1\nesb 1 1\ngo\n0 store 0 0 0xC00\n0 store 0 0 0\n0 store 0 0 0x3ff\n0 store 0 0 1024\n0 load 0 0 0xfff\nend\n",
        Status::Done,
        &[
            b"xive-account 1\nsources 1\nprocessors 1\nthreads 1\nram 0\nactors 1\nesb 1 1\ngo\n",
            b"0 0 store 0 0 0xc00 -> 01 00\n1 0 store 0 0 0x0 -> 00 10 forward 1\n2 0 store 0 0 0x3ff -> 10 11\n",
            b"3 0 store 0 0 0x400 -> 11 10 forward 2\n4 0 load 0 0 0xfff -> 10 11\n",
            b"end 5\nsource 0 11 2 0\nprocessor 0 saved 0x0 0x0 0x0\nring 0 0x0 0x0 0x0 0xff 0x0\nflight 0\nnotices 2\ndone\n",
        ],
    )
}

#[test]
fn pages_of_ends(rt: HostRuntime) -> Result<(), Fail> {
    compare(
        &rt,
        rt.alloc(),
        b"board 1\nsources 1\nprocessors 1\nthreads 1\nram 1\nactors 2\nesb 2 0\ngo\n0 endset 0 vq 0 0 0x1000 12 0 0x0\n0 hcall 0x3ac 0x2 0x0 0x0 0x0 0x10\n0 set 0 00\n0 trigger 0\n0 route 0\n0 eoi 0\n0 trigger 0\n0 route 0\n0 endload 0 0 0x0\n0 endload 0 0 0x800\n0 endload 0 1 0xd00\n0 endstore 0 0 0x0\n0 endload 1 0 0x0\n0 endstore 1 0 0x0\nend\n",
        Status::Done,
        &[
            b"xive-account 1\nsources 1\nprocessors 1\nthreads 1\nram 1\nactors 2\nesb 2 0\ngo\n",
            b"0 0 endset 0 vq 0 0 0x1000 12 0 0x0 -> ok\n1 0 hcall 0x3ac 0x2 0x0 0x0 0x0 0x10 -> code 0\n2 0 set 0 00 -> 01 00\n",
            b"3 0 trigger 0 -> 00 10 forward 1\n4 0 route 0 -> 1 end 0 wrote 0x1000 0x80000010 present\n5 0 eoi 0 -> 10 00\n",
            b"6 0 trigger 0 -> 00 10 forward 2\n7 0 route 0 -> 2 end 0 wrote 0x1004 0x80000010 coalesced\n",
            b"8 0 endload 0 0 0x0 -> 11 10\n9 0 endload 0 0 0x800 -> 10 10\n10 0 endload 0 1 0xd00 -> 00 01\n",
            b"11 0 endstore 0 0 0x0 -> bad-offset\n12 0 endload 1 0 0x0 -> no-end\n13 0 endstore 1 0 0x0 -> bad-offset\n",
            b"end 14\nsource 0 10 2 2\nqueue 0 vq 2 0 10 01\nprocessor 0 saved 0x0 0x0 0x0\nring 0 0x0 0x0 0x0 0xff 0x0\nflight 1\nnotices 0\ndone\n",
        ],
    )
}

/// What is an access to a ring, and what is none, by its page, offset and size.
#[test]
fn pages_of_a_thread(rt: HostRuntime) -> Result<(), Fail> {
    compare(
        &rt,
        rt.alloc(),
        b"board 1\nsources 1\nprocessors 1\nthreads 1\nram 0\nactors 2\nesb 2 0\ngo\n0 tload 0 3 0x10 1\n0 tload 0 0 0x10 8\n0 tload 0 1 0x818 8\n0 restore 0 0\n0 tstore 0 2 0x18 4 0x80000400\n0 tstore 0 1 0x18 4 0x80000400\n0 tstore 0 1 0x11 1 0x7\n0 tstore 0 2 0x11 1 8\n0 tstore 0 2 0x812 1 3\n0 tload 0 0 0x10 1\n0 tload 0 1 0x16 2\n0 tload 0 2 0x18 8\n0 tload 0 2 0x12 4\n0 tload 0 2 0x20 1\n0 tload 0 1 0x810 2\n0 tload 0 2 0x810 2\n0 tload 0 1 0x818 8\nend\n",
        Status::Done,
        &[
            b"xive-account 1\nsources 1\nprocessors 1\nthreads 1\nram 0\nactors 2\nesb 2 0\ngo\n",
            b"0 0 tload 0 3 0x10 1 -> bad-access\n1 0 tload 0 0 0x10 8 -> value 0xffff00ffff\n2 0 tload 0 1 0x818 8 -> refused no-context\n3 0 restore 0 0 -> ok\n",
            b"4 0 tstore 0 2 0x18 4 0x80000400 -> bad-access\n5 0 tstore 0 1 0x18 4 0x80000400 -> ok\n6 0 tstore 0 1 0x11 1 0x7 -> bad-access\n",
            b"7 0 tstore 0 2 0x11 1 0x8 -> stored\n8 0 tstore 0 2 0x812 1 0x3 -> stored\n9 0 tload 0 0 0x10 1 -> value 0x80\n10 0 tload 0 1 0x16 2 -> value 0xff03\n",
            b"11 0 tload 0 2 0x18 8 -> value 0x8000040000000000\n12 0 tload 0 2 0x12 4 -> bad-access\n13 0 tload 0 2 0x20 1 -> bad-access\n",
            b"14 0 tload 0 1 0x810 2 -> bad-access\n15 0 tload 0 2 0x810 2 -> value 0x8003\n16 0 tload 0 1 0x818 8 -> value 0x80000400\n",
            b"end 17\nprocessor 0 pulled 0 0x0 0x0 0x0\nring 0 0x0 0x3 0x0 0xff 0x400\nflight 0\nnotices 0\ndone\n",
        ],
    )
}
