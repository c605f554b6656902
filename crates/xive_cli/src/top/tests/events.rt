//! Many events of one source: a queue that wraps, and a bus that is full.

use super::{NONE, run_script};
use std::alloc::Global;
use std::process::Abort;
use std::test::Fail;
use xv_base::Status;

const ONE_SOURCE: &[u8] =
    b"board 1\nsources 1\nprocessors 1\nthreads 1\nram 1\nactors 1\nesb 2 0\ngo\n";

/// The account of `ONE_SOURCE` begins so.
const ONE_SOURCE_ACCOUNT: &str =
    "xive-account 1\nsources 1\nprocessors 1\nthreads 1\nram 1\nactors 1\nesb 2 0\ngo\n";

/// What route number `i` of the source says, from 0 on: with a queue of 1,024 entries what it wrote, and where.
fn run_text(alloc: Global, writes: bool, i: u16) -> Result<String, Fail> {
    if !writes {
        return Ok(format!(in alloc; "unwritten present")?);
    }
    let addr = 0x1000 + 4 * (i % 1024);
    let word = if i / 1024 % 2 == 0 {
        0x8000_0010u32
    } else {
        0x10
    };
    Ok(format!(in alloc; "wrote 0x{addr:x} 0x{word:x} present")?)
}

/// Runs `ONE_SOURCE` with a configuration of END 0, to which the source is routed with the payload 0x10, then
/// `fire` and `finish` so often, and then some more lines. Compares the account, which ends so.
fn compare_events(
    rt: &impl Abort,
    alloc: Global,
    writes: bool,
    events: u16,
    last: &[u8],
    end: &str,
) -> Result<(), Fail> {
    let config = if writes {
        "vqn 0 0 0x1000 12 0 0x0"
    } else {
        "vnb 0 0 0x0 0 0 0x0"
    };
    let mut script = Vec::new(alloc);
    script.extend_from_slice(ONE_SOURCE)?;
    script.extend_from_slice(format!(in alloc;
        "0 endset 0 {config}\n0 hcall 0x3ac 0x2 0x0 0x0 0x0 0x10\n0 set 0 00\n"
    )?.as_bytes())?;
    let mut wanted = Vec::new(alloc);
    wanted.extend_from_slice(ONE_SOURCE_ACCOUNT.as_bytes())?;
    wanted.extend_from_slice(format!(in alloc;
        "0 0 endset 0 {config} -> ok\n1 0 hcall 0x3ac 0x2 0x0 0x0 0x0 0x10 -> code 0\n2 0 set 0 00 -> 01 00\n"
    )?.as_bytes())?;
    for i in 0..events {
        script.extend_from_slice(b"0 fire 0\n0 finish 0\n")?;
        let text = run_text(alloc, writes, i)?;
        let k = i as u64 + 1;
        wanted.extend_from_slice(format!(in alloc;
            "{} 0 trigger 0 -> 00 10 forward {k}\n{} 0 route 0 -> {k} end 0 {text}\n{} 0 eoi 0 -> 10 00\n",
            3 * k,
            3 * k + 1,
            3 * k + 2
        )?
        .as_bytes())?;
    }
    script.extend_from_slice(last)?;
    wanted.extend_from_slice(end.as_bytes())?;
    let (status, sink) = run_script(alloc, script.as_slice(), 4096, 1 << 20, NONE, NONE)?;
    assert_eq!(rt; sink.held(), wanted.as_slice());
    assert_eq!(rt; status, Status::Done);
    Ok(())
}

#[test]
fn wrapping_queue(rt: HostRuntime) -> Result<(), Fail> {
    compare_events(
        &rt,
        rt.alloc(),
        true,
        2049,
        b"end\n",
        "end 6150\nsource 0 00 2049 2049\nqueue 0 vqn 2049 0 00 00\nprocessor 0 saved 0x0 0x0 0x0\nring 0 0x0 0x0 0x0 0xff 0x0\nflight 2049\nnotices 0\ndone\n",
    )
}

#[test]
fn full_bus(rt: HostRuntime) -> Result<(), Fail> {
    compare_events(
        &rt,
        rt.alloc(),
        false,
        4096,
        b"0 trigger 0\n0 route 0\n0 take 0\n0 route 0\n",
        "12291 0 trigger 0 -> 00 10 forward 4097\n12292 0 route 0 -> bus-full\n12293 0 take 0 -> present 0 0 backlogged\n12294 0 route 0 -> 4097 end 0 unwritten present\nend 12295\nsource 0 10 4097 4097\nqueue 0 vnb 0 0 00 00\nprocessor 0 saved 0x0 0x0 0x80\nring 0 0x0 0x0 0x0 0xff 0x0\nflight 4096\nnotices 0\ndone\n",
    )
}
