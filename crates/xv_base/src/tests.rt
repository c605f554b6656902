//! Each public function once, where it succeeds.

use crate::limits::{MOST_ACTORS, MOST_PROCESSORS, MOST_SOURCES, MOST_THREADS};
use crate::{ActorNo, EndNo, Limits, SourceNo, Status, ThreadNo, VpNo, Word};
use std::test::Fail;

#[test]
fn numbers_in_range(rt: HostRuntime) {
    let limits = Limits {
        sources: MOST_SOURCES,
        processors: MOST_PROCESSORS,
        threads: MOST_THREADS,
        actors: MOST_ACTORS,
    };
    assert_eq!(rt; SourceNo::new(8191, &limits).map(|s| s.get()), Some(8191));
    assert_eq!(rt; EndNo::new(511, &limits).map(|e| e.get()), Some(511));
    assert_eq!(rt; VpNo::new(63, &limits).map(|v| v.get()), Some(63));
    assert_eq!(rt; ThreadNo::new(31, &limits).map(|t| t.get()), Some(31));
    assert_eq!(rt; ActorNo::new(15, &limits).map(|a| a.get()), Some(15));
    assert_eq!(rt; EndNo::new(512, &limits).map(|e| e.get()), None);
}

#[test]
fn words_and_statuses(rt: HostRuntime) -> Result<(), Fail> {
    let word = Word::from_bytes(rt.alloc(), b"run")?;
    assert_eq!(rt; word.bytes(), b"run".as_slice());
    let statuses = [
        Status::Done,
        Status::Illegal,
        Status::Refused,
        Status::ReadFault,
        Status::WriteFault,
        Status::NoMemory,
        Status::Usage,
        Status::TooLong,
        Status::BadState,
    ];
    assert_eq!(rt;
        statuses.map(|status| status.number()),
        [0, 1, 2, 3, 4, 5, 6, 7, 9]
    );
    Ok(())
}
