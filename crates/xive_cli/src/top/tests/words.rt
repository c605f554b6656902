//! Words that are no command: nothing is read or written.

use super::SMALLEST;
use crate::top::run_top;
use std::test::Fail;
use xv_base::{Status, Word};
use xv_io::{MemSink, MemSource};

#[test]
fn words(rt: HostRuntime) -> Result<(), Fail> {
    let alloc = rt.alloc();
    for text in [b"run run".as_slice(), b"", b"check", b"runs", b"RUN"] {
        let mut words = Vec::new(alloc);
        for word in text.split(|byte| *byte == b' ') {
            if !word.is_empty() {
                words.push(Word::from_bytes(alloc, word)?)?;
            }
        }
        let mut source = MemSource::new(SMALLEST.to_vec(alloc)?, 4096, Vec::new(alloc));
        let mut sink = MemSink::new(alloc, 1 << 16, Vec::new(alloc))?;
        let status = run_top(alloc, words.as_slice(), &mut source, &mut sink);
        assert_eq!(rt; status, Status::Usage);
        assert!(rt; sink.held().is_empty());
    }
    Ok(())
}
