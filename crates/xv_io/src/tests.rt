//! What no clause says: that reads and writes succeed, how often the source is read, and what a full sink keeps.

ghost use Rattle.std.specs.Prelude.{◌≤◌};

use crate::{LineReader, MemSink, MemSource, Next, PIECE, ROOM, Writer};
use std::alloc::Global;
use std::test::Fail;
use xv_base::NoMemory;
use xv_base::limits::LONGEST_LINE;

/// The lines of bytes that come in pieces, each behind what `next` answered.
fn lines_in_pieces(alloc: Global, bytes: &[u8], piece: u32) -> Result<Vec<u8>, Fail>
    requires { 1 ≤ piece }
{
    let mut source = MemSource::new(bytes.to_vec(alloc)?, piece, Vec::new(alloc));
    let mut reader = LineReader::new();
    let mut lines = Vec::new(alloc);
    for _ in 0..1000 {
        match reader.next() {
            Next::Line => {
                lines.extend_from_slice(reader.line())?;
                lines.push(b'|')?;
            }
            Next::More => reader.fill(&mut source)?,
            Next::Long => {
                lines.push(b'L')?;
                break;
            }
            Next::TooMany | Next::End => break,
        }
    }
    Ok(lines)
}

#[test]
fn pieces_give_the_same_lines(rt: HostRuntime) -> Result<(), Fail> {
    for piece in [1, 7, 4096] {
        let lines = lines_in_pieces(rt.alloc(), b"first\r\n\nlast", piece)?;
        assert_eq!(rt; lines.as_slice(), b"first\r||last|".as_slice());
    }
    Ok(())
}

#[test]
fn a_line_has_256_bytes_at_most(rt: HostRuntime) -> Result<(), Fail> {
    let longest = lines_in_pieces(rt.alloc(), &[b'a'; LONGEST_LINE], 4096)?;
    assert_eq!(rt; longest.len(), 257);
    let longer = lines_in_pieces(rt.alloc(), &[b'a'; LONGEST_LINE + 1], 4096)?;
    assert_eq!(rt; longer.as_slice(), b"L".as_slice());
    Ok(())
}

/// Whether the lines of bytes come to their end where the source fails at one read.
fn comes_to_its_end(alloc: Global, bytes: &[u8], failing: u64) -> Result<bool, NoMemory> {
    let copy = bytes.to_vec(alloc)?;
    let mut source = MemSource::new(copy, 4096, vec![in alloc; failing]?);
    let mut reader = LineReader::new();
    for _ in 0..1000 {
        match reader.next() {
            Next::Line => {}
            Next::More => {
                if reader.fill(&mut source).is_err() {
                    return Ok(false);
                }
            }
            Next::Long | Next::TooMany => return Ok(false),
            Next::End => return Ok(true),
        }
    }
    Ok(false)
}

#[test]
fn the_source_is_not_read_after_its_end(rt: HostRuntime) -> Result<(), Fail> {
    for bytes in [b"one\nlast".as_slice(), b"one\n".as_slice()] {
        for (failing, ends) in [(0, false), (1, false), (2, true)] {
            assert_eq!(rt; comes_to_its_end(rt.alloc(), bytes, failing)?, ends);
        }
    }
    Ok(())
}

#[test]
fn a_full_sink_keeps_what_it_has(rt: HostRuntime) -> Result<(), Fail> {
    let mut sink = MemSink::new(rt.alloc(), 7, Vec::new(rt.alloc()))?;
    let mut writer = Writer::new();
    writer.gathered.try_extend_from_slice(b"first")?;
    writer.settle(&mut sink)?;
    assert!(rt; sink.held().is_empty());
    writer.flush(&mut sink)?;
    assert_eq!(rt; sink.held(), b"first".as_slice());
    writer.gathered.try_extend_from_slice(b"second")?;
    assert!(rt; writer.flush(&mut sink).is_err());
    assert_eq!(rt; sink.held(), b"firstse".as_slice());
    Ok(())
}

#[test]
fn a_piece_is_settled(rt: HostRuntime) -> Result<(), Fail> {
    let mut sink = MemSink::new(rt.alloc(), ROOM as u32, Vec::new(rt.alloc()))?;
    let mut writer = Writer::new();
    writer.gathered.try_extend_from_slice(&[b'a'; PIECE - 1])?;
    writer.settle(&mut sink)?;
    assert_eq!(rt; sink.held().len(), 0);
    writer.gathered.try_extend_from_slice(b"a")?;
    writer.settle(&mut sink)?;
    assert_eq!(rt; sink.held().len(), PIECE);
    Ok(())
}
