//! Memory at its bounds.

use crate::Ram;
use std::process::Abort;
use std::test::Fail;

/// The word at an address, after the memory was asked whether it has that.
fn word(rt: &impl Abort, ram: &Ram, addr: u64) -> u32 {
    assert!(rt; ram.fits(addr, 4));
    ram.word(addr)
}

fn put(rt: &impl Abort, ram: &mut Ram, addr: u64, word: u32) {
    assert!(rt; ram.fits(addr, 4));
    ram.put(addr, word);
}

fn zero(rt: &impl Abort, ram: &mut Ram, addr: u64, len: u64) {
    assert!(rt; ram.fits(addr, len));
    ram.zero(addr, len);
}

/// Writes into each of so many words the number of that word, counted from 1.
fn fill(rt: &impl Abort, ram: &mut Ram, words: u32) {
    for number in 0..words {
        put(rt, ram, 4 * number as u64, number + 1);
    }
}

/// The first six words.
fn words(rt: &impl Abort, ram: &Ram) -> [u32; 6] {
    let mut words = [0; 6];
    for number in 0..6 {
        words[number as usize] = word(rt, ram, 4 * number);
    }
    words
}

#[test]
fn zero_at_the_start(rt: HostRuntime) -> Result<(), Fail> {
    let ram = Ram::new(rt.alloc(), 24)?;
    assert_eq!(rt; words(&rt, &ram), [0; 6]);
    assert!(rt; !ram.fits(24, 4));
    Ok(())
}

#[test]
fn words_that_are_put(rt: HostRuntime) -> Result<(), Fail> {
    let mut ram = Ram::new(rt.alloc(), 24)?;
    put(&rt, &mut ram, 0, 0x8000_0001);
    put(&rt, &mut ram, 20, u32::MAX);
    put(&rt, &mut ram, 8, 7);
    put(&rt, &mut ram, 8, 0x0102_0304);
    assert_eq!(rt;
        words(&rt, &ram),
        [0x8000_0001, 0, 0x0102_0304, 0, 0, u32::MAX]
    );
    Ok(())
}

#[test]
fn parts_that_are_zeroed(rt: HostRuntime) -> Result<(), Fail> {
    let mut ram = Ram::new(rt.alloc(), 24)?;
    fill(&rt, &mut ram, 6);
    zero(&rt, &mut ram, 8, 8);
    assert_eq!(rt; words(&rt, &ram), [1, 2, 0, 0, 5, 6]);
    zero(&rt, &mut ram, 16, 0);
    zero(&rt, &mut ram, 24, 0);
    assert_eq!(rt; words(&rt, &ram), [1, 2, 0, 0, 5, 6]);
    zero(&rt, &mut ram, 0, 24);
    assert_eq!(rt; words(&rt, &ram), [0; 6]);
    Ok(())
}

#[test]
fn bytes_that_fit(rt: HostRuntime) -> Result<(), Fail> {
    let ram = Ram::new(rt.alloc(), 24)?;
    for (addr, len, fits) in [
        (0, 24, true),
        (20, 4, true),
        (24, 0, true),
        (20, 8, false),
        (24, 4, false),
        (28, 0, false),
        (2, 4, false),
        (0, 6, false),
        (0, 28, false),
        (u64::MAX - 3, 4, false),
        (4, u64::MAX - 3, false),
        (u64::MAX - 3, 28, false),
    ] {
        assert_eq!(rt; ram.fits(addr, len), fits, "{len} bytes at {addr}");
    }
    Ok(())
}

#[test]
fn the_largest_memory(rt: HostRuntime) -> Result<(), Fail> {
    let mut ram = Ram::new(rt.alloc(), 64 << 20)?;
    let last = (64 << 20) - 4;
    put(&rt, &mut ram, last, 9);
    assert_eq!(rt; word(&rt, &ram, last), 9);
    zero(&rt, &mut ram, 0, last);
    assert_eq!(rt; word(&rt, &ram, last), 9);
    assert!(rt; !ram.fits(last, 8));
    Ok(())
}
