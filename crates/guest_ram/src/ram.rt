//! Memory of 4-byte words.

ghost use Rattle.std.specs.Prelude.{◌≡◌, ◌+◌, ◌*◌, ◌/◌, ◌%◌, ◌<◌, ◌≤◌, ℕ, IfOk, IsTrue, Some, length, replicate, slice_get, slice_set};
ghost use Rattle.xv_model.specs.board.Validity.{fits as fits_in};
ghost use Rattle.guest_ram.specs.Ram.{most_words, Zeroed};

use std::alloc::Global;
use std::marker::Model;
use xv_base::NoMemory;

/// The memory of a board, zero at the start. An address is in bytes, and all that is read and written are whole
/// words of 4 bytes, so an address is a multiple of 4. A word is the number that its bytes are in big-endian
/// order, as a POWER9's event queues have them.
#[derive(Drop)]
pub struct Ram {
    words: Vec<u32>,
}

impl Model for Ram {
    ghost use Rattle.std.specs.Prelude.{ℕ, List, ◌≤◌, vec_len};
    ghost use Rattle.guest_ram.specs.Ram.{most_words};

    ghost Value = { List ℕ };

    ghost view = { λ r. r.words.items };

    ghost invariant = { λ r. vec_len r.words ≤ most_words };
}

impl Ram {
    /// Memory of so many bytes, all zero: at most 64 MiB. May return `NoMemory`; no clause says when.
    pub fn new(alloc: Global, size: u64) -> Result<Ram, NoMemory>
        requires words { size % 4 ≡ 0 }
        requires few { size ≤ 4 * most_words }
        ensures { IfOk result (λ r. r ≡ replicate (size / 4) 0) }
    {
        Ok(Ram {
            words: vec![in alloc; 0; (size / 4) as usize]?,
        })
    }

    /// Whether some bytes are whole words, and lie in memory. No bytes do, where their address does.
    pub fn fits(&self, addr: u64, len: u64) -> bool
        ensures { result ≡ fits_in (4 * length self.now) addr len }
    {
        let size = 4 * self.words.len() as u64;
        addr % 4 == 0 && len % 4 == 0 && addr <= size && len <= size - addr
    }

    /// The word at an address.
    pub fn word(&self, addr: u64) -> u32
        requires { IsTrue (fits_in (4 * length self.now) addr 4) }
        ensures { slice_get self.now (addr / 4) ≡ Some result }
    {
        self.words[(addr / 4) as usize]
    }

    /// Writes the word at an address.
    pub fn put(&mut self, addr: u64, word: u32)
        requires { IsTrue (fits_in (4 * length self.old) addr 4) }
        ensures { self.new ≡ slice_set self.old (addr / 4) word }
    {
        self.words[(addr / 4) as usize] = word;
    }

    /// Makes the words of `len` bytes zero, from an address on.
    pub fn zero(&mut self, addr: u64, len: u64)
        requires { IsTrue (fits_in (4 * length self.old) addr len) }
        ensures { Zeroed self.old (addr / 4) (addr / 4 + len / 4) self.new }
    {
        let first = (addr / 4) as usize;
        for word in first..first + (len / 4) as usize {
            self.words[word] = 0;
        }
    }
}
