//! What a board's operations do to its memory.

ghost use Rattle.std.specs.Prelude.{◌≡◌, ◌∷◌, ℕ, List, length};
ghost use Rattle.xv_model.specs.declared.entries.Entry.{Entry};
ghost use Rattle.xv_model.specs.declared.operations.Op.TheVariants.{Zero};
ghost use Rattle.xv_model.specs.declared.outcomes.Outcome.TheVariants.{BadRange};
ghost use Rattle.xv_model.specs.account.Start.{Start};
ghost use Rattle.xv_model.specs.account.Outcomes.{IsWellFormed};
ghost use Rattle.xv_model.specs.end.Memory.{peek_outcome, zero_outcome};
ghost use Rattle.guest_ram.specs.Ram.{StandsFor};

use guest_ram::Ram;
use xv_model::outcomes::Outcome;

/// Looks at the word at an address: `BadRange` where no whole word of memory is there.
pub(crate) fn peek(ram: &Ram, addr: u64) -> Outcome
    ensures outcome { (z : Start) (h : List Entry)
        → StandsFor ram.now z h → result ≡ peek_outcome z h addr }
    ensures well_formed { IsWellFormed result }
{
    if ram.fits(addr, 4) {
        Outcome::Cell {
            word: ram.word(addr),
        }
    } else {
        Outcome::BadRange
    }
}

/// Makes `len` bytes zero, from an address on: `BadRange` where these aren't whole words of memory, and then
/// nothing changes.
pub(crate) fn zero(ram: &mut Ram, addr: u64, len: u64) -> Outcome
    ensures outcome { (z : Start) (h : List Entry)
        → StandsFor ram.old z h → result ≡ zero_outcome z.board addr len }
    ensures memory { (z : Start) (h : List Entry) (actor : ℕ) → StandsFor ram.old z h
        → StandsFor ram.new z
        (record { actor = actor; op = Zero addr len; outcome = result } ∷ h) }
    ensures refused { result ≡ BadRange → ram.new ≡ ram.old }
    ensures size { length ram.new ≡ length ram.old }
    ensures well_formed { IsWellFormed result }
{
    if !ram.fits(addr, len) {
        return Outcome::BadRange;
    }
    ram.zero(addr, len);
    Outcome::Fine
}
