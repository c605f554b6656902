//! Where the entries of a queue lie, and their generations.

ghost use Rattle.std.specs.Prelude.{◌≡◌, ◌+◌, ◌*◌, ◌^◌, ◌<◌, ◌≤◌};
ghost use Rattle.xv_model.specs.end.Memory.{entries as entries_of, place as place_of, generation as generation_of};
ghost use Rattle.end_queue.specs.Ends.{IsSized};

use xv_model::operations::EndConfig;

/// How many entries a queue has, of 4 bytes each.
pub(crate) fn entries(config: &EndConfig) -> u64
    requires { IsSized config.now }
    ensures value { result ≡ entries_of config.now }
    ensures some { 0 < result }
    ensures most { result ≤ 2 ^ 22 }
{
    1 << (config.qshift - 2)
}

/// The address of the entry of a number: the queue wraps.
pub(crate) fn place(config: &EndConfig, number: u64) -> u64
    requires { IsSized config.now }
    ensures { result ≡ place_of config.now number }
{
    config.qaddr + 4 * (number % entries(config))
}

/// The generation of the entry of a number, which flips at each wrap.
pub(crate) fn generation(config: &EndConfig, number: u64) -> u32
    requires { IsSized config.now }
    ensures value { result ≡ generation_of config.now number }
    ensures bit { result < 2 }
{
    if number / entries(config) % 2 == 0 {
        1
    } else {
        0
    }
}
