//! Numbers of sources, ENDs, processors, threads and actors that are in range on a board.

ghost use Rattle.std.specs.Prelude.{◌≡◌, ◌*◌, ◌^◌, ◌<◌, ◌≤◌, ◌↔◌, IsSome, IfSome};

use crate::limits::{ENDS_PER_PROCESSOR, Limits};
use std::marker::Model;

/// The number of a source. A contract sees it as that number.
#[derive(Clone, Copy, Debug, PartialEq, Eq)]
pub struct SourceNo {
    number: u32,
}

impl Model for SourceNo {
    ghost use Rattle.std.specs.Prelude.{ℕ};

    ghost Value = { ℕ };

    ghost view = { λ it. it.number };

    ghost inverse = { λ n. record { number = n } };
}

impl SourceNo {
    /// None: the board has no source of that number.
    pub fn new(n: u64, limits: &Limits) -> Option<SourceNo>
        ensures in_range { IsSome result ↔ (n < limits.now.sources) }
        ensures value { IfSome result (λ it. it ≡ n) }
    {
        if n < limits.sources as u64 {
            Some(SourceNo { number: n as u32 })
        } else {
            None
        }
    }

    /// The number.
    pub fn get(self) -> u32
        ensures { result ≡ self }
    {
        self.number
    }
}

/// The number of an END. A contract sees it as that number.
#[derive(Clone, Copy, Debug, PartialEq, Eq)]
pub struct EndNo {
    number: u32,
}

impl Model for EndNo {
    ghost use Rattle.std.specs.Prelude.{ℕ};

    ghost Value = { ℕ };

    ghost view = { λ it. it.number };

    ghost inverse = { λ n. record { number = n } };
}

impl EndNo {
    /// None: the board has no END of that number. It has ENDS_PER_PROCESSOR for each processor.
    pub fn new(n: u64, limits: &Limits) -> Option<EndNo>
        // So each number has 32 bits at most.
        requires { limits.now.processors ≤ 2 ^ 29 }
        ensures in_range { IsSome result ↔ (n < ENDS_PER_PROCESSOR * limits.now.processors) }
        ensures value { IfSome result (λ it. it ≡ n) }
    {
        if n < (ENDS_PER_PROCESSOR as u64) * (limits.processors as u64) {
            Some(EndNo { number: n as u32 })
        } else {
            None
        }
    }

    /// The number.
    pub fn get(self) -> u32
        ensures { result ≡ self }
    {
        self.number
    }
}

/// The number of a processor. A contract sees it as that number.
#[derive(Clone, Copy, Debug, PartialEq, Eq)]
pub struct VpNo {
    number: u32,
}

impl Model for VpNo {
    ghost use Rattle.std.specs.Prelude.{ℕ};

    ghost Value = { ℕ };

    ghost view = { λ it. it.number };

    ghost inverse = { λ n. record { number = n } };
}

impl VpNo {
    /// None: the board has no processor of that number.
    pub fn new(n: u64, limits: &Limits) -> Option<VpNo>
        ensures in_range { IsSome result ↔ (n < limits.now.processors) }
        ensures value { IfSome result (λ it. it ≡ n) }
    {
        if n < limits.processors as u64 {
            Some(VpNo { number: n as u32 })
        } else {
            None
        }
    }

    /// The number.
    pub fn get(self) -> u32
        ensures { result ≡ self }
    {
        self.number
    }
}

/// The number of a thread. A contract sees it as that number.
#[derive(Clone, Copy, Debug, PartialEq, Eq)]
pub struct ThreadNo {
    number: u32,
}

impl Model for ThreadNo {
    ghost use Rattle.std.specs.Prelude.{ℕ};

    ghost Value = { ℕ };

    ghost view = { λ it. it.number };

    ghost inverse = { λ n. record { number = n } };
}

impl ThreadNo {
    /// None: the board has no thread of that number.
    pub fn new(n: u64, limits: &Limits) -> Option<ThreadNo>
        ensures in_range { IsSome result ↔ (n < limits.now.threads) }
        ensures value { IfSome result (λ it. it ≡ n) }
    {
        if n < limits.threads as u64 {
            Some(ThreadNo { number: n as u32 })
        } else {
            None
        }
    }

    /// The number.
    pub fn get(self) -> u32
        ensures { result ≡ self }
    {
        self.number
    }
}

/// The number of an actor. A contract sees it as that number.
#[derive(Clone, Copy, Debug, PartialEq, Eq)]
pub struct ActorNo {
    number: u32,
}

impl Model for ActorNo {
    ghost use Rattle.std.specs.Prelude.{ℕ};

    ghost Value = { ℕ };

    ghost view = { λ it. it.number };

    ghost inverse = { λ n. record { number = n } };
}

impl ActorNo {
    /// None: the board has no actor of that number.
    pub fn new(n: u64, limits: &Limits) -> Option<ActorNo>
        ensures in_range { IsSome result ↔ (n < limits.now.actors) }
        ensures value { IfSome result (λ it. it ≡ n) }
    {
        if n < limits.actors as u64 {
            Some(ActorNo { number: n as u32 })
        } else {
            None
        }
    }

    /// The number.
    pub fn get(self) -> u32
        ensures { result ≡ self }
    {
        self.number
    }
}
