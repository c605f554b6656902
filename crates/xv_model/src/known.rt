//! What is known of an account by what represents it.

ghost use Rattle.std.specs.Prelude.{◌≡◌, ◌<◌, ℕ, List};
ghost use Rattle.xv_model.specs.declared.entries.Entry.{Entry};
ghost use Rattle.xv_model.specs.account.Start.{Start};
ghost use Rattle.xv_model.specs.source.Pairs.{old_pair};
ghost use Rattle.xv_model.specs.source.Notices.{outstanding};
ghost use Rattle.xv_model.specs.source.Eas.{initialised};

/// What a line of several steps asks of the account so far.
pub trait Known {
    /// It knows this account, which goes on from this start record.
    ghost knows: { Self → Start → List Entry → Type 0 };

    /// It knows of the sources below this number.
    ghost sources: { Self → ℕ };

    /// How many notices of a source are outstanding.
    fn out(&self, s: u32) -> u64
        requires { s < sources self.now }
        ensures { (z : Start) (h : List Entry) → knows self.now z h → result ≡ outstanding z h s };

    /// Whether a source has a valid EAS.
    fn initialised(&self, s: u32) -> bool
        requires { s < sources self.now }
        ensures { (z : Start) (h : List Entry) → knows self.now z h → result ≡ initialised z h s };

    /// The pair that a source had before the last set of it.
    fn old_pair(&self, s: u32) -> u8
        requires { s < sources self.now }
        ensures value { (z : Start) (h : List Entry) → knows self.now z h → result ≡ old_pair z h s }
        ensures pair { result < 4 };
}

/// What represents a list of fabric entries that go on from a start record.
pub trait Stands {
    /// It represents these fabric entries, which go on from this start record.
    ghost stands: { Self → Start → List Entry → Type 0 };
}
