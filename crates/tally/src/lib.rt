// Ids that were given, by their number and the bytes looked at for them.
#![tactic(auto)]

ghost use Rattle.std.specs.Prelude.{◌≡◌, ◌+◌, ◌≤◌};

/// How many ids were given, and how many bytes were looked at for them in all.
#[derive(Clone, Copy, Debug, PartialEq, Eq)]
pub struct Tally {
    pub count: usize,
    pub looked: u64,
}

/// Before the first id.
pub const NO_IDS: Tally = Tally {
    count: 0,
    looked: 0,
};

impl Tally {
    /// With one id more, for which so many bytes were looked at.
    pub fn with_one(self, looked: usize) -> Tally
        requires { (self.count + 1 ≤ 18446744073709551615) × (self.looked + looked ≤ 18446744073709551615) }
        ensures { result ≡ record { count = self.count + 1; looked = self.looked + looked } }
    {
        Tally {
            count: self.count + 1,
            looked: self.looked + looked as u64,
        }
    }

    /// With the ids of another behind its own.
    pub fn with(self, more: Tally) -> Tally
        requires { (self.count + more.count ≤ 18446744073709551615) × (self.looked + more.looked ≤ 18446744073709551615) }
        ensures { result ≡ record { count = self.count + more.count; looked = self.looked + more.looked } }
    {
        Tally {
            count: self.count + more.count,
            looked: self.looked + more.looked,
        }
    }
}
