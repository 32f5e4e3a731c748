// A token by value: its id and its 1 to 255 bytes.
#![tactic(auto)]

ghost use Rattle.std.specs.Prelude.{ℕ, ◌≤◌, ◌<◌, length, get_or};

/// A token: its id, and its bytes where they stand. "token empty" is 13, and 255 bytes are the most.
#[derive(Clone, Copy)]
pub struct Entry<'a> {
    pub id: u16,
    pub bytes: &'a [u8],
    pub ghost some: { 1 ≤ length bytes.now },
    pub ghost short: { length bytes.now ≤ 255 },
    // `u8` says this of a slice that is passed, but not of one in a field.
    pub ghost fits: { (k : ℕ) → get_or bytes.now k 0 < 256 },
}
