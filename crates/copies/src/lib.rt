// The copy of a token's bytes to where they belong, and a value to its place in cells that may not reach so far.
#![tactic(auto)]

ghost use Rattle.std.specs.Prelude.{◌≡◌, ◌≤◌, length, set, take};

/// A token's bytes, the first `len` of `from`, to the front of `room`. What is behind them in `room` is free: later tokens come there.
/// So a short token is copied as sixteen bytes, one load and one store, wherever both have sixteen.
// Kept: sixteen bytes are read at once for speed, so that `from` goes on past the token and its length comes beside it.
pub fn copy_token(from: &[u8], len: usize, room: &mut [u8])
    requires { (len ≤ length from.now) × (len ≤ length room.old) }
    ensures { take len room.new ≡ take len from.now }
{
    if len <= 16 {
        if let (Some(chunk), Some(to)) = (from.first_chunk::<16>(), room.first_chunk_mut::<16>()) {
            *to = *chunk;
            return;
        }
    }
    copy_long(from, len, room);
}

// The same of a token that is longer, or has no sixteen bytes behind its start: sixteen at a time while it has so many, then one by one.
// Kept: what std's `copy_from_slice` becomes here calls memmove, and the archive for C asks for no name from outside but memcpy and memset.
fn copy_long(from: &[u8], len: usize, room: &mut [u8])
    requires { (len ≤ length from.now) × (len ≤ length room.old) }
    ensures { take len room.new ≡ take len from.now }
{
    let mut at = 0;
    while len - at >= 16 {
        put_block(&from[at..], &mut room[at..]);
        at += 16;
    }
    put_bytes(&from[at..], len - at, &mut room[at..]);
}

// The first sixteen bytes, by one load and one store.
fn put_block(from: &[u8], room: &mut [u8])
    requires { (16 ≤ length from.now) × (16 ≤ length room.old) }
    ensures { take 16 room.new ≡ take 16 from.now }
{
    if let (Some(chunk), Some(to)) = (from.first_chunk::<16>(), room.first_chunk_mut::<16>()) {
        *to = *chunk;
    }
}

// The first bytes, one by one.
fn put_bytes(from: &[u8], len: usize, room: &mut [u8])
    requires { (len ≤ length from.now) × (len ≤ length room.old) }
    ensures { take len room.new ≡ take len from.now }
{
    for k in 0..len {
        room[k] = from[k];
    }
}

/// `x` goes to the place `at`, if there is one.
pub fn put<T: Copy>(cells: &mut [T], at: usize, x: T)
    ensures { cells.new ≡ set cells.old at x }
{
    if at < cells.len() {
        cells[at] = x;
    }
}
