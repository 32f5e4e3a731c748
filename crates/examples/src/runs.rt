// UTF-8 at its edges: how many bytes are good, and the same for a beginning and each last byte.
use cases::write_bytes;
use std::io;

// How many bytes there are before the first that is not UTF-8.
pub fn good(s: &[u8]) -> usize {
    utf8::first_bad(s).unwrap_or(s.len())
}

// Each last byte, with how many bytes are good if it follows `start`; none behind more than three.
fn good_with(start: &[u8], all: &mut [(u8, usize); 256]) {
    // Kept: an array and how much of it counts, since an array cannot run out of memory.
    let mut text = [0; 4];
    let count = start.len().min(3);
    text[..count].copy_from_slice(&start[..count]);
    for (cell, last) in all.iter_mut().zip(0..=255) {
        text[count] = last;
        let good = if start.len() > 3 {
            0
        } else {
            good(&text[..count + 1])
        };
        *cell = (last, good);
    }
}

// Each run of last bytes with which as many bytes are good: its ends, and how many are good.
pub fn runs_case(rt: &impl Print, start: &[u8]) -> io::Result<()> {
    // Kept: an array, since it cannot run out of memory, lent to be filled, since a result would be copied.
    let mut all = [(0, 0); 256];
    good_with(start, &mut all);
    for run in all.chunk_by(|a, b| a.1 == b.1) {
        if let (Some((low, good)), Some((high, _))) = (run.first(), run.last()) {
            write_bytes(rt, &[*low, *high])?;
            print!(rt; "{good}")?;
        }
    }
    Ok(())
}
