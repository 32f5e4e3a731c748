// Small vocabulary memory.
use memory::Memory;

// The cells that are lent. `single` and roots play no part but in number 1.
// Kept: as the cells of `streams`, with another part left out and other makers. Arrays that `main` owns, since an array cannot run out of
// memory; so a maker writes over what another left.
#[derive(Drop)]
pub struct Cells<'a> {
    pub single: &'a [i32],
    pub offsets: &'a mut [u32; 65537],
    pub blob: &'a mut [u8; 256],
    pub roots: &'a [u64],
}

impl Cells<'_> {
    // No token, whatever the offsets are, since the blob is empty.
    pub fn empty(&self, short: bool) -> Memory<'_> {
        self.lend(&[], short)
    }

    // Document 01's vocabulary V.
    pub fn v(&mut self, short: bool) -> Memory<'_> {
        put_v(&mut *self.offsets);
        self.lend(b"abababcdbc", short)
    }

    // Each of the ids below 256 is the byte of that number.
    pub fn bytes(&mut self) -> Memory<'_> {
        put_bytes(&mut *self.offsets, &mut *self.blob);
        self.lend(&*self.blob, false)
    }

    // The memory with this blob, and with one cell of the offsets too few if it is to be short.
    fn lend<'b>(&'b self, blob: &'b [u8], short: bool) -> Memory<'b> {
        let offsets = &*self.offsets;
        let count = offsets.len() - usize::from(short);
        Memory {
            single: self.single,
            offsets: &offsets[..count],
            blob,
            roots: self.roots,
            table: &[],
        }
    }
}

// Kept: two functions of the arrays, since in the methods writing behind two references is not proved.

// The offsets of V.
fn put_v(offsets: &mut [u32; 65537]) {
    offsets.fill(10);
    offsets[..6].copy_from_slice(&[0, 0, 1, 2, 4, 8]);
}

// The offsets and the blob of single bytes.
fn put_bytes(offsets: &mut [u32; 65537], blob: &mut [u8; 256]) {
    offsets.fill(256);
    for ((offset, byte), id) in offsets.iter_mut().zip(blob.iter_mut()).zip(0..=255) {
        *offset = u32::from(id);
        *byte = id;
    }
}
