// Decodings over small memory, with every cell of the output shown.
use crate::lent::Cells;
use cases::{read_ids, write_bytes};
use decoding::DecodeError;
use memory::Memory;
use std::{fmt, io};

// A decoding's answer.
#[derive(Drop)]
struct Decoded(Result<usize, DecodeError>);

impl fmt::Display for Decoded {
    fn fmt<W: fmt::Write>(&self, f: &mut fmt::Formatter<W>) -> fmt::Result {
        match self.0 {
            Ok(len) => write!(f, "{len}"),
            Err(DecodeError::ShortMemory) => write!(f, "refused 1"),
            Err(DecodeError::Absent { len, index, id }) => {
                write!(f, "{len} refused 27 at {index} id {id}")
            }
            Err(DecodeError::Full { len, index }) => write!(f, "{len} refused 28 at {index}"),
            Err(DecodeError::NotUtf8 { len, offset }) => write!(f, "{len} refused 29 at {offset}"),
        }
    }
}

// A byte for the memory, 0 for V, 1 for V with one cell of the offsets too few, else single bytes; one for how many cells of output there
// are; and the ids. The answer of `decode`, and every cell of the output: `.` where nothing was written.
pub fn decode_case<F: FnOnce(Memory<'_>, &[u32], &mut [u8]) -> Result<usize, DecodeError>>(
    rt: &impl Print,
    cells: &mut Cells,
    case: &[u8],
    decode: F,
) -> io::Result<()>
    requires { F.IsAlwaysCallable decode }
{
    let [which, room, spelled @ ..] = case else {
        return Ok(());
    };
    let memory = match which {
        0 => cells.v(false),
        1 => cells.v(true),
        _ => cells.bytes(),
    };
    // Kept: arrays and how much of them counts, since an array cannot run out of memory.
    let mut ids = [0; 16];
    let count = read_ids(spelled, &mut ids);
    let mut all = [b'.'; 256];
    let out = &mut all[..usize::from(*room)];
    let decoded = Decoded(decode(memory, &ids[..count], &mut *out));
    print!(rt; "{decoded} ")?;
    write_bytes(rt, out)
}
