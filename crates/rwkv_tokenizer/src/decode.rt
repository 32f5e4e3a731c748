// Decoding: to bytes, to text, to lossy text.
// Kept: these are the names that C links; each is one call, and the decoding, of its own contract, is all that differs.
ghost use Rattle.std.specs.Prelude.{length};
ghost use Rattle.memory.specs.Lent.{cells_of};
ghost use Rattle.spec.specs.Decode.{decode_on, decode_text_on, decode_lossy_on};
ghost use Rattle.reports.specs.Report.{Reported};

use memory::Memory;
use reports::report::Answer;

/// The bytes of the ids, written from out's start.
pub fn rwkv_decode(memory: Memory, ids: &[u32], out: &mut [u8], report: &mut [u64; 3]) -> u32
    ensures { Reported (decode_on
        (cells_of memory.entry)
        (length out.old) ids.now) result report.new out.old out.new }
{
    Answer::from(decoding::decode_bytes(memory, ids, out)).report_to(report)
}

/// The same, and that the bytes are UTF-8.
pub fn rwkv_decode_utf8(memory: Memory, ids: &[u32], out: &mut [u8], report: &mut [u64; 3]) -> u32
    ensures { Reported (decode_text_on
        (cells_of memory.entry)
        (length out.old) ids.now) result report.new out.old out.new }
{
    Answer::from(decoding::decode_utf8(memory, ids, out)).report_to(report)
}

/// Lossy text.
pub fn rwkv_decode_lossy(memory: Memory, ids: &[u32], out: &mut [u8], report: &mut [u64; 3]) -> u32
    ensures { Reported (decode_lossy_on
        (cells_of memory.entry)
        (length out.old) ids.now) result report.new out.old out.new }
{
    Answer::from(lossy::decode_lossy(memory, ids, out)).report_to(report)
}
