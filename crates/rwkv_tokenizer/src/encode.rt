// Whole encoding.
ghost use Rattle.std.specs.Prelude.{length};
ghost use Rattle.memory.specs.Lent.{cells_of};
ghost use Rattle.spec.specs.Encode.{encode_on, encode_looked};
ghost use Rattle.reports.specs.Report.{EncodeReported};

use memory::Memory;

/// The ids of src, written from out's start. The report: count, offset, byte, bytes looked at for the ids.
pub fn rwkv_encode(memory: Memory, src: &[u8], out: &mut [u32], report: &mut [u64; 4]) -> u32
    ensures { EncodeReported (encode_on (cells_of memory.entry) (length out.old) src.now)
        (encode_looked (cells_of memory.entry) (length out.old) src.now) result report.new out.old out.new }
{
    reports::encode::report_to(encoding::encode_sequential_bytes(memory, src, out), report)
}
