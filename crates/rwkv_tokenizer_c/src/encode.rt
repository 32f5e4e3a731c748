// Whole encoding.
ghost use Rattle.std.specs.Prelude.{length};
ghost use Rattle.spec.specs.Memory.{memory};
ghost use Rattle.spec.specs.Encode.{encode_on, encode_looked};
ghost use Rattle.reports.specs.Report.{EncodeReported};

use memory::Memory;

// The ids of src, written from out's start. The report: count, offset, byte, bytes looked at for the ids.
#[unsafe(no_mangle)]
pub extern "C" fn rwkv_encode(
    single: &[i32],
    offsets: &[u32],
    blob: &[u8],
    roots: &[u64],
    table: &[u64],
    src: &[u8],
    out: &mut [u32],
    report: &mut [u64; 4],
) -> u32
    ensures { EncodeReported
        (encode_on (memory single.now offsets.now blob.now roots.now table.now) (length out.old) src.now)
        (encode_looked (memory single.now offsets.now blob.now roots.now table.now) (length out.old) src.now)
        result report.new out.old out.new }
{
    let memory = Memory::new(single, offsets, blob, roots, table);
    rwkv_tokenizer::rwkv_encode(memory, src, out, report)
}
