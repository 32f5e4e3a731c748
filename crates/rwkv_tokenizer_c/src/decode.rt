// Decoding: to bytes, to text, to lossy text.
ghost use Rattle.std.specs.Prelude.{length};
ghost use Rattle.spec.specs.Memory.{memory};
ghost use Rattle.spec.specs.Decode.{decode_on, decode_text_on, decode_lossy_on};
ghost use Rattle.reports.specs.Report.{Reported};

use memory::Memory;

// The bytes of the ids, written from out's start.
#[unsafe(no_mangle)]
pub extern "C" fn rwkv_decode(
    single: &[i32],
    offsets: &[u32],
    blob: &[u8],
    roots: &[u64],
    table: &[u64],
    ids: &[u32],
    out: &mut [u8],
    report: &mut [u64; 3],
) -> u32
    ensures { Reported (decode_on
        (memory single.now offsets.now blob.now roots.now table.now)
        (length out.old) ids.now) result report.new out.old out.new }
{
    let memory = Memory::new(single, offsets, blob, roots, table);
    rwkv_tokenizer::rwkv_decode(memory, ids, out, report)
}

// The same, and that the bytes are UTF-8.
#[unsafe(no_mangle)]
pub extern "C" fn rwkv_decode_utf8(
    single: &[i32],
    offsets: &[u32],
    blob: &[u8],
    roots: &[u64],
    table: &[u64],
    ids: &[u32],
    out: &mut [u8],
    report: &mut [u64; 3],
) -> u32
    ensures { Reported (decode_text_on
        (memory single.now offsets.now blob.now roots.now table.now)
        (length out.old) ids.now) result report.new out.old out.new }
{
    let memory = Memory::new(single, offsets, blob, roots, table);
    rwkv_tokenizer::rwkv_decode_utf8(memory, ids, out, report)
}

// Lossy text.
#[unsafe(no_mangle)]
pub extern "C" fn rwkv_decode_lossy(
    single: &[i32],
    offsets: &[u32],
    blob: &[u8],
    roots: &[u64],
    table: &[u64],
    ids: &[u32],
    out: &mut [u8],
    report: &mut [u64; 3],
) -> u32
    ensures { Reported (decode_lossy_on
        (memory single.now offsets.now blob.now roots.now table.now)
        (length out.old) ids.now) result report.new out.old out.new }
{
    let memory = Memory::new(single, offsets, blob, roots, table);
    rwkv_tokenizer::rwkv_decode_lossy(memory, ids, out, report)
}
