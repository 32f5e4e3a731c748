// The running encoder: the caller holds the stream and lends it to each call, which changes it in place.
ghost use Rattle.std.specs.Prelude.{◌≡◌};
ghost use Rattle.spec.specs.Memory.{memory};
ghost use Rattle.spec.specs.Stream as spec;
ghost use Rattle.stream_record.specs.Answers.{record_of};
ghost use Rattle.reports.specs.Leaves.{Leaves};

use memory::Memory;
use stream_record::Stream;

// The next piece: the ids that it decides, written from out's start. The report: count, offset, byte, bytes looked at for the ids.
#[unsafe(no_mangle)]
pub extern "C" fn rwkv_add(
    single: &[i32],
    offsets: &[u32],
    blob: &[u8],
    roots: &[u64],
    table: &[u64],
    stream: &mut Stream,
    piece: &[u8],
    out: &mut [u32],
    report: &mut [u64; 4],
) -> u32
    ensures { Leaves (spec.call_on
        (memory single.now offsets.now blob.now roots.now table.now)
        (record_of stream.old) (spec.add piece.now out.old))
        result report.new stream.new out.old out.new }
{
    let memory = Memory::new(single, offsets, blob, roots, table);
    rwkv_tokenizer::rwkv_add(memory, stream, piece, out, report)
}

// The end of the stream: the ids of the held bytes.
#[unsafe(no_mangle)]
pub extern "C" fn rwkv_end(
    single: &[i32],
    offsets: &[u32],
    blob: &[u8],
    roots: &[u64],
    table: &[u64],
    stream: &mut Stream,
    out: &mut [u32],
    report: &mut [u64; 4],
) -> u32
    ensures { Leaves (spec.call_on
        (memory single.now offsets.now blob.now roots.now table.now)
        (record_of stream.old) (spec.end out.old))
        result report.new stream.new out.old out.new }
{
    let memory = Memory::new(single, offsets, blob, roots, table);
    rwkv_tokenizer::rwkv_end(memory, stream, out, report)
}

// A new stream.
#[unsafe(no_mangle)]
pub extern "C" fn rwkv_fresh(stream: &mut Stream)
    ensures { record_of stream.new ≡ spec.fresh }
{
    rwkv_tokenizer::rwkv_fresh(stream);
}
