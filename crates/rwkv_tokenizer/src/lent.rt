// The running encoder: the caller holds the stream and lends it to each call, which changes it in place.
ghost use Rattle.std.specs.Prelude.{◌≡◌};
ghost use Rattle.memory.specs.Lent.{cells_of};
ghost use Rattle.spec.specs.Stream as spec;
ghost use Rattle.stream_record.specs.Answers.{record_of};
ghost use Rattle.reports.specs.Leaves.{Leaves};

use memory::Memory;
use stream_record::Stream;

/// The next piece: the ids that it decides, written from out's start. The report: count, offset, byte, bytes looked at for the ids.
pub fn rwkv_add(
    memory: Memory,
    stream: &mut Stream,
    piece: &[u8],
    out: &mut [u32],
    report: &mut [u64; 4],
) -> u32
    ensures { Leaves (spec.call_on
        (cells_of memory.entry)
        (record_of stream.old) (spec.add piece.now out.old))
        result report.new stream.new out.old out.new }
{
    reports::lent::add(memory, stream, piece, out, report)
}

/// The end of the stream: the ids of the held bytes.
pub fn rwkv_end(memory: Memory, stream: &mut Stream, out: &mut [u32], report: &mut [u64; 4]) -> u32
    ensures { Leaves (spec.call_on
        (cells_of memory.entry)
        (record_of stream.old) (spec.end out.old))
        result report.new stream.new out.old out.new }
{
    reports::lent::end(memory, stream, out, report)
}

/// A new stream.
pub fn rwkv_fresh(stream: &mut Stream)
    ensures { record_of stream.new ≡ spec.fresh }
{
    *stream = stream_record::fresh();
}
