// Runs streams over the memory of document 01's vocabulary V with one token more, 255 times x, and writes what each call answers, and the
// bytes looked at for its ids: the document's examples, a stream that holds 254 bytes, and calls that are refused. Then the bytes looked
// at alone: of pieces of aa over another vocabulary, of every cutting of some letters, and of matches in short strings. Then every string
// of seven letters a to d and bars, cut into pieces at its bars: how many give other ids or another refusal than the letters as a whole.
#![tactic(auto)]

ghost use Rattle.std.specs.Prelude.{◌≤◌, length};

use cases::write_ids;
use encoding::EncodeError;
use matching::{Match, Matched};
use memory::Memory;
use std::{fmt, io};
use stream_record::{ENDED, Stream, StreamError};
use tally::{NO_IDS, Tally};

// Why a call went no further.
#[derive(Clone, Copy, Debug, PartialEq, Eq)]
enum Refused {
    ShortMemory,
    NoToken { offset: u64, byte: u8 },
    Full,
    OutputShort,
    TooMany,
    Ended,
}

impl fmt::Display for Refused {
    // With document 01's number, and the place where no token begins.
    fn fmt<W: fmt::Write>(&self, f: &mut fmt::Formatter<W>) -> fmt::Result {
        match *self {
            Refused::ShortMemory => write!(f, "refused 1"),
            Refused::NoToken { offset, byte } => {
                write!(f, "refused 22 at {offset} byte {byte:02x}")
            }
            Refused::Full => write!(f, "refused 23"),
            Refused::OutputShort => write!(f, "refused 24"),
            Refused::TooMany => write!(f, "refused 25"),
            Refused::Ended => write!(f, "refused 26"),
        }
    }
}

// The ids that a call handed out, by their number and the bytes looked at, and why it went no further, if it did not.
#[derive(Clone, Copy, Debug, PartialEq, Eq)]
struct Outcome {
    given: Tally,
    refused: Option<Refused>,
}

impl Outcome {
    fn refused(given: Tally, by: Refused) -> Outcome {
        Outcome {
            given,
            refused: Some(by),
        }
    }

    // How many ids it handed out, and why it went no further.
    fn without_looked(self) -> (usize, Option<Refused>) {
        (self.given.count, self.refused)
    }
}

impl From<Result<Tally, StreamError>> for Outcome {
    fn from(answer: Result<Tally, StreamError>) -> Outcome {
        match answer {
            Ok(given) => Outcome {
                given,
                refused: None,
            },
            Err(StreamError::ShortMemory) => Outcome::refused(NO_IDS, Refused::ShortMemory),
            Err(StreamError::Ended) => Outcome::refused(NO_IDS, Refused::Ended),
            Err(StreamError::TooMany) => Outcome::refused(NO_IDS, Refused::TooMany),
            Err(StreamError::OutputShort) => Outcome::refused(NO_IDS, Refused::OutputShort),
            Err(
                StreamError::Stopped {
                    given,
                    offset,
                    byte,
                },
            ) => {
                let offset = u64::from(offset);
                Outcome::refused(given, Refused::NoToken { offset, byte })
            }
        }
    }
}

impl From<Result<Tally, EncodeError>> for Outcome {
    fn from(answer: Result<Tally, EncodeError>) -> Outcome {
        match answer {
            Ok(given) => Outcome {
                given,
                refused: None,
            },
            Err(EncodeError::ShortMemory) => Outcome::refused(NO_IDS, Refused::ShortMemory),
            Err(EncodeError::Full { given, .. }) => Outcome::refused(given, Refused::Full),
            Err(
                EncodeError::NoToken {
                    given,
                    offset,
                    byte,
                },
            ) => {
                let offset = offset as u64;
                Outcome::refused(given, Refused::NoToken { offset, byte })
            }
        }
    }
}

// A stream that is given these pieces, and then ended; its ids go to `ids`. Each call, by its piece or the word `end`, goes to `seen` with
// its outcome and the ids that it handed out. The whole has the ids and the bytes looked at of all calls, and the last one's refusal.
fn feed<F: FnMut(&[u8], Outcome, &[u32]) -> io::Result<()>>(
    memory: Memory,
    start: Stream,
    pieces: &[&[u8]],
    ids: &mut [u32],
    mut seen: F,
) -> io::Result<Outcome>
    requires { F.IsAlwaysCallable seen }
{
    let mut now = start;
    // Kept: without `n`, each turn ends in `(given, left) = mem::take(&mut left).split_at_mut(count)`, and the sum of the counts stays.
    let mut n = 0;
    let mut sum: u64 = 0;
    for piece in pieces {
        let called = stream::add(memory, now, piece, &mut ids[n..]);
        let outcome = Outcome::from(called.answer);
        let end = ids.len().min(n.saturating_add(outcome.given.count));
        seen(piece, outcome, &ids[n..end])?;
        now = called.stream;
        n = end;
        sum = sum.saturating_add(outcome.given.looked);
    }
    let called = stream::end(memory, now, &mut ids[n..]);
    let last = Outcome::from(called.answer);
    let count = ids.len().min(n.saturating_add(last.given.count));
    seen(b"end", last, &ids[n..count])?;
    let looked = sum.saturating_add(last.given.looked);
    Ok(Outcome {
        given: Tally { count, looked },
        ..last
    })
}

// A piece or the word end, the ids handed out, the refusal if there is one, and the bytes looked at for the ids.
fn say(rt: &impl Print, piece: &[u8], outcome: Outcome, ids: &[u32]) -> io::Result<()> {
    rt.write_all(piece)?;
    print!(rt; ":")?;
    write_ids(rt, ids)?;
    if let Some(refused) = outcome.refused {
        print!(rt; " {refused}")?;
    }
    let looked = outcome.given.looked;
    println!(rt; " looked {looked}")
}

// What each call of such a stream answers, one to a line; `ids` is its output.
fn show_into(
    rt: &impl Print,
    memory: Memory,
    start: Stream,
    pieces: &[&[u8]],
    ids: &mut [u32],
) -> io::Result<()> {
    feed(memory, start, pieces, ids, |piece, outcome, ids| {
        say(rt, piece, outcome, ids)
    })?;
    println!(rt)
}

// The same with an output that has room for all ids.
fn show(rt: &impl Print, memory: Memory, start: Stream, pieces: &[&[u8]]) -> io::Result<()> {
    show_into(rt, memory, start, pieces, &mut [0; 256])
}

// The document's examples; abc may go on to abcd, and c starts no token. A stopped stream says 22 again.
fn examples(rt: &impl Print, memory: Memory) -> io::Result<()> {
    let fresh = stream_record::fresh();
    show(rt, memory, fresh, &[b"ab", b"b", b"c"])?;
    show(rt, memory, fresh, &[b"abc"])?;
    show(rt, memory, fresh, &[b"c"])?;
    show(rt, memory, fresh, &[b"abcd", b"a", b"a", b"b"])?;
    show(rt, memory, fresh, &[b"abc", b"x", b"a"])
}

// 254 bytes are held: one x more makes a token, and anything else or the end stops the stream.
fn held(rt: &impl Print, memory: Memory) -> io::Result<()> {
    let fresh = stream_record::fresh();
    let long = [b'x'; 254];
    show(rt, memory, fresh, &[&long, b"x"])?;
    show(rt, memory, fresh, &[&long, b"a"])?;
    show(rt, memory, fresh, &[&long])
}

// A total too great (25), a record that holds more than it took (26), one that ended (26), an output too short (24), short memory (1).
fn refusals(rt: &impl Print, memory: Memory) -> io::Result<()> {
    let fresh = stream_record::fresh();
    let full = Stream {
        total: u32::MAX,
        ..fresh
    };
    show(rt, memory, full, &[b"a"])?;
    let over = Stream {
        held_len: 1,
        ..fresh
    };
    show(rt, memory, over, &[b"a"])?;
    let ended = Stream {
        phase: ENDED,
        ..fresh
    };
    show(rt, memory, ended, &[b"a"])?;
    show_into(rt, memory, fresh, &[b"aab", b"ab"], &mut [0; 2])?;
    let short = Memory {
        roots: &[],
        ..memory
    };
    show(rt, short, fresh, &[b"a"])
}

// What a whole encoding answers.
fn show_whole(rt: &impl Print, memory: Memory, src: &[u8]) -> io::Result<()> {
    let mut ids = [0; 16];
    let whole = Outcome::from(encoding::encode_sequential_bytes(memory, src, &mut ids));
    let end = ids.len().min(whole.given.count);
    say(rt, src, whole, &ids[..end])
}

// Over the vocabulary `1 'a' 1` the figures of pieces are not that of the whole.
fn pieces_of_aa(rt: &impl Print, memory: Memory) -> io::Result<()> {
    show_whole(rt, memory, b"aa")?;
    show(rt, memory, stream_record::fresh(), &[b"a", b"a"])
}

// Writes the items into the cells from their start, as far as there are both; the cells that were written.
// Kept: an array with a count in place of `collect`, since an array cannot run out of memory.
fn fill<T: Copy, I: Iterator<Item = T> + Drop>(cells: &mut [T], items: I) -> &[T]
    requires { I.can_next items }
{
    let mut n = 0;
    for (cell, item) in cells.iter_mut().zip(items) {
        *cell = item;
        n += 1;
    }
    &cells[..n]
}

// These letters with a bar behind each whose bit of `cuts` is 1, written into `cells` from their start.
// Kept: an array with a count in place of `push`, since an array cannot run out of memory.
fn with_bars<'a>(letters: &[u8; 8], cuts: u32, cells: &'a mut [u8; 16]) -> &'a [u8] {
    let mut n = 0;
    for (place, letter) in letters.iter().enumerate() {
        cells[n] = *letter;
        n += 1;
        if (cuts >> place) % 2 == 1 {
            cells[n] = b'|';
            n += 1;
        }
    }
    &cells[..n]
}

// Every cutting of these letters, with the bytes looked at of each of its calls.
fn cuttings(rt: &impl Print, memory: Memory, letters: &[u8; 8]) -> io::Result<()> {
    show_whole(rt, memory, letters)?;
    for cuts in 0..128u32 {
        let mut word_cells = [0; 16];
        let words = with_bars(letters, cuts, &mut word_cells);
        let mut piece_cells: [&[u8]; 8] = [&[]; 8];
        let pieces = fill(&mut piece_cells, words.split(|b| *b == b'|'));
        rt.write_all(words)?;
        print!(rt; ":")?;
        let fresh = stream_record::fresh();
        feed(memory, fresh, pieces, &mut [0; 8], |_, outcome, _| {
            let looked = outcome.given.looked;
            print!(rt; " {looked}")
        })?;
        println!(rt)?;
    }
    println!(rt)
}

// Whether a stream of this string's pieces gives other ids, or another refusal, than its letters as a whole.
fn differs(memory: Memory, words: &[u8; 7]) -> io::Result<bool> {
    let mut piece_cells: [&[u8]; 8] = [&[]; 8];
    let pieces = fill(&mut piece_cells, words.split(|b| *b == b'|'));
    let mut letter_cells = [0; 8];
    let letters = fill(
        &mut letter_cells,
        words.iter().copied().filter(|b| *b != b'|'),
    );
    let mut whole_ids = [0; 8];
    let encoded = encoding::encode_sequential_bytes(memory, letters, &mut whole_ids);
    let whole = Outcome::from(encoded);
    let mut cut_ids = [0; 8];
    let fresh = stream_record::fresh();
    let cut = feed(memory, fresh, pieces, &mut cut_ids, |_, _, _| Ok(()))?;
    Ok(whole.without_looked() != cut.without_looked() || whole_ids != cut_ids)
}

// The string of seven letters a to d and bars that code spells, five letters to a place.
fn spell(code: u32) -> [u8; 7] {
    let mut rest = code;
    let mut words = [0; 7];
    for word in words.iter_mut() {
        *word = b"abcd|"[(rest % 5) as usize];
        rest /= 5;
    }
    words
}

// How many of the strings with a code below `codes` differ.
fn differing(memory: Memory, codes: u32) -> io::Result<u32> {
    let mut n = 0;
    for code in 0..codes {
        if differs(memory, &spell(code))? {
            n += 1;
        }
    }
    Ok(n)
}

// What matching gives at the start of these bytes, if there are any.
fn matched(memory: Memory, bytes: &[u8]) -> Option<Matched> {
    if bytes.is_empty() || memory.single.len() < 256 || memory.roots.len() < 65536 {
        return None;
    }
    Some(matching::match_at(memory, bytes))
}

// Bytes, the token that they begin with, if there is one, and how many of them were looked at.
fn say_matched(rt: &impl Print, bytes: &[u8], found: Matched) -> io::Result<()> {
    rt.write_all(bytes)?;
    match found.longest {
        Some(Match { id, len }) => print!(rt; ": id {id} length {len}")?,
        None => print!(rt; ": no token")?,
    }
    let looked = found.looked;
    println!(rt; " looked {looked}")
}

// Of the strings of `len` letters, which are those with a code below `codes`, each that is looked at to its end, with its answer. How many
// of the others are answered otherwise than the bytes of them that are looked at.
fn matches(rt: &impl Print, memory: Memory, len: usize, codes: u32) -> io::Result<u32>
    requires { len ≤ 7 }
{
    let mut n = 0;
    for code in 0..codes {
        let word = spell(code);
        let bytes = &word[..len];
        let Some(found) = matched(memory, bytes) else {
            continue;
        };
        if found.looked >= len {
            say_matched(rt, bytes, found)?;
        } else if matched(memory, &bytes[..found.looked]) != Some(found) {
            n += 1;
        }
    }
    Ok(n)
}

// Every string of up to five letters a to d and bars; no token has a bar.
fn short_strings(rt: &impl Print, memory: Memory) -> io::Result<()> {
    for (len, codes) in [(1, 5), (2, 25), (3, 125), (4, 625), (5, 3125)] {
        let n = matches(rt, memory, len, codes)?;
        println!(rt; "{n} of {codes} are answered otherwise than what is looked at")?;
    }
    println!(rt)
}

// The offsets of a memory without a blob, all 0.
// Kept: an array, since an array cannot run out of memory; nothing is written into it, so that it need not lie on the stack.
static OFFSETS: [u32; 65537] = [0; 65537];

// The other cells of a memory; `main` has them once, and each vocabulary is written into them when it is wanted.
// Kept: arrays, since an array cannot run out of memory.
#[derive(Drop)]
struct Cells {
    single: [i32; 256],
    roots: [u64; 65536],
    table: [u64; 65280],
}

impl Cells {
    // The memory of V and of 255 times x, over cells that are empty or hold the other vocabulary.
    fn vocabulary(&mut self) -> Memory<'_> {
        self.single[0x61] = 1;
        self.single[0x62] = 2;
        self.roots[0x6162] = 0x16300000300;
        self.roots[0x6263] = 0x500;
        self.table[256] = 0x16500000063;
        self.table[257] = 0x464;
        chain(&mut self.roots, &mut self.table);
        self.memory()
    }

    // The memory of the vocabulary `1 'a' 1`, which has no table.
    fn only_a(&mut self) -> Memory<'_> {
        self.single.fill(-1);
        self.single[0x61] = 1;
        self.roots.fill(0);
        Memory {
            table: &[],
            ..self.memory()
        }
    }

    fn memory(&self) -> Memory<'_> {
        Memory {
            single: &self.single,
            offsets: &OFFSETS,
            blob: b"",
            roots: &self.roots,
            table: &self.table,
        }
    }
}

// The words of 255 times x: a node of n bytes has the base 256 n.
// Kept: roots and table, which have words, and not the other cells.
fn chain(roots: &mut [u64], table: &mut [u64])
    requires { (65536 ≤ length roots.old) × (65280 ≤ length table.old) }
{
    roots[0x7878] = 0x20000000000;
    // Kept: the word at 256 n has the base of n + 1, so that the number is wanted and no cell is passed over.
    for n in 2..254 {
        table[256 * n + 0x78] = base_word(n as u64 + 1);
    }
    table[65144] = 0x678;
}

// The word of a node of n bytes whose last is x, with no token.
fn base_word(n: u64) -> u64
    requires { n ≤ 256 }
{
    n * 0x10000000000 + 0x78
}

fn main(rt: HostRuntime) -> io::Result<()> {
    let mut cells = Cells {
        single: [-1; 256],
        roots: [0; 65536],
        table: [0; 65280],
    };
    let memory = cells.vocabulary();
    examples(&rt, memory)?;
    held(&rt, memory)?;
    refusals(&rt, memory)?;
    pieces_of_aa(&rt, cells.only_a())?;
    let memory = cells.vocabulary();
    cuttings(&rt, memory, b"abbcabcd")?;
    short_strings(&rt, memory)?;
    let codes = 78125;
    let n = differing(memory, codes)?;
    println!(rt; "{n} of {codes} cuttings differ from the whole")
}
