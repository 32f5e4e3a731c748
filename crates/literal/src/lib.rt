// Python literals: the bytes that one stands for. A contract says by a definition of `spec` that the answer is what the documents say;
// none is a bad literal. Any bytes may be given.
#![tactic(auto)]

ghost use Rattle.std.specs.Prelude.{◌≡◌, ◌+◌, ◌^◌, ◌<◌, length, option_map};
ghost use Rattle.std.proofs.lemmas.List.Edits.{sets};
ghost use Rattle.spec.specs.Literal.{escapes_of, inside, is_quote, quoted, read, literal};
ghost use Rattle.spec.specs.Utf8.{utf8_of};
ghost use Rattle.escapes.specs.Answers.{piece_of};
ghost use Rattle.literal.specs.Answers.{stored, ended, left};

use characters::Encoded;
use escapes::Piece;

// The UTF-8 of `point` goes to the places from `at` on, as far as there are any. The place behind it.
fn put_point(res: &mut [u8], at: usize, point: u32) -> usize
    requires { at < 2 ^ 63 }
    ensures { (result ≡ at + length (utf8_of point)) × (res.new ≡ sets res.old at (utf8_of point)) }
{
    let Encoded { bytes, len } = characters::encode(point);
    // Kept: `put` says `set`, by which `sets` is defined; `res.iter_mut().skip(at).zip(..)` says a run of cells.
    for (i, &b) in bytes[..len].iter().enumerate() {
        copies::put(res, at + i, b);
    }
    at + len
}

// The bytes of a piece go to the places from `at` on, as far as there are any. The place behind them.
fn put_piece(res: &mut [u8], at: usize, piece: Piece) -> usize
    requires { at < 2 ^ 63 }
    ensures { (result ≡ at + length (piece_of piece).bytes) × (res.new ≡ sets res.old at (piece_of piece).bytes) }
{
    match piece {
        Piece::Byte(b, _) => {
            copies::put(res, at, b);
            at + 1
        }
        Piece::Point(c, _) => put_point(res, at, c),
    }
}

// What stands between the quotes.
#[tactic(auto, using(crate::proofs::QuotedTurns::turns))]
fn inside(text: &[u8], quote: u8, in_bytes: bool, edition: u32, res: &mut [u8]) -> Option<usize>
    ensures { ended result res.new
        ≡ left res.old 0 (inside (escapes_of edition) in_bytes quote text.now 0) }
{
    let mut rest = text;
    let mut n = 0;
    while let Some((&b, behind)) = rest.split_first() {
        let piece = escapes::piece_at(b, behind, quote, in_bytes, edition)?;
        n = put_piece(res, n, piece);
        rest = &behind[piece.more()..];
    }
    Some(n)
}

// `'` or `"`.
fn is_quote(b: u8) -> bool
    ensures { result ≡ is_quote b }
{
    matches!(b, b'\'' | b'"')
}

// Quotes and what they hold.
#[tactic(auto, using(crate::proofs::QuotedTurns::quotes))]
fn quoted(text: &[u8], in_bytes: bool, edition: u32, res: &mut [u8]) -> Option<usize>
    ensures { ended result res.new ≡ left res.old 0 (quoted (escapes_of edition) in_bytes text.now) }
{
    let [quote, inner @ .., last] = text else {
        return None;
    };
    if !is_quote(*quote) || last != quote {
        return None;
    }
    inside(inner, *quote, in_bytes, edition, res)
}

/// The bytes that a Python literal stands for in an edition, written to `res` as far as they fit; how many there are, or that the
/// literal is bad. Of a bad literal the bytes before its first fault are written.
// Kept: no heap, and the length may pass what `res` holds, so that no part of it can stand for it.
pub fn parse_python_literal_into(text: &[u8], edition: u32, res: &mut [u8]) -> Option<usize>
    ensures answer { result ≡ option_map length (literal edition text.now) }
    ensures cells { res.new ≡ stored (read edition text.now).bytes res.old }
{
    match text.strip_prefix(b"b") {
        Some(quotes) => quoted(quotes, true, edition, res),
        None => quoted(text, false, edition, res),
    }
}
