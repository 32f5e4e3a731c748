// Characters: the code point of one's bytes, the bytes of a code point, White_Space and blank lines. Every public function takes any
// input, and its contract is an equation with a definition of `spec`.
#![tactic(auto)]

ghost use Rattle.std.specs.Prelude.{◌≡◌};
ghost use Rattle.spec.specs.Utf8.{utf8_of, point_of, white_space, blank};
ghost use Rattle.characters.specs.CharacterBytes.{encoded_as};

/// The White_Space characters of document 01.
// Kept: document 01 lists them, and any number may be asked; std's is_whitespace takes a char, by a table of its own.
#[tactic(auto, unfolding(spec::specs::Utf8::white_space, spec::specs::Utf8::white_ranges, spec::specs::Lists::any))]
pub fn is_white_space(c: u32) -> bool
    ensures { result ≡ white_space c }
{
    matches!(
        c,
        0x0009..=0x000d
            | 0x0020
            | 0x0085
            | 0x00a0
            | 0x1680
            | 0x2000..=0x200a
            | 0x2028
            | 0x2029
            | 0x202f
            | 0x205f
            | 0x3000
    )
}

// The code point of the bytes of one character; 0 if no character has so many.
// Kept: its caller hands it a character's bytes, so that an Option's None would be a branch that never comes.
fn point_of(bytes: &[u8]) -> u32
    ensures { result ≡ point_of bytes.now }
{
    match *bytes {
        [a] => u32::from(a),
        [a, b] => u32::from(a) % 32 * 64 + u32::from(b) % 64,
        [a, b, c] => u32::from(a) % 16 * 4096 + u32::from(b) % 64 * 64 + u32::from(c) % 64,
        [a, b, c, d] => {
            u32::from(a) % 8 * 262144
                + u32::from(b) % 64 * 4096
                + u32::from(c) % 64 * 64
                + u32::from(d) % 64
        }
        _ => 0,
    }
}

/// Whether a line has only White_Space characters, or none: refusal 3.
#[tactic(auto, using(crate::proofs::BlankTurns::blank_turns))]
pub fn is_blank(line: &[u8]) -> bool
    ensures { result ≡ blank line.now }
{
    let mut rest = line;
    while !rest.is_empty() {
        let utf8::Step::Char(n) = utf8::first_step(rest) else {
            return false;
        };
        let (first, behind) = rest.split_at(n);
        if !is_white_space(point_of(first)) {
            return false;
        }
        rest = behind;
    }
    true
}

/// The bytes of a character: `len` of them, and zeros.
// Kept: no heap, and a caller lends no room: the bytes, four at most, come by value, with how many there are.
#[derive(Clone, Copy)]
pub struct Encoded {
    pub bytes: [u8; 4],
    pub len: usize,
}

/// The bytes of the code point `c`; none for a surrogate or a number above 10FFFF.
pub fn encode(c: u32) -> Encoded
    ensures { result ≡ encoded_as (utf8_of c) }
{
    let mut bytes = [0; 4];
    let Some(c) = char::from_u32(c) else {
        return Encoded { bytes, len: 0 };
    };
    // Kept: std's encode_utf8 promises nothing of the cells behind the text, so its text is copied into zeros.
    let mut room = [0; 4];
    let text = c.encode_utf8(&mut room);
    bytes[..text.len()].copy_from_slice(text.as_bytes());
    Encoded {
        bytes,
        len: text.len(),
    }
}
