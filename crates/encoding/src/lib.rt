// Whole encoding, on any vocabulary memory, with the bytes looked at for the ids that it gives. The contract is an equation with
// definitions of `spec`.
#![tactic(auto)]

ghost use Rattle.std.specs.Prelude.{length};
ghost use Rattle.spec.specs.Encode.{encode_on, encode_looked};
ghost use Rattle.memory.specs.Lent.{cells_of};
ghost use Rattle.encoding.specs.Answers.{Answered};

use memory::Memory;
use tally::{NO_IDS, Tally};

// "It never uses output cells past the first 2^56 − 1": so many ids, each with at most 255 bytes looked at, add up below 2^64.
const USABLE: usize = 72057594037927935;

/// Why an encoding ends before its input does: number 1, number 22 and number 23, with the ids that stand.
#[derive(Clone, Copy, Debug, PartialEq, Eq)]
pub enum EncodeError {
    ShortMemory,
    NoToken {
        given: Tally,
        offset: usize,
        byte: u8,
    },
    Full {
        given: Tally,
        offset: usize,
    },
}

/// Writes the ids of the whole input from the output's start, and says how many they are and the bytes looked at for them.
pub fn encode_sequential_bytes(
    memory: Memory,
    src: &[u8],
    out: &mut [u32],
) -> Result<Tally, EncodeError>
    ensures { Answered (encode_on (cells_of memory.entry) (length out.old) src.now)
        (encode_looked (cells_of memory.entry) (length out.old) src.now) result out.old out.new }
{
    if memory.too_short() {
        return Err(EncodeError::ShortMemory);
    }
    let room = out.len().min(USABLE);
    let mut rest = src;
    let mut given = NO_IDS;
    while !rest.is_empty() {
        let matched = matching::match_at(memory, rest);
        let Some(found) = matched.longest else {
            let offset = src.len() - rest.len();
            let byte = rest[0];
            return Err(EncodeError::NoToken {
                given,
                offset,
                byte,
            });
        };
        if given.count >= room {
            let offset = src.len() - rest.len();
            return Err(EncodeError::Full { given, offset });
        }
        out[given.count] = found.id;
        given = given.with_one(matched.looked);
        rest = &rest[found.len..];
    }
    Ok(given)
}
