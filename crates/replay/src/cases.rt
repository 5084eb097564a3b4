// A case of the list: its number, the words in front of its parts, and what they say.
ghost use Rattle.std.specs.Prelude.{◌≡◌, ◌+◌, ◌*◌, ◌<◌, ◌≤◌, length, get_or};
ghost use Rattle.octets.specs.Words.{words};
ghost use Rattle.replay.specs.Cases.{call_of, expected_of};

use answers::Answer;
use std::io::Stdout;

// The calls of the key service that a case can name.
#[derive(Clone, Copy)]
pub enum Call {
    Lower,
    Settle,
    FreeVars,
}

// The call by its number in the list. Behind the list's end all words are 0, which names none.
impl TryFrom<usize> for Call {
    type Error = ();

    ghost try_from_gives = { λ number call. call ≡ call_of number };

    fn try_from(number: usize) -> Result<Call, ()> {
        match number {
            0 => Err(()),
            1 => Ok(Call::Lower),
            2 => Ok(Call::Settle),
            _ => Ok(Call::FreeVars),
        }
    }
}

// What is read of one part at most: a little less than its buffer holds, since a part may be padded.
const PART: usize = 65533;

const PART_WORDS: usize = 16383;

// What can be lent of output and scratch.
pub const ROOM: usize = 66048;

// What the twelve words in front of a case's parts say: its call, if there is a case; how many bytes are lent of each slice, and how many words are written of
// the output, but no more than there is room for; and the answer that it has.
#[derive(Clone, Copy)]
pub struct Front {
    pub call: Option<Call>,
    pub signature: usize,
    pub rule: usize,
    pub counters: usize,
    pub output: usize,
    pub scratch: usize,
    pub written: usize,
    pub expected: Answer,
    ghost read: { (signature ≤ 65533) × (rule ≤ 65533) × (counters ≤ 65533) × (written ≤ 16383) },
    ghost lent: { (output ≤ 66048) × (scratch ≤ 66048) },
}

// A case, and where its differences are printed.
#[derive(Clone, Copy)]
pub struct Case {
    pub number: usize,
    pub front: Front,
    pub out: Stdout,
}

// The word at an index, as a number to reckon with.
pub fn number(bytes: &[u8], at: usize) -> usize
    requires { 4 * at + 4 ≤ length bytes.now }
    ensures { (result ≡ get_or (words bytes.now) at 0) × (result < 4294967296) }
{
    octets::get(bytes, at) as usize
}

// The answer that a case has, by the words in front of its parts.
fn expected(front: &[u8; 48]) -> Answer
    ensures { result ≡ expected_of (words front.now) }
{
    Answer {
        number: number(front, 7) as u64,
        place: number(front, 8) as u64,
        words: number(front, 9) as u64,
        replacements: number(front, 10) as u64,
        passes: number(front, 11) as u64,
    }
}

// The first word, how many follow, is passed over: the others say it.
impl From<[u8; 48]> for Front {
    ghost use Rattle.replay.specs.Fronts.{FrontOf};

    ghost from_gives = { λ bytes front. FrontOf (words bytes) front };

    fn from(front: [u8; 48]) -> Front {
        Front {
            call: Call::try_from(number(&front, 1)).ok(),
            signature: number(&front, 2).min(PART),
            rule: number(&front, 3).min(PART),
            counters: number(&front, 4).min(PART),
            output: number(&front, 5).min(ROOM),
            scratch: number(&front, 6).min(ROOM),
            written: number(&front, 9).min(PART_WORDS),
            expected: expected(&front),
        }
    }
}
