// The text of a refusal, as the printing program prints it.
#![tactic(auto)]

ghost use Rattle.std.specs.Prelude.{◌≡◌};
ghost use Rattle.refusals.specs.Refusals.{refusal, words};
ghost use Rattle.refusals.specs.Private.{joined};

use rows::Answer;

// Room for every refusal.
const ROOM: usize = 53;

// A text while it is printed: its bytes, 0 past its length.
#[derive(Drop)]
pub struct Words {
    pub bytes: [u8; ROOM],
    pub len: usize,
}

// The text with `part` after it; unchanged where there is no room.
fn with(mut text: Words, part: &[u8]) -> Words
    ensures { result ≡ joined text part.now }
{
    let at = text.len;
    let n = part.len();
    if n > ROOM || at > ROOM - n {
        return text;
    }
    text.bytes[at..at + n].copy_from_slice(part);
    text.len = at + n;
    text
}

// `refused R at P` and a line feed.
pub fn refusal(answer: Answer) -> Words
    ensures { result ≡ words (refusal answer) }
{
    let mut number = [0u8; 20];
    let mut place = [0u8; 20];
    let r = io::decimal(answer.number as u64, &mut number);
    let p = io::decimal(answer.place as u64, &mut place);
    let text = Words {
        bytes: [0u8; ROOM],
        len: 0,
    };
    let text = with(text, b"refused ");
    let text = with(text, &number[..r]);
    let text = with(text, b" at ");
    let text = with(text, &place[..p]);
    with(text, b"\n")
}
