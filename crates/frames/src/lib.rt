// One frame a line: the kinds of lines, the digits and fields, the check byte, and the fields of a line that is read.
#![tactic(auto)]

ghost use Rattle.std.specs.Prelude.{◌≡◌};
ghost use Rattle.frames.specs.Kinds.{kind_of};

pub mod digits;
pub mod reading;

// The kinds of lines, each with its kind byte.
#[derive(Clone, Copy, Debug, PartialEq, Eq)]
pub enum Kind {
    // of a save in edition 1
    Head1 = 0x01,
    Node1 = 0x02,
    // of either edition
    End = 0x03,
    // of a save in edition 2
    Head2 = 0x04,
    Run = 0x05,
    Node2 = 0x06,
    // a forcing in one line
    Forcing = 0x10,
    // a forcing in lines: its elevation, and the wind of a node
    Elevation = 0x14,
    Wind = 0x15,
}

impl Kind {
    pub fn byte(self) -> u8
        ensures { result ≡ kind_of self }
    {
        self as u8
    }
}
