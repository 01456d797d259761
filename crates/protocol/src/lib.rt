// Command and answer frames: eight bytes each, the number high byte first.
#![tactic(auto)]

ghost use Rattle.std.specs.Prelude.{◌≡◌, ◌+◌, ◌≤◌, length, take, drop};
ghost use Rattle.std.proofs.Math.Seq.{paste};
ghost use Rattle.geometry.specs.Limits.{frame_size};
ghost use Rattle.protocol.specs.Frames.{frame_of_bytes, bytes_of_frame, command_in, answer_in, frame_of_command, frame_of_answer};
ghost use Rattle.protocol.specs.Frames.{command_of, bytes_of_answer};
ghost use Rattle.protocol.specs.Respond.{refused as refused_with, value_to};

use geometry::Record;

mod numbers;

pub use numbers::{Operation, Reason};

// A frame as it is sent: four bytes and a number.
#[derive(Clone, Copy, PartialEq, Eq)]
pub struct Frame {
    pub first: u8,
    pub second: u8,
    pub third: u8,
    pub fourth: u8,
    pub number: u32,
}

// A frame as a command. Its code is a byte, since any may come in: `Operation::try_from` reads it.
#[derive(Clone, Copy)]
pub struct Command {
    pub code: u8,
    pub name: u8,
    pub symbol: u8,
    pub fourth: u8,
    pub number: u32,
}

// A frame as an answer. Its status is 0 or a reason's number, and 255 where a line was no frame.
#[derive(Clone, Copy)]
pub struct Answer {
    pub status: u8,
    pub name: u8,
    pub symbol: u8,
    pub depth: u8,
    pub value: u32,
}

impl Frame {
    // The frame that the eight bytes from `at` on stand for.
    pub fn decode(bytes: &[u8], at: usize) -> Self
        requires { at + frame_size ≤ length bytes.now }
        ensures { result ≡ frame_of_bytes (take frame_size (drop at bytes.now)) }
    {
        Frame {
            first: bytes[at],
            second: bytes[at + 1],
            third: bytes[at + 2],
            fourth: bytes[at + 3],
            number: u32::from_be_bytes([
                bytes[at + 4],
                bytes[at + 5],
                bytes[at + 6],
                bytes[at + 7],
            ]),
        }
    }

    // Puts the frame's eight bytes into out, from `at` on.
    pub fn encode(self, out: &mut [u8], at: usize)
        requires { at + frame_size ≤ length out.old }
        ensures { out.new ≡ paste out.old at (bytes_of_frame self) frame_size }
    {
        // eight stores: copy_from_slice took twice the instructions of a frame read and put
        let [a, b, c, d, e, f, g, h] = self.bytes();
        out[at] = a;
        out[at + 1] = b;
        out[at + 2] = c;
        out[at + 3] = d;
        out[at + 4] = e;
        out[at + 5] = f;
        out[at + 6] = g;
        out[at + 7] = h;
    }

    // The frame's eight bytes.
    fn bytes(self) -> [u8; Record::FRAME_SIZE]
        ensures { result ≡ bytes_of_frame self }
    {
        let [a, b, c, d] = self.number.to_be_bytes();
        [self.first, self.second, self.third, self.fourth, a, b, c, d]
    }
}

impl From<Frame> for Command {
    ghost from_gives = { λ frame c. c ≡ command_in frame };

    fn from(frame: Frame) -> Self {
        Command {
            code: frame.first,
            name: frame.second,
            symbol: frame.third,
            fourth: frame.fourth,
            number: frame.number,
        }
    }
}

impl From<Command> for Frame {
    ghost from_gives = { λ c frame. frame ≡ frame_of_command c };

    fn from(c: Command) -> Self {
        Frame {
            first: c.code,
            second: c.name,
            third: c.symbol,
            fourth: c.fourth,
            number: c.number,
        }
    }
}

impl From<Frame> for Answer {
    ghost from_gives = { λ frame a. a ≡ answer_in frame };

    fn from(frame: Frame) -> Self {
        Answer {
            status: frame.first,
            name: frame.second,
            symbol: frame.third,
            depth: frame.fourth,
            value: frame.number,
        }
    }
}

impl From<Answer> for Frame {
    ghost from_gives = { λ a frame. frame ≡ frame_of_answer a };

    fn from(a: Answer) -> Self {
        Frame {
            first: a.status,
            second: a.name,
            third: a.symbol,
            fourth: a.depth,
            number: a.value,
        }
    }
}

impl Command {
    // The command that the eight bytes from `at` on stand for.
    pub fn decode(bytes: &[u8], at: usize) -> Self
        requires { at + frame_size ≤ length bytes.now }
        ensures { result ≡ command_of (take frame_size (drop at bytes.now)) }
    {
        Command::from(Frame::decode(bytes, at))
    }
}

impl Answer {
    // The answer to a command that tells a value alone.
    pub fn with_value(c: Command, value: u32) -> Self
        ensures { result ≡ value_to c value }
    {
        Answer {
            status: 0,
            name: c.name,
            symbol: 0,
            depth: 0,
            value,
        }
    }

    // The answer to a refused command.
    pub fn refused(c: Command, status: u8) -> Self
        ensures { result ≡ refused_with status c }
    {
        Answer {
            status,
            name: c.name,
            symbol: 0,
            depth: 0,
            value: 0,
        }
    }

    // Puts the answer's eight bytes into out, from `at` on.
    pub fn encode(self, out: &mut [u8], at: usize)
        requires { at + frame_size ≤ length out.old }
        ensures { out.new ≡ paste out.old at (bytes_of_answer self) frame_size }
    {
        Frame::from(self).encode(out, at);
    }
}
