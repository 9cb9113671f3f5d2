// What may be repeated: a letter for each call, and one call of each.
use blocks::Store;
use rules::{Answer, Pod, Refusal};

// One enum of what is asked, matched once: each call is lent other things and gives another answer.
#[derive(Clone, Copy, PartialEq, Eq)]
pub enum Call {
    Packet,
    Put,
    Deadline,
    Command,
    In,
    Out,
    Status,
    Byte,
    Timeout,
    Taken,
    Samples,
    Sum,
}

pub fn call_of(letter: u8) -> Option<Call> {
    match letter {
        b'P' => Some(Call::Packet),
        b'B' => Some(Call::Put),
        b'D' => Some(Call::Deadline),
        b'C' => Some(Call::Command),
        b'W' => Some(Call::In),
        b'R' => Some(Call::Out),
        b'S' => Some(Call::Status),
        b'I' => Some(Call::Byte),
        b'T' => Some(Call::Timeout),
        b'O' | b'K' => Some(Call::Taken),
        b'A' => Some(Call::Samples),
        b'Y' => Some(Call::Sum),
        _ => None,
    }
}

impl Call {
    // Whether it is a table word.
    pub fn is_word(self) -> bool {
        matches!(self, Call::Command | Call::In | Call::Out | Call::Status)
    }
}

// What is lent to the calls, and a byte of what a call before showed.
#[derive(Drop)]
pub struct Lent {
    pub message: [u8; 258],
    pub room: [u8; 260],
    pub priority: [u8; 4096],
    pub ordinary: [u8; 32768],
    pub load: [u16; 64],
    pub five: [u16; 64],
    pub six: [u16; 128],
    pub seven: [u16; 64],
    pub byte: u8,
}

// The words of a right load of 64 to table 6: its number, the address, the count, then data.
fn load_word(turn: usize) -> u16 {
    match turn {
        0 => 6,
        1 => 0,
        2 => 61,
        _ => (turn % 0x1_0000) as u16,
    }
}

impl Lent {
    fn packet(&mut self, pod: &mut Pod, bytes: &[u8]) -> Result<usize, Refusal> {
        pod::packet(
            pod,
            bytes,
            &mut self.room,
            &self.priority,
            &self.ordinary,
            &mut self.five,
            &mut self.six,
            &mut self.seven,
        )
    }

    pub fn command(&mut self, pod: &mut Pod, word: u16) -> Result<(), Refusal> {
        pod::command_word(pod, word, &mut self.five, &mut self.six, &mut self.seven)
    }

    fn data_in(&mut self, pod: &mut Pod, word: u16) -> Result<(), Refusal> {
        pod::data_in(
            pod,
            word,
            &mut self.load,
            &mut self.five,
            &mut self.six,
            &mut self.seven,
        )
    }

    // Of nine calls with a timeout the first is a packet out and the ninth the timeout, which finds seven bytes gathered and
    // eight in hand.
    fn timeout(&self, pod: &mut Pod, turn: usize) -> Result<(), Refusal> {
        let _sent = match turn % 9 {
            0 => pod::packet_out(pod, &[self.byte; 8])?,
            8 => pod::pipe_timeout(pod)?,
            _ => pod::pipe_byte(pod, self.byte)?,
        };
        Ok(())
    }

    // Of nine calls of the output half the first is a packet out, and eight bytes of it are taken.
    fn taken(&self, pod: &mut Pod, turn: usize) -> Result<(), Refusal> {
        let _sent = match turn % 9 {
            0 => pod::packet_out(pod, &[self.byte; 8])?,
            _ => pod::taken(pod)?,
        };
        Ok(())
    }

    // A byte of what this shows goes into the next call, so that none can be left out.
    fn shown(&mut self, value: u16) -> Answer {
        self.byte = (value % 256) as u8;
        Answer::Word(value)
    }

    fn samples(&mut self, pod: &Pod) -> Answer {
        let value = match pod::samples(pod, self.byte % 32, &self.six) {
            Ok(frames) => u16::from(frames.an03[7] / 4),
            Err(_) => 0,
        };
        self.shown(value)
    }

    fn sum(&mut self) -> Answer {
        self.message[0] = self.byte;
        let value = crc::crc_of(&self.message);
        self.shown(value)
    }

    // One call.
    // What is handed in stands by itself, since each call takes other parts of it.
    pub fn answer(
        &mut self,
        call: Call,
        pod: &mut Pod,
        word: u16,
        bytes: &[u8],
        turn: usize,
    ) -> Result<Answer, Refusal> {
        match call {
            Call::Packet => self.packet(pod, bytes).map(Answer::Length),
            Call::Put => {
                pod::put(pod, Store::Ordinary, &mut self.ordinary, bytes).map(|()| Answer::Done)
            }
            Call::Deadline => pod::deadline(pod).map(|()| Answer::Done),
            Call::Command => self.command(pod, word).map(|()| Answer::Done),
            Call::In => self.data_in(pod, load_word(turn)).map(|()| Answer::Done),
            Call::Out => pod::data_out(pod, &self.five, &self.six, &self.seven).map(Answer::Word),
            Call::Status => pod::status_word(pod).map(Answer::Word),
            Call::Byte => pod::pipe_byte(pod, self.byte).map(|_| Answer::Done),
            Call::Timeout => self.timeout(pod, turn).map(|()| Answer::Done),
            Call::Taken => self.taken(pod, turn).map(|()| Answer::Done),
            Call::Samples => Ok(self.samples(pod)),
            Call::Sum => Ok(self.sum()),
        }
    }
}
