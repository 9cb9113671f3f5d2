// The byte pipe. Its input half: bytes from the camera gather, and go to the aircraft eight at a time, or fewer after a timeout. Its
// output half: a packet of eight from the aircraft goes to the camera one byte at a time, each after the last was taken.
#![tactic(auto)]

ghost use Rattle.std.specs.Prelude.{◌≡◌, ◌≤◌, take};
ghost use Rattle.pipe.specs.Input.{sent_packet, empty_input, fresh_input, count_up, pipe_byte, pipe_timeout, sound_input, gathering_of};
ghost use Rattle.pipe.specs.Output.{shown_out, fresh_output, output_packet, output_taken, output_timeout, sound_output, busy_of};
ghost use Rattle.pipe.specs.Pipe.{fresh_pipe, sound_pipe};

// Up to seven bytes gathered from the start of the array, and the timeouts that sent something. A count beside an array, since there
// is no heap and the rules (`held_in`, `sound_input`) say both.
#[derive(Clone, Copy)]
pub struct Input {
    pub bytes: [u8; 8],
    pub gathered: usize,
    pub timeouts: u8,
}

// Up to eight bytes in hand at the end of the array, the first of them being shown, and the timeouts that dropped something. A count
// beside an array, likewise (`held_out`, `sound_output`).
#[derive(Clone, Copy)]
pub struct Output {
    pub bytes: [u8; 8],
    pub hand: u8,
    pub timeouts: u8,
}

// The pipe as the pod holds it.
#[derive(Clone, Copy)]
pub struct Pipe {
    pub input: Input,
    pub output: Output,
}

// What is given, to the aircraft or to the camera: the first `count` bytes of the array, and zeros behind them. A count beside an
// array, since there is no heap and the rules (`sent_packet`, `sent_bytes`) say both.
#[derive(Clone, Copy)]
pub struct Sent {
    pub bytes: [u8; 8],
    pub count: usize,
}

// What a call sends, and the input after it. This and `Handed` are two, since the rules name each by its half (`pipe_byte`,
// `output_packet`, `input_moved`, `output_moved`).
#[derive(Clone, Copy)]
pub struct Piped {
    pub sent: Sent,
    pub input: Input,
}

// What a call shows the camera, and the output after it.
#[derive(Clone, Copy)]
pub struct Handed {
    pub sent: Sent,
    pub output: Output,
}

// The packet of the first n bytes. Bytes left behind them by an earlier packet are not handed out.
#[tactic(auto, unfolding(crate::specs::Input::sent_packet))]
fn first(mut bytes: [u8; 8], n: usize) -> Sent
    requires { n ≤ 8 }
    ensures { result ≡ sent_packet (take n bytes) }
{
    bytes[n..].fill(0);
    Sent { bytes, count: n }
}

// Nothing gathered, after so many timeouts.
#[tactic(auto, unfolding(crate::specs::Input::empty_input))]
fn emptied(timeouts: u8) -> Input
    ensures { result ≡ empty_input timeouts }
{
    Input {
        bytes: [0; 8],
        gathered: 0,
        timeouts,
    }
}

// One more, and 15 stays 15.
#[tactic(auto, unfolding(crate::specs::Input::count_up))]
fn counted(timeouts: u8) -> u8
    ensures { result ≡ count_up timeouts }
{
    timeouts.saturating_add(1).min(15)
}

// The byte being shown, where one is in hand. Bytes that were taken are not handed out.
#[tactic(auto, using(crate::proofs::Hand::none_out, crate::proofs::Hand::shown_first), unfolding(crate::specs::Input::sent_packet))]
fn shown(output: Output) -> Sent
    requires { output.hand ≤ 8 }
    ensures { result ≡ sent_packet (shown_out output) }
{
    if output.hand == 0 {
        return Sent {
            bytes: [0; 8],
            count: 0,
        };
    }
    let b = output.bytes[8 - output.hand as usize];
    Sent {
        bytes: [b, 0, 0, 0, 0, 0, 0, 0],
        count: 1,
    }
}

// Each half is handed in by value and a call hands the next one back: a form that the rules name.
impl Input {
    // Nothing gathered and no timeouts, as from power and after Initialise.
    #[tactic(auto, unfolding(crate::specs::Input::fresh_input))]
    pub fn fresh() -> Input
        ensures { result ≡ fresh_input }
    {
        emptied(0)
    }

    // One byte more; the eighth sends all eight.
    #[tactic(auto, using(crate::proofs::Cases::byte_gathers, crate::proofs::Cases::byte_sends), unfolding(crate::specs::Input::gathers))]
    pub fn byte(mut self, b: u8) -> Piped
        requires { self.gathered ≤ 7 }
        ensures { result ≡ pipe_byte self b }
    {
        let at = self.gathered;
        self.bytes[at] = b;
        if at < 7 {
            self.gathered = at + 1;
            Piped {
                sent: first(self.bytes, 0),
                input: self,
            }
        } else {
            Piped {
                sent: first(self.bytes, 8),
                input: emptied(self.timeouts),
            }
        }
    }

    // What is gathered goes as a short packet and one is counted, up to 15; with none gathered nothing happens.
    #[tactic(auto, using(crate::proofs::Cases::timeout_idle, crate::proofs::Cases::timeout_sends), unfolding(crate::specs::Input::held_in))]
    pub fn timeout(self) -> Piped
        requires { self.gathered ≤ 7 }
        ensures { result ≡ pipe_timeout self }
    {
        let n = self.gathered;
        if n == 0 {
            return Piped {
                sent: first(self.bytes, 0),
                input: self,
            };
        }
        Piped {
            sent: first(self.bytes, n),
            input: emptied(counted(self.timeouts)),
        }
    }

    // Whether the bounds hold: at most 7 bytes gathered and at most 15 timeouts.
    #[tactic(auto, unfolding(crate::specs::Input::sound_input))]
    pub fn sound(self) -> bool
        ensures { result ≡ sound_input self }
    {
        (self.gathered <= 7) & (self.timeouts <= 15)
    }

    // Whether 1 to 7 bytes are gathered.
    #[tactic(auto, unfolding(crate::specs::Input::gathering_of))]
    pub fn gathering(self) -> bool
        ensures { result ≡ gathering_of self }
    {
        (1 <= self.gathered) & (self.gathered <= 7)
    }
}

impl Output {
    // Nothing in hand and no timeouts, as from power and after Initialise.
    #[tactic(auto, unfolding(crate::specs::Output::fresh_output))]
    pub fn fresh() -> Output
        ensures { result ≡ fresh_output }
    {
        Output {
            bytes: [0; 8],
            hand: 0,
            timeouts: 0,
        }
    }

    // A packet of eight: all are in hand, and the first is shown.
    #[tactic(auto, unfolding(crate::specs::Output::output_packet))]
    pub fn packet(self, bytes: [u8; 8]) -> Handed
        ensures { result ≡ output_packet self bytes }
    {
        let output = Output {
            bytes,
            hand: 8,
            ..self
        };
        Handed {
            sent: shown(output),
            output,
        }
    }

    // The byte being shown was taken: the next is shown, where there is one; with none in hand nothing happens.
    #[tactic(auto, using(crate::proofs::Hand::taken_none), unfolding(crate::specs::Output::output_taken))]
    pub fn taken(mut self) -> Handed
        requires { self.hand ≤ 8 }
        ensures { result ≡ output_taken self }
    {
        if self.hand == 0 {
            return Handed {
                sent: shown(self),
                output: self,
            };
        }
        self.hand -= 1;
        Handed {
            sent: shown(self),
            output: self,
        }
    }

    // The bytes in hand are dropped and one is counted, up to 15; with none in hand nothing happens.
    #[tactic(auto, unfolding(crate::specs::Output::output_timeout))]
    pub fn timeout(mut self) -> Output
        ensures { result ≡ output_timeout self }
    {
        if self.hand == 0 {
            return self;
        }
        self.hand = 0;
        self.timeouts = counted(self.timeouts);
        self
    }

    // Whether the bounds hold: at most 8 bytes in hand and at most 15 timeouts.
    #[tactic(auto, unfolding(crate::specs::Output::sound_output))]
    pub fn sound(self) -> bool
        ensures { result ≡ sound_output self }
    {
        (self.hand <= 8) & (self.timeouts <= 15)
    }

    // Whether something is in hand.
    #[tactic(auto, unfolding(crate::specs::Output::busy_of))]
    pub fn busy(self) -> bool
        ensures { result ≡ busy_of self }
    {
        1 <= self.hand
    }
}

impl Pipe {
    // As from power and after Initialise.
    #[tactic(auto, unfolding(crate::specs::Pipe::fresh_pipe))]
    pub fn fresh() -> Pipe
        ensures { result ≡ fresh_pipe }
    {
        Pipe {
            input: Input::fresh(),
            output: Output::fresh(),
        }
    }

    // Whether the bounds hold.
    #[tactic(auto, unfolding(crate::specs::Pipe::sound_pipe))]
    pub fn sound(self) -> bool
        ensures { result ≡ sound_pipe self }
    {
        self.input.sound() & self.output.sound()
    }
}
