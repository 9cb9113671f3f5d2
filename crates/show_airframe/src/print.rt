// What is handed in and what it gives, as text. Each begins with a space.
use airframe::{Form, Heard, Left, Meaning, Refusal, Sending, Step};
use packets::{Command, Fields};
use std::fmt;
use std::fmt::{Display, Formatter};

// Bytes as pairs of digits.
#[derive(Clone, Copy)]
pub struct Pairs<'a>(pub &'a [u8]);

impl Display for Pairs<'_> {
    fn fmt<W: fmt::Write>(&self, f: &mut Formatter<W>) -> fmt::Result {
        for b in self.0 {
            write!(f, " {b:02X}")?;
        }
        Ok(())
    }
}

// Bytes in decimal.
#[derive(Clone, Copy)]
struct Numbers<'a>(&'a [u8]);

impl Display for Numbers<'_> {
    fn fmt<W: fmt::Write>(&self, f: &mut Formatter<W>) -> fmt::Result {
        for b in self.0 {
            write!(f, " {b}")?;
        }
        Ok(())
    }
}

// How many bytes there are, and where they are many the first three and the last two.
#[derive(Clone, Copy)]
pub struct Shortened<'a>(pub &'a [u8]);

impl Display for Shortened<'_> {
    fn fmt<W: fmt::Write>(&self, f: &mut Formatter<W>) -> fmt::Result {
        let bytes = self.0;
        let n = bytes.len();
        write!(f, " / {n} :")?;
        if n < 24 {
            return write!(f, "{}", Pairs(bytes));
        }
        write!(f, "{} -{}", Pairs(&bytes[..3]), Pairs(&bytes[n - 2..]))
    }
}

#[derive(Clone, Copy)]
struct Listed(Fields);

impl Display for Listed {
    fn fmt<W: fmt::Write>(&self, f: &mut Formatter<W>) -> fmt::Result {
        let Fields {
            mode,
            flags,
            seconds,
            milliseconds,
            prioritylimit,
            priorityremaining,
            memorylimit,
            memoryremaining,
            poll,
        } = self.0;
        write!(f, " {mode} {flags} {seconds} {milliseconds}")?;
        write!(f, " {prioritylimit} {priorityremaining}")?;
        write!(f, " {memorylimit} {memoryremaining} {poll}")
    }
}

// A command by its code and what it carries.
#[derive(Clone, Copy)]
pub struct Carried(pub Command);

impl Display for Carried {
    fn fmt<W: fmt::Write>(&self, f: &mut Formatter<W>) -> fmt::Result {
        write!(f, " {:02X}", u8::from(self.0.code()))?;
        match self.0 {
            Command::Initialise(fields) | Command::Update(fields) => {
                write!(f, "{}", Listed(fields))
            }
            Command::Write(id, value) => write!(f, " {id} {value}"),
            Command::Read(id) => write!(f, " {id}"),
            Command::Status | Command::Priority | Command::Data | Command::Shutdown => Ok(()),
        }
    }
}

// An acknowledgement's first byte, and the error byte of the 0x09 form.
#[derive(Clone, Copy)]
pub struct Acknowledged(pub u8, pub Form);

impl Display for Acknowledged {
    fn fmt<W: fmt::Write>(&self, f: &mut Formatter<W>) -> fmt::Result {
        let Acknowledged(first, form) = *self;
        match form {
            Form::Taken => write!(f, " {first:02X}"),
            Form::Failed(error) => write!(f, " {first:02X} {error:02X}"),
        }
    }
}

#[derive(Clone, Copy)]
struct Refused(Refusal);

impl Display for Refused {
    fn fmt<W: fmt::Write>(&self, f: &mut Formatter<W>) -> fmt::Result {
        write!(f, " !{}", u8::from(self.0))
    }
}

// The room's size, the number of bytes or of the refusal, and the whole room.
#[derive(Clone, Copy)]
pub struct Built<'a>(pub Result<usize, Refusal>, pub &'a [u8]);

impl Display for Built<'_> {
    fn fmt<W: fmt::Write>(&self, f: &mut Formatter<W>) -> fmt::Result {
        let Built(built, room) = *self;
        write!(f, " / {} =", room.len())?;
        match built {
            Ok(n) => write!(f, " {n}")?,
            Err(refusal) => write!(f, "{}", Refused(refusal))?,
        }
        write!(f, " :{}", Pairs(room))
    }
}

// What an answer means. The ids of a status and the bytes of a block are parts of the answer.
#[derive(Clone, Copy)]
pub struct Meant<'a>(pub Result<Meaning, Refusal>, pub &'a [u8]);

impl Display for Meant<'_> {
    fn fmt<W: fmt::Write>(&self, f: &mut Formatter<W>) -> fmt::Result {
        let Meant(read, answer) = *self;
        match read {
            Err(refusal) => write!(f, "{}", Refused(refusal)),
            Ok(Meaning::Done) => write!(f, " done"),
            Ok(Meaning::Error(error)) => write!(f, " error {error:02X}"),
            Ok(Meaning::State(s)) => {
                write!(f, " status {} {} {}", s.mode, s.flags, s.priority)?;
                write!(f, " {} {}", s.ordinary, s.request)?;
                write!(f, "{}", Numbers(airframe::ids(answer)))
            }
            Ok(Meaning::Value(id, value)) => write!(f, " value {id} {value}"),
            Ok(Meaning::Block) => write!(f, " data{}", Shortened(airframe::block(answer))),
        }
    }
}

#[derive(Clone, Copy)]
struct Next(Step);

impl Display for Next {
    fn fmt<W: fmt::Write>(&self, f: &mut Formatter<W>) -> fmt::Result {
        match self.0 {
            Step::Idle => write!(f, " idle"),
            Step::Ended => write!(f, " ended"),
            Step::Again => write!(f, " again"),
            Step::Lost => write!(f, " lost"),
        }
    }
}

#[derive(Clone, Copy)]
struct Count(Left);

impl Display for Count {
    fn fmt<W: fmt::Write>(&self, f: &mut Formatter<W>) -> fmt::Result {
        match self.0 {
            Left::Nought => write!(f, " 0"),
            Left::One => write!(f, " 1"),
            Left::Two => write!(f, " 2"),
            Left::Three => write!(f, " 3"),
        }
    }
}

// What is on its way, and how often it may still be sent.
#[derive(Clone, Copy)]
pub struct OnItsWay(pub Sending);

impl Display for OnItsWay {
    fn fmt<W: fmt::Write>(&self, f: &mut Formatter<W>) -> fmt::Result {
        match self.0 {
            Sending::Over => write!(f, " -"),
            Sending::Awaiting(code, left) => write!(f, " {code:02X}{}", Count(left)),
        }
    }
}

// What an answer was read as, where one came, what is next, and what is then on its way.
#[derive(Clone, Copy)]
pub struct After<'a>(pub Heard, pub &'a [u8]);

impl Display for After<'_> {
    fn fmt<W: fmt::Write>(&self, f: &mut Formatter<W>) -> fmt::Result {
        let After(heard, answer) = *self;
        if let Some(read) = heard.reply {
            write!(f, "{}", Meant(read, answer))?;
        }
        write!(f, "{} ;{}", Next(heard.step), OnItsWay(heard.sending))
    }
}
