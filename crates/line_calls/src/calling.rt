// A line's call, and its answer written.
ghost use Rattle.std.specs.Prelude.{◌+◌, ◌≤◌, length};
ghost use Rattle.line_calls.specs.Calls.{heard};
ghost use Rattle.line_calls.specs.Memory.{memory};
ghost use Rattle.line_calls.specs.Promise.{LineAnswered};

use answers::{put_count, put_done, put_framed, put_passed, put_word};
use blocks::Store;
use items::{Output, front};
use lines::Line;
use rules::Pod;

// A line's call. The parts of the memory stand by themselves, since parts behind one reference can't be lent to a call together.
pub fn reply(
    line: Line,
    pod: &mut Pod,
    bytes: &[u8],
    words: &[u16],
    room: &mut [u8],
    priority: &mut [u8],
    ordinary: &mut [u8],
    five: &mut [u16],
    six: &mut [u16],
    seven: &mut [u16],
    load: &mut [u16; 64],
    out: &mut Output<'_>,
)
    requires { out.old.at + 784 ≤ length out.old.out.now }
    ensures { LineAnswered (heard line bytes.now words.now) pod.old pod.new (memory room.old priority.old ordinary.old five.old six.old seven.old load.old) (memory room.new priority.new ordinary.new five.new six.new seven.new load.new) out.old out.new }
{
    match line {
        // No answer is longer than 260 bytes.
        Line::Packet(n) => {
            let bytes = front(bytes, n);
            let count = pod::packet(pod, bytes, room, priority, ordinary, five, six, seven);
            put_count(out, count, front(room, 260));
        }
        Line::Deadline => put_done(out, b'D', pod::deadline(pod)),
        // An arm for each store, which is lent its own part of the memory: to pick the part first would be a match within the arm.
        Line::Put(Store::Priority, n) => put_done(
            out,
            b'B',
            pod::put(pod, Store::Priority, priority, front(bytes, n)),
        ),
        Line::Put(Store::Ordinary, n) => put_done(
            out,
            b'B',
            pod::put(pod, Store::Ordinary, ordinary, front(bytes, n)),
        ),
        Line::Command(word) => put_done(out, b'C', pod::command_word(pod, word, five, six, seven)),
        Line::Data(word) => put_done(out, b'W', pod::data_in(pod, word, load, five, six, seven)),
        Line::Read => put_word(out, b'R', pod::data_out(pod, five, six, seven)),
        Line::Status => put_word(out, b'S', pod::status_word(pod)),
        Line::Samples(check, n) => put_framed(out, pod::samples(pod, check, front(words, n))),
        Line::Byte(byte) => put_passed(out, b'I', pod::pipe_byte(pod, byte)),
        Line::Timeout => put_passed(out, b'T', pod::pipe_timeout(pod)),
        Line::Out(n) => put_passed(out, b'O', pod::packet_out(pod, front(bytes, n))),
        Line::Taken => put_passed(out, b'K', pod::taken(pod)),
        Line::Power => put_done(out, b'Z', pod::power_on(pod, five, six, seven)),
    }
}
