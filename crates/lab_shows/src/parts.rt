// The state as numbers.
ghost use Rattle.std.specs.Prelude.{◌≡◌, [], ◌∷◌, map};
ghost use Rattle.orders.specs.Command.{table_number};
ghost use Rattle.rules.specs.Obey.{exchange_code};
ghost use Rattle.lab_shows.specs.Shown.{bit_of, first_numbers, port_numbers, last_numbers, transfer_numbers};

use blocks::Store;
use rules::{Exchange, Pod};
use tables::{Header, Transfer, number};

pub fn first_numbers(pod: &Pod) -> [u64; 10]
    ensures { result ≡ first_numbers pod.now }
{
    let f = pod.fields;
    [
        u64::from(pod.initialised),
        u64::from(f.mode),
        u64::from(f.flags),
        u64::from(f.seconds),
        u64::from(f.milliseconds),
        u64::from(f.prioritylimit),
        u64::from(f.priorityremaining),
        u64::from(f.memorylimit),
        u64::from(f.memoryremaining),
        u64::from(f.poll),
    ]
}

// Whether each parameter was written.
pub fn marks(written: [bool; 12]) -> [u64; 12]
    ensures { result ≡ map bit_of written }
{
    written.map(|on| u64::from(on))
}

// The code of the open exchange, 0 for none. Stays a match to numbers: by `Code` each would be `u64::from(u8::from(Code::Status))`, no
// plainer.
#[tactic(auto, unfolding(packets::specs::Commands::command_row, packets::specs::Commands::command_place))]
fn code(exchange: Exchange) -> u64
    ensures { result ≡ exchange_code exchange }
{
    match exchange {
        Exchange::Closed => 0,
        Exchange::Status => 0x91,
        Exchange::Read => 0x94,
        Exchange::Receive(Store::Priority) => 0x95,
        Exchange::Receive(Store::Ordinary) => 0x96,
    }
}

// A transfer as the five numbers that `V` prints, here and below, as `transfer_numbers` has them: all 0 for none.
fn moving(header: Header, reading: u64, k: u8, start: u8) -> [u64; 5]
    ensures { result ≡ table_number header.table ∷ reading ∷ header.n ∷ k ∷ start ∷ [] }
{
    [
        u64::from(number(header.table)),
        reading,
        u64::from(header.n),
        u64::from(k),
        u64::from(start),
    ]
}

fn transfer_numbers(transfer: Transfer) -> [u64; 5]
    ensures { result ≡ transfer_numbers transfer }
{
    match transfer {
        Transfer::Idle => [0, 0, 0, 0, 0],
        Transfer::Address => [1, 0, 1, 0, 0],
        Transfer::Load { header, k } => moving(header, 0, k, 0),
        Transfer::Read { header, k, start } => moving(header, 1, k, start),
    }
}

// Exchange, message error, transfer and read places.
pub fn port_numbers(pod: &Pod) -> [u64; 10]
    ensures { result ≡ port_numbers pod.now }
{
    let words = pod.words;
    let [command, reading, n, along, start] = transfer_numbers(words.transfer);
    [
        code(pod.exchange),
        u64::from(words.error),
        command,
        reading,
        n,
        along,
        start,
        u64::from(words.places.five),
        u64::from(words.places.six),
        u64::from(words.places.seven),
    ]
}

// The blocks of both stores, and the pipe.
pub fn last_numbers(pod: &Pod) -> [u64; 6]
    ensures { result ≡ last_numbers pod.now }
{
    let p = pod.priority;
    let o = pod.ordinary;
    let input = pod.pipe.input;
    [
        p.oldest as u64,
        p.waiting as u64,
        o.oldest as u64,
        o.waiting as u64,
        input.gathered as u64,
        u64::from(input.timeouts),
    ]
}
