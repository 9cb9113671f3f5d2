// Prints the CRC of the catalogue's string 123456789, and then of a string of each length from 0 to 4,096, a line each.
#![tactic(auto)]

// The example generator of the C standard: its bytes make the strings, one after the other.
fn next(x: u64) -> u64 {
    (x % 2147483648 * 1103515245 + 12345) % 2147483648
}

fn fill(bytes: &mut [u8], seed: u64) -> u64 {
    let mut x = seed;
    for b in bytes.iter_mut() {
        x = next(x);
        *b = (x / 65536 % 256) as u8;
    }
    x
}

// A line that could not be written has nowhere to be told: the next one is tried all the same.
fn print(rt: &impl Print, bytes: &[u8]) {
    let crc = crc::crc_of(bytes);
    let _ = println!(rt; "{crc:04X}");
}

fn print_all(rt: &impl Print) {
    print(rt, b"123456789");
    let mut space = [0u8; 4096];
    let mut x: u64 = 1;
    for n in 0..=4096usize {
        let string = &mut space[..n];
        x = fill(string, x);
        print(rt, string);
    }
}

fn main(rt: HostRuntime) {
    print_all(&rt);
}
