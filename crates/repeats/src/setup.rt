// What the calls start from.
use blocks::Ring;
use rules::Pod;

// Initialised, with blocks waiting in the ordinary store, and as many still to be asked for as there can be.
pub fn awake(waiting: usize) -> Pod {
    let mut pod = commands::fresh_pod();
    pod.initialised = true;
    pod.fields.memorylimit = 0xFFFF_FFFF;
    pod.fields.memoryremaining = 0xFFFF_FFFF;
    pod.ordinary = Ring { oldest: 3, waiting };
    pod
}

// Bytes that differ from their neighbours.
pub fn fill(bytes: &mut [u8]) {
    for (i, b) in bytes.iter_mut().enumerate() {
        *b = (i % 251) as u8;
    }
}

// The two words at the start, or 0 and 0.
pub fn two_words(bytes: &[u8]) -> [u16; 2] {
    match bytes {
        [a, b, c, d, ..] => [u16::from_be_bytes([*a, *b]), u16::from_be_bytes([*c, *d])],
        _ => [0, 0],
    }
}
