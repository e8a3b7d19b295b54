// The generator and the checksum.
use node::Node;

// The generator's next state.
pub(crate) fn next(random: u32) -> u32 {
    random.wrapping_mul(1664525).wrapping_add(1013904223)
}

// The checksum with one number more.
pub(crate) fn mixed(sum: u32, x: u32) -> u32 {
    sum.wrapping_mul(31).wrapping_add(x)
}

// The checksum with a reply, an identifier and a count of bytes.
pub(crate) fn mixed_answer(sum: u32, reply: u32, id: u32, count: u32) -> u32 {
    let with_reply = mixed(sum, reply);
    let with_id = mixed(with_reply, id);
    mixed(with_id, count)
}

// The checksum with what a frame did, and what a tick dropped and delivered.
pub(crate) fn mixed_told(sum: u32, told: u32, dropped: u32, delivered: u32) -> u32 {
    let with_frame = mixed(sum, told);
    let with_dropped = mixed(with_frame, dropped);
    mixed(with_dropped, delivered)
}

// The checksum with all the bytes.
pub(crate) fn mixed_bytes(sum: u32, bytes: &[u8; Node::TICK_ROOM]) -> u32 {
    bytes.iter().fold(sum, |sum, b| mixed(sum, u32::from(*b)))
}

// The checksum with a byte of the first record, and one of all the bytes.
pub(crate) fn mixed_some(sum: u32, bytes: &[u8; Node::TICK_ROOM], random: u32) -> u32 {
    let h = (random / 65536) as usize;
    let first = mixed(sum, u32::from(bytes[h % Node::HEAR_ROOM]));
    mixed(first, u32::from(bytes[h % Node::TICK_ROOM]))
}

// A count of bytes, of which there are never as many as here.
pub(crate) fn small(n: usize) -> u32 {
    (n % 65536) as u32
}
