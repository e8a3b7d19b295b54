// Numbers, flags and rows of eight bytes, at a place of some bytes. Numbers have their lowest byte first. Kept as one function for each
// width: so `from_le_bytes` and `to_le_bytes` are, and each promises its own.
ghost use Rattle.std.specs.Prelude.{◌≡◌, ◌+◌, ◌≤◌, ◌<◌, cond, not, length, set};
ghost use Rattle.std.proofs.lemmas.List.Edits.{sets};
ghost use Rattle.wire.specs.Delivered.{number_at, little_endian};
ghost use Rattle.node_bytes.specs.Decoding.{flag_at, bytes_at};
ghost use Rattle.node_bytes.specs.Encoding.{flag};

use wire::copying::copy;

// A byte is true unless it is 0.
pub(crate) fn flag_at(bytes: &[u8], at: usize) -> bool
    requires { at < length bytes.now }
    ensures { result ≡ flag_at bytes.now at }
{
    bytes[at] != 0
}

// The row of bytes at a place, copied as one: of four bytes that are read one by one a C compiler does not make one load in every caller.
fn row_at<const N: usize>(bytes: &[u8], at: usize) -> [u8; N]
    requires { N + at ≤ length bytes.now }
    ensures { result ≡ bytes_at N bytes.now at }
{
    let mut row = [0; N];
    copy(&mut row, &bytes[at..N + at]);
    row
}

pub(crate) fn two_at(bytes: &[u8], at: usize) -> u16
    requires { 2 + at ≤ length bytes.now }
    ensures { result ≡ number_at 2 bytes.now at }
{
    u16::from_le_bytes([bytes[at], bytes[1 + at]])
}

pub(crate) fn four_at(bytes: &[u8], at: usize) -> u32
    requires { 4 + at ≤ length bytes.now }
    ensures { result ≡ number_at 4 bytes.now at }
{
    u32::from_le_bytes(row_at(bytes, at))
}

pub(crate) fn eight_at(bytes: &[u8], at: usize) -> [u8; 8]
    requires { 8 + at ≤ length bytes.now }
    ensures { result ≡ bytes_at 8 bytes.now at }
{
    row_at(bytes, at)
}

// The byte of a flag. Kept as a function: that it is 1 or 0 is promised in one place, by the definition `flag`.
pub(crate) fn flag(b: bool) -> u8
    ensures { result ≡ flag b }
{
    u8::from(b)
}

// Sets a flag that is `old`, where it changes.
pub(crate) fn put_flag(out: &mut [u8], at: usize, old: bool, new: bool)
    requires { at < length out.old }
    ensures { out.new
        ≡ cond new (cond (not old) (set out.old at 1) out.old) (cond old (set out.old at 0) out.old) }
{
    if old != new {
        out[at] = flag(new);
    }
}

pub(crate) fn put_two(out: &mut [u8], at: usize, n: u16)
    requires { 2 + at ≤ length out.old }
    ensures { out.new ≡ sets out.old at (little_endian 2 n) }
{
    let [low, high] = n.to_le_bytes();
    out[at] = low;
    out[1 + at] = high;
}

pub(crate) fn put_eight(out: &mut [u8], at: usize, row: [u8; 8])
    requires { 8 + at ≤ length out.old }
    ensures { (out.new ≡ sets out.old at row) × (length out.new ≡ length out.old) }
{
    copy(&mut out[at..8 + at], &row);
}
