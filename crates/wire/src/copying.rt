// Bytes copied over others. Kept beside the library's `copy_from_slice`: that goes over bare addresses, which the translation to C does
// not know, so what the C file does in its place would be proved by nobody (portable/README.md). This loop is translated as it stands.
ghost use Rattle.std.specs.Prelude.{◌≡◌, length, take};
ghost use Rattle.wire.specs.Delivered.{over};

// The bytes of `from` stand at the front of `out`, as many of them as it has room for.
pub fn copy(out: &mut [u8], from: &[u8])
    ensures front { out.new ≡ over (take (length out.old) from.now) out.old }
    ensures whole { length out.old ≡ length from.now → out.new ≡ from.now }
    ensures len { length out.new ≡ length out.old }
{
    for i in 0..out.len().min(from.len()) {
        out[i] = from[i];
    }
}
