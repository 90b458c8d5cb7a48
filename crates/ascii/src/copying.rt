// A copy of all elements of one slice over another.
// The library's `copy_from_slice` is a call of `memmove`, which whoever links the engine for C would have to bring; this loop needs nothing.
ghost use Rattle.std.specs.Prelude.{◌≡◌, length};

pub fn copy_over<T: Copy>(to: &mut [T], from: &[T])
    requires { length to.old ≡ length from.now }
    ensures after { to.new ≡ from.now }
{
    for i in 0..from.len() {
        to[i] = from[i];
    }
}
