// A run of places among so many.
ghost use Rattle.std.specs.Prelude.{◌≡◌, ◌+◌, nat_le};

// Whether n places from an address on are among so many.
pub fn is_inside(size: usize, address: usize, n: usize) -> bool
    ensures { result ≡ nat_le (address + n) size }
{
    n <= size && address <= size - n
}
