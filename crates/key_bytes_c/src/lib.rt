#![tactic(auto)]

// The comparison byte by byte and that of the library, exported for the benchmark. The halving by the first is an archive of its own:
// with one caller each, both comparisons are compiled into their exports here.
ghost use Rattle.std.specs.Prelude.{◌≡◌};
ghost use Rattle.key.specs.Order.{compared};
ghost use Rattle.key_bytes.specs.Told.{order_number};

// How a stands to b, byte by byte: 0 below, 1 equal, 2 above.
#[unsafe(no_mangle)]
pub extern "C" fn key_bytes_compare(a: &[u8], b: &[u8]) -> u32
    ensures { result ≡ order_number (compared a.now b.now) }
{
    key_bytes::tell_order(key_bytes::compare(a, b))
}

// The same by the comparison of the library.
#[unsafe(no_mangle)]
pub extern "C" fn key_eights_compare(a: &[u8], b: &[u8]) -> u32
    ensures { result ≡ order_number (compared a.now b.now) }
{
    key_bytes::tell_order(key::compare(a, b))
}
