// Bytes that are compared, and bytes that are copied.
ghost use Rattle.std.specs.Prelude.{◌≡◌};
ghost use Rattle.wire.specs.Copies.{same_numbers, laid_at};

// Whether two slices hold the same bytes. Without an early return, so that it becomes vector code.
pub fn is_equal(a: &[u8], b: &[u8]) -> bool
    ensures { result ≡ same_numbers a.now b.now }
{
    if a.len() != b.len() {
        return false;
    }
    let mut all: u8 = 0;
    for i in 0..a.len() {
        all |= a[i] ^ b[i];
    }
    all == 0
}

// Lays all of `bytes` over `out` from index `at` on; nothing where they do not fit.
pub fn copy_at(out: &mut [u8], at: usize, bytes: &[u8])
    ensures { out.new ≡ laid_at out.old at bytes.now }
{
    if out.len() < at {
        return;
    }
    if out.len() - at < bytes.len() {
        return;
    }
    let end = at + bytes.len();
    out[at..end].copy_from_slice(bytes);
}
