// Numbers in bytes: one of four bytes, words one behind the other and the sums of a buffer and of a sheet.
ghost use Rattle.std.specs.Prelude.{◌≡◌, ◌+◌, ◌*◌, ◌%◌, ◌<◌, ◌≤◌, length, get_or};
ghost use Rattle.outside.specs.Numbers.{number_at, words_of, adler_of};

// The two sums of Adler-32.
#[derive(Clone, Copy)]
struct Sums {
    a: u64,
    b: u64,
}

// The byte at a place, 0 beyond the end.
pub fn byte_at(bytes: &[u8], at: usize) -> u8
    ensures { result ≡ get_or bytes.now at 0 }
{
    bytes.get(at).copied().unwrap_or(0)
}

// The number of four bytes, the lowest first.
pub fn number_at(bytes: &[u8], at: usize) -> usize
    requires { at + 3 < 18446744073709551616 }
    ensures { (result ≡ number_at bytes.now at) × (result < 4294967296) }
{
    let low = usize::from(byte_at(bytes, at)) + 256 * usize::from(byte_at(bytes, at + 1));
    let high = usize::from(byte_at(bytes, at + 2)) + 256 * usize::from(byte_at(bytes, at + 3));
    low + 65536 * high
}

// Fills a sheet with the numbers that the bytes hold.
#[tactic(auto, using(crate::proofs::Laws::words_none, crate::proofs::Laws::words_more, crate::proofs::Laws::words_end))]
pub fn read_words(bytes: &[u8], sheet: &mut [u32])
    requires { 4 * length sheet.old ≤ length bytes.now }
    ensures { sheet.new ≡ words_of (length sheet.old) bytes.now }
{
    for (i, word) in sheet.iter_mut().enumerate() {
        *word = number_at(bytes, 4 * i) as u32;
    }
}

impl Sums {
    fn with(self, number: u64) -> Sums
        requires { (self.a < 65521) × (self.b < 65521) × (number < 4294967296) }
        ensures { (result.a ≡ (self.a + number) % 65521) × (result.b ≡ (self.b + (self.a + number) % 65521) % 65521) }
    {
        let a = (self.a + number) % 65521;
        Sums {
            a,
            b: (self.b + a) % 65521,
        }
    }
}

// Adler-32.
#[tactic(auto, using(crate::proofs::Laws::adler_more, crate::proofs::Laws::adler_end))]
pub fn adler(bytes: &[u8]) -> u64
    ensures { result ≡ adler_of 1 0 bytes.now }
{
    let mut sums = Sums { a: 1, b: 0 };
    for byte in bytes {
        sums = sums.with(u64::from(*byte));
    }
    sums.b * 65536 + sums.a
}

// The same sum of words, each taken whole: a trait over bytes and words would be longer than this loop.
#[tactic(auto, using(crate::proofs::Laws::adler_more, crate::proofs::Laws::adler_end))]
pub fn words_adler(words: &[u32]) -> u64
    ensures { result ≡ adler_of 1 0 words.now }
{
    let mut sums = Sums { a: 1, b: 0 };
    for word in words {
        sums = sums.with(u64::from(*word));
    }
    sums.b * 65536 + sums.a
}
