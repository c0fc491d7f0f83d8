// Adler-32, with one remainder for a block of bytes.
ghost use Rattle.std.specs.Prelude.{◌≡◌, ◌<◌, ◌≤◌, length, fold};
ghost use Rattle.base.specs.Adler.{add_byte, adler_of};

const MODULUS: u32 = 65_521;

// So many bytes fit into both sums before they must be reduced.
const BLOCK: usize = 3_840;

// Both sums, reduced.
#[derive(Clone, Copy)]
struct Sums {
    a: u32,
    b: u32,
    ghost small_a: { a < 65521 },
    ghost small_b: { b < 65521 },
}

impl Sums {
    // The sums with a block of bytes added.
    fn with_block(self, block: &[u8]) -> Sums
        requires { length block.now ≤ BLOCK }
        ensures { (result.a, result.b) ≡ fold add_byte (self.a, self.b) block.now }
    {
        let mut a = self.a;
        let mut b = self.b;
        for x in block {
            a += u32::from(*x);
            b += a;
        }
        Sums {
            a: a % MODULUS,
            b: b % MODULUS,
        }
    }
}

/// The Adler-32 of bytes.
pub fn adler32(bytes: &[u8]) -> u32
    ensures { result ≡ adler_of bytes.now }
{
    let mut sums = Sums { a: 1, b: 0 };
    for block in bytes.chunks(BLOCK) {
        sums = sums.with_block(block);
    }
    sums.b * 65_536 + sums.a
}
