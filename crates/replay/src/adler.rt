// Adler-32.
ghost use Rattle.std.specs.Prelude.{◌<◌};

const BASE: usize = 65521;

// The two sums of the bytes so far.
#[derive(Clone, Copy)]
struct Sums {
    a: usize,
    b: usize,
    ghost a_below_base: { a < 65521 },
    ghost b_below_base: { b < 65521 },
}

impl Sums {
    fn new() -> Sums {
        Sums { a: 1, b: 0 }
    }

    fn with(self, byte: u8) -> Sums {
        let a = (self.a + usize::from(byte)) % BASE;
        let b = (self.b + a) % BASE;
        Sums { a, b }
    }

    fn checksum(self) -> usize {
        self.b * 65536 + self.a
    }
}

pub fn checksum(s: &[u8]) -> usize {
    s.iter()
        .fold(Sums::new(), |sums, byte| sums.with(*byte))
        .checksum()
}
