ghost use Rattle.std.specs.Prelude.{◌≡◌, length};
ghost use Rattle.format.specs.Number.{number};

use sink::{Full, Sink};
use write::{FontWrite, put_all};

// A number in as few bytes as it needs, one to five.
#[derive(Clone, Copy)]
pub struct Uint32Var(pub u32);

impl Uint32Var {
    // How many bytes the number takes.
    #[tactic(auto, using(crate::proofs::Numbers::length_number))]
    pub fn measure(self) -> usize
        ensures { result ≡ length (number self.0) }
    {
        match self.0 {
            0..=0x7F => 1,
            0x80..=0x3FFF => 2,
            0x4000..=0x1FFFFF => 3,
            0x200000..=0xFFFFFFF => 4,
            0x10000000.. => 5,
        }
    }
}

impl FontWrite for Uint32Var {
    ghost bytes = { λ n. number n.0 };

    #[tactic(auto, using(crate::proofs::Numbers::number_within))]
    fn write_while_room<S: Sink>(&self, sink: &mut S) -> Result<(), Full> {
        let [a, b, c, d] = self.0.to_be_bytes();
        match self.measure() {
            1 => put_all(&[d], sink),
            2 => put_all(&[0x80 + c, d], sink),
            3 => put_all(&[0xC0 + b, c, d], sink),
            4 => put_all(&[0xE0 + a, b, c, d], sink),
            _ => put_all(&[0xF0, a, b, c, d], sink),
        }
    }
}
