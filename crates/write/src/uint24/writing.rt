#![tactic(auto, unfolding(crate::specs::Bytes::be))]

ghost use Rattle.std.specs.Prelude.{◌≡◌, ◌^◌, ◌≤◌, MatchOption};
ghost use Rattle.write.specs.Bytes.{be};

use crate::uint24::Uint24;
use crate::write::{FontWrite, put_all};
use sink::{Full, Sink};

// `checked_new` and `to_u32` are named as in the library that the type is ported from; a `TryFrom` would want an error of its
// own, which says no more than `None`.
impl Uint24 {
    // The number, or none where it needs more than 24 bits.
    pub fn checked_new(raw: u32) -> Option<Uint24>
        ensures { MatchOption result (2 ^ 24 ≤ raw) (λ n. n.value ≡ raw) }
    {
        if raw > 0xFFFFFF {
            return None;
        }
        Some(Uint24 { value: raw })
    }

    pub fn to_u32(self) -> u32
        ensures { result ≡ self.value }
    {
        self.value
    }
}

impl FontWrite for Uint24 {
    ghost bytes = { λ n. be 3 n.value };

    fn write_while_room<S: Sink>(&self, sink: &mut S) -> Result<(), Full> {
        let [_, high, middle, low] = self.value.to_be_bytes();
        put_all(&[high, middle, low], sink)
    }
}
