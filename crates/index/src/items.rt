// What an INDEX is made of.
ghost use Rattle.std.specs.Prelude.{◌≡◌, ℕ, ◌<◌, List, [], map, length, slice_index_or};
ghost use Rattle.sink.specs.Meaning.{WhileRoom};
ghost use Rattle.encode.specs.Lengths.{measured};

use sink::{Full, Sink};
use write::put_all;

pub trait Items {
    // The bytes of each item.
    ghost items: { Self → List (List ℕ) };

    // How many items there are.
    fn count(&self) -> usize
        ensures { result ≡ length (items self.now) };

    // How many bytes an item has; where no number of the machine says it, the greatest one.
    fn item_len(&self, i: usize) -> usize
        requires { i < length (items self.now) }
        ensures { result ≡ measured (length (slice_index_or (items self.now) i [])) };

    // Writes an item as long as the sink has room.
    fn write_item<S: Sink>(&self, i: usize, sink: &mut S) -> Result<(), Full>
        requires { i < length (items self.now) }
        ensures { WhileRoom S.meaning sink.old (slice_index_or (items self.now) i []) result sink.new };
}

// Items that are given as byte strings.
#[derive(Clone, Copy)]
pub struct ByteStrings<'a, 'b>(pub &'a [&'b [u8]]);

// The length of a byte string.
fn bytes_len(bytes: &[u8]) -> usize
    ensures { result ≡ measured (length bytes.now) }
{
    bytes.len()
}

impl<'a, 'b> Items for ByteStrings<'a, 'b> {
    ghost items = { λ b. map (λ x. x.now) b.0.now };

    fn count(&self) -> usize {
        self.0.len()
    }

    fn item_len(&self, i: usize) -> usize {
        bytes_len(self.0[i])
    }

    fn write_item<S: Sink>(&self, i: usize, sink: &mut S) -> Result<(), Full> {
        put_all(self.0[i], sink)
    }
}
