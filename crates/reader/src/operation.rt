// The operations of an entry, one after the other.
ghost use Rattle.std.specs.Prelude.{◌≡◌, true, ◌-◌, ◌<◌, length};
ghost use Rattle.operations.specs.Positions.{operation_at, from};

use format::Operation;
use operations::fields::Position;

// The operations in these bytes from a position on. Where none can be read there is one more item, which is none.
#[derive(Drop)]
pub struct Operations<'a> {
    bytes: &'a [u8],
    at: Position,
    word: u64,
    ghost positive: { 0 < word },
}

impl<'a> Operations<'a> {
    pub fn new(bytes: &'a [u8], word: u64) -> Operations<'a>
        requires { 0 < word }
        ensures { (result.bytes ≡ bytes.entry) × (result.at ≡ from 0) × (result.word ≡ word) }
    {
        Operations {
            bytes,
            at: Position::START,
            word,
        }
    }
}

impl Iterator for Operations<'_> {
    ghost use Rattle.std.specs.Iterator.{at_most};
    ghost use Rattle.reader.specs.Operations.{Reads};

    // An operation, and the position past it.
    type Item = Option<(Operation, Position)>;

    ghost next_gives = { Reads };

    ghost remaining = { λ s. at_most (length s.bytes.now - s.at.at) };

    #[inline(always)]
    fn next(&mut self) -> Option<Option<(Operation, Position)>> {
        if self.bytes.len() <= self.at.at {
            return None;
        }
        let Some((op, next)) = operations::operation(self.bytes, self.at, self.word) else {
            self.at.at = self.bytes.len();
            return Some(None);
        };
        self.at = next;
        Some(Some((op, next)))
    }
}
