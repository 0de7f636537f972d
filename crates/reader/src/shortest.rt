// Whether the LEB numbers of operations are spelled shortest, by the mark that the position past each operation has.
ghost use Rattle.std.specs.Prelude.{◌≡◌, ◌<◌};
ghost use Rattle.format.specs.Shortest.{run_short};

use crate::operation::Operations;
use format::Operation;

// All operations, or those up to the step that would pass p.
pub fn run(s: &[u8], word: u64, p: u64) -> bool
    requires { 0 < word }
    ensures { result ≡ run_short word p s.now }
{
    let mut loc = 0;
    'operations: for read in Operations::new(s, word) {
        let Some((op, next)) = read else {
            return false;
        };
        if !next.shortest {
            return false;
        }
        match op {
            Operation::Nop => continue 'operations,
            Operation::Does(_) => continue 'operations,
            Operation::Step(n) => {
                if p - loc < n {
                    return true;
                }
                loc += n;
            }
        }
    }
    true
}
