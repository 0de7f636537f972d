// The run over the operations of a header and a record, with a line stored at each step.
ghost use Rattle.std.specs.Prelude.{◌≡◌, ◌+◌, ◌-◌, ◌*◌, ◌/◌, ◌≤◌, length, T};
ghost use Rattle.format.specs.Numbers.{number_of};
ghost use Rattle.format.specs.Prelude.{good};
ghost use Rattle.format.proofs.Wrote.{Wrote};
ghost use Rattle.reader.specs.Spans.{part};
ghost use Rattle.reader.specs.Finds.{in_section};
ghost use Rattle.listing.specs.Lines.{line_stride, lines_of, line_numbers, Lists};

use crate::{LINE_STRIDE, Listed};
use format::{Question, Rules};
use reader::location::Located;
use reader::operation::Operations;
use reader::run;

// The largest offset.
// Kept: by name, as the definition has it (`highest`). By `checked_add` the two cases of a step would be told by whether the sum fits 64 bits, and a
// law would lead from there to `highest`.
const HIGHEST: u64 = 0xffffffffffffffff;

// ---- the lines

// A line at `at`: its offset and six numbers.
fn line(out: &mut [u64], at: usize, offset: u64, rules: Rules) -> usize
    requires { at + line_stride ≤ length out.old }
    ensures { Wrote out.old out.new at result (line_numbers offset rules) }
{
    let n = unwind::numbers_of(Ok(rules), false);
    out[at..at + LINE_STRIDE].copy_from_slice(&[
        offset,
        n.frame,
        n.frame_register,
        n.frame_offset,
        n.rule,
        n.rule_value,
        n.signing,
    ]);
    at + LINE_STRIDE
}

// The answer where the lines go up to `end` and no question ends them.
fn listed(end: usize) -> Listed
    ensures { result ≡ record { number = 0; lines = end / line_stride; ending = 0; from = 0 } }
{
    Listed {
        lines: (end / LINE_STRIDE) as u64,
        ..Listed::default()
    }
}

// The answer where the question ends them.
fn ended(end: usize, question: Question, from: u64) -> Listed
    ensures { result ≡ record { number = 0; lines = end / line_stride; ending = number_of question; from = from } }
{
    Listed {
        ending: question.number(),
        from,
        ..listed(end)
    }
}

// Kept: a loop like that of `reader::run::run`, which says what the two share and what they do not.
// The header's operations and then the record's, for register q. The state stays in place: passed by value its 16 stored rules would be the run's cost.
pub fn fill(s: &[u8], l: &Located, q: u16, out: &mut [u64]) -> Listed
    requires { T (in_section s.now l.now) × (line_stride * (l.now.record_end - l.now.«record» + 1) ≤ length out.old) }
    ensures { Lists q (good (lines_of l.now.word (part s.now l.now.header l.now.header_end) (part s.now l.now.«record» l.now.record_end))) result out.old out.new }
{
    let mut state = run::start();
    let mut i = 0;
    let mut loc = 0;
    // The followed register's rule after the header, which a header's operations do not have.
    let mut initial = None;
    'entries: for span in l.operations() {
        let from = span.at;
        let to = span.end;
        'operations: for read in Operations::new(&s[from..to], l.word) {
            let Some((op, _)) = read else {
                return ended(i, Question::Operations, loc);
            };
            match run::perform(&mut state, q, initial, op) {
                Err(question) => return ended(i, question, loc),
                Ok(None) => continue 'operations,
                Ok(Some(n)) => {
                    if n == 0 {
                        continue 'operations;
                    }
                    if HIGHEST - loc < n {
                        continue 'entries;
                    }
                    i = line(out, i, loc, state.rules);
                    loc += n;
                }
            }
        }
        initial = Some(state.rules.rule);
    }
    i = line(out, i, loc, state.rules);
    listed(i)
}
