// Question 13 of the lists that the writer of Windows' unwind data on ARM64 takes: ranges, symbols, kinds and absent operands.
#![tactic(auto)]

ghost use Rattle.std.specs.Prelude.{◌≡◌, ℕ, ◌+◌, ◌*◌, ◌≤◌, ◌<◌, length};
ghost use Rattle.format.specs.Lists.{count, field, all_in, sum_of, most_records};
ghost use Rattle.arm64_lists.specs.Sums.{up_to};
ghost use Rattle.arm64.specs.Lists.{function_stride, epilogue_stride, code_stride};
ghost use Rattle.arm64.specs.Writer.{code_ok_at, codes_ok_in, epilogue_ok_at, function_ok_at, codes_in, lists_ok};

use arm64::fields::{self, CODE_STRIDE, EPILOGUE_STRIDE, FUNCTION_STRIDE};
use lists::record::Record;

// The writer's lists: functions of 6 numbers, epilogues of 3 and codes of 3.
#[derive(Clone, Copy)]
pub struct Lists<'a> {
    pub functions: &'a [u64],
    pub epilogues: &'a [u64],
    pub codes: &'a [u64],
}

// Record k of a list.
fn record<'a, const STRIDE: usize>(list: &'a [u64], k: usize) -> Record<'a, STRIDE>
    requires { STRIDE * k + STRIDE ≤ length list.now }
    ensures { (result.list.now ≡ list.now) × (result.k ≡ k) }
{
    Record { list, k }
}

// Question 13 of a code.
fn code_ok(code: Record<CODE_STRIDE>) -> bool
    ensures { result ≡ code_ok_at code.entry.list.now code.entry.k }
{
    let kind = code.number(0);
    if arm64::PAC_SIGN_LR < kind {
        return false;
    }
    if kind <= arm64::FREG_X {
        if arm64::REGP <= kind {
            return true;
        }
        return code.number(fields::REGISTER) == 0;
    }
    if code.number(fields::REGISTER) != 0 {
        return false;
    }
    if kind == arm64::ADD_FP {
        return true;
    }
    code.number(fields::OFFSET) == 0
}

impl Lists<'_> {
    fn codes_in(&self, at: usize, n: usize) -> bool
        requires { at + n ≤ count code_stride self.now.codes.now }
        ensures { result ≡ all_in (code_ok_at self.now.codes.now) at n }
    {
        (at..at + n).all(|i| code_ok(record(self.codes, i)))
    }

    // A range of codes, and each of them.
    fn codes_ok_in(&self, at: u64, n: u64) -> bool
        ensures { result ≡ codes_ok_in self.now.codes.now at n }
    {
        if !lists::inside(at, n, (self.codes.len() / CODE_STRIDE) as u64) {
            return false;
        }
        self.codes_in(at as usize, n as usize)
    }

    fn epilogue_ok(&self, epilogue: Record<EPILOGUE_STRIDE>) -> bool
        ensures { result ≡ epilogue_ok_at epilogue.entry.list.now self.now.codes.now epilogue.entry.k }
    {
        self.codes_ok_in(
            epilogue.number(fields::CODES_AT),
            epilogue.number(fields::CODES),
        )
    }

    fn epilogues_in(&self, at: usize, n: usize) -> bool
        requires { at + n ≤ count epilogue_stride self.now.epilogues.now }
        ensures { result ≡ all_in (epilogue_ok_at self.now.epilogues.now self.now.codes.now) at n }
    {
        (at..at + n).all(|i| self.epilogue_ok(record(self.epilogues, i)))
    }

    fn function_ok(&self, function: Record<FUNCTION_STRIDE>) -> bool
        ensures { result ≡ function_ok_at function.entry.list.now self.now.epilogues.now self.now.codes.now function.entry.k }
    {
        if !lists::symbol_ok(function.number(0)) {
            return false;
        }
        if !self.codes_ok_in(
            function.number(fields::PROLOGUE_AT),
            function.number(fields::PROLOGUE),
        ) {
            return false;
        }
        let at = function.number(fields::EPILOGUES_AT);
        let n = function.number(fields::EPILOGUES);
        if !lists::inside(at, n, (self.epilogues.len() / EPILOGUE_STRIDE) as u64) {
            return false;
        }
        self.epilogues_in(at as usize, n as usize)
    }

    pub fn functions_ok(&self, n: usize) -> bool
        requires { function_stride * n ≤ length self.now.functions.now }
        ensures { result ≡ all_in (function_ok_at self.now.functions.now self.now.epilogues.now self.now.codes.now) 0 n }
    {
        (0..n).all(|k| self.function_ok(record(self.functions, k)))
    }

    // ---- sums

    // The codes of a function, added to a sum.
    fn add_function(&self, function: Record<FUNCTION_STRIDE>, sum: u64) -> Option<u64>
        requires { (field function_stride function.list.now function.k 4 + field function_stride function.list.now function.k 5 ≤ count epilogue_stride self.now.epilogues.now) × (sum ≤ most_records) }
        ensures { result ≡ up_to (sum + codes_in function.entry.list.now self.now.epilogues.now function.entry.k) }
    {
        let at = function.number(fields::EPILOGUES_AT) as usize;
        let n = function.number(fields::EPILOGUES) as usize;
        let start = add(sum, function.number(fields::PROLOGUE))?;
        let mut total = start;
        for i in at..at + n {
            let epilogue: Record<EPILOGUE_STRIDE> = record(self.epilogues, i);
            total = add(total, epilogue.number(fields::CODES))?;
        }
        Some(total)
    }

    // The codes of n functions.
    fn codes_sum(&self, n: usize) -> Option<u64>
        requires { (function_stride * n ≤ length self.now.functions.now) × ((k : ℕ) → k < n → field function_stride self.now.functions.now k 4 + field function_stride self.now.functions.now k 5 ≤ count epilogue_stride self.now.epilogues.now) }
        ensures { result ≡ up_to (sum_of (codes_in self.now.functions.now self.now.epilogues.now) 0 n) }
    {
        let mut sum = 0;
        for k in 0..n {
            sum = self.add_function(record(self.functions, k), sum)?;
        }
        Some(sum)
    }

    // Question 13.
    pub fn ok(&self) -> bool
        ensures { result ≡ lists_ok self.now.functions.now self.now.epilogues.now self.now.codes.now }
    {
        let n = self.functions.len() / FUNCTION_STRIDE;
        if lists::MOST_FUNCTIONS < n {
            return false;
        }
        if !lists::sum_ok(self.functions, FUNCTION_STRIDE, fields::EPILOGUES, n) {
            return false;
        }
        if !self.functions_ok(n) {
            return false;
        }
        self.codes_sum(n).is_some()
    }
}

// A sum, where it is not above the most of records.
fn add(sum: u64, more: u64) -> Option<u64>
    ensures { result ≡ up_to (sum + more) }
{
    let total = sum.checked_add(more)?;
    (total <= lists::MOST_RECORDS).then_some(total)
}
