// What the questions said of functions, once they were answered by yes.
ghost use Rattle.std.specs.Prelude.{◌≡◌};
ghost use Rattle.std.proofs.Math.Option.{none};
ghost use Rattle.format.specs.X64.{prologue_no};
ghost use Rattle.x64.specs.Given.{codes_by, AllAgreed};

use crate::given::{Input, Span};

// A function of whose codes every question was answered by yes.
#[derive(Clone, Copy)]
pub struct Passed<'m, 'l> {
    pub span: Span<'m, 'l>,
    pub ghost passed: { prologue_no span.end (codes_by span) ≡ none },
}

// Functions of which every question was answered by yes.
#[derive(Clone, Copy)]
pub struct Cleared<'m, 'f, 'l> {
    pub input: Input<'m, 'f, 'l>,
    pub ghost agreed: { AllAgreed input },
}
