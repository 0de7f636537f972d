// Where the parts of a function's record start.
ghost use Rattle.std.specs.Prelude.{◌^◌, ◌<◌};

// Where a record, its header and the function's call sites start.
#[derive(Clone, Copy)]
pub struct Places {
    pub at: usize,
    pub cie: usize,
    pub table: usize,
    pub ghost low: { at < 2 ^ 32 },
}
