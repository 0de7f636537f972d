// The state of a run: the rules that hold, and the stored ones.
ghost use Rattle.std.specs.Prelude.{◌≡◌, ◌≤◌, length};

use format::Rules;

// The rules that hold, and the `depth` rules stored, the last at depth - 1.
// An array and its count: this type is Copy, which ArrayVec is not.
// Kept: the followed register and its rule after the header go beside it to `restore`, `act` and `perform`.
// They stay the same in a run over an entry's operations: as fields of the state they would be in what each of
// the eight steps may change, and the contract of each would say that they do not.
#[derive(Clone, Copy)]
pub struct State {
    pub rules: Rules,
    pub depth: usize,
    pub stored: [Rules; 16],
    pub ghost deep: { depth ≤ 16 },
    pub ghost long: { length stored ≡ 16 },
}
