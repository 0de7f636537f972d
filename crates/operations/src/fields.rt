// Numbers read out of a slice: LEB numbers, with whether they are spelled shortest, and fields of a fixed width. Each reading leaf takes a
// position by value and gives the position past what it read.
ghost use Rattle.std.specs.Prelude.{◌≡◌, ◌+◌, ◌-◌, ◌*◌, ◌^◌, ◌≤◌, ◌<◌, eqb, length};
ghost use Rattle.operations.specs.Positions.{uleb_at, sleb_at, little_at, past};
ghost use Rattle.operations.specs.Signs.{signed, spelled_to, held};
ghost use Rattle.operations.specs.Groups.{GroupsAt};

// Where the next number stands, and whether every LEB number in front of it that was read is spelled shortest.
#[derive(Clone, Copy)]
pub struct Position {
    pub at: usize,
    pub shortest: bool,
}

impl Position {
    // Where nothing was read yet.
    pub const START: Position = Position {
        at: 0,
        shortest: true,
    };
}

// A place with nothing read in front of it.
impl From<usize> for Position {
    ghost use Rattle.std.specs.Prelude.{◌≡◌};
    ghost use Rattle.operations.specs.Positions.{from};

    ghost from_gives = { λ p at. at ≡ from p };

    fn from(at: usize) -> Position {
        Position {
            at,
            ..Position::START
        }
    }
}

// A LEB number's last byte, the count of the groups before it, the scale that they stand below, what they make, and the place past the number.
#[derive(Clone, Copy)]
struct Groups {
    top: u64,
    count: usize,
    scale: u64,
    low: u64,
    end: usize,
}

// The bytes of a LEB number: ten at most, and the last is below 128.
// Kept: by place. Over `s.get(at..)?.iter().enumerate()` a place past the end would be one more exit, and the place past the number the
// sum `at + k + 1`.
fn last_byte(s: &[u8], at: usize) -> Option<Groups>
    ensures { GroupsAt s.now at result }
{
    let mut scale = 1u64;
    let mut acc = 0u64;
    for i in at..s.len() {
        let k = i - at;
        let b = u64::from(s[i]);
        if b < 128 {
            return Some(Groups {
                top: b,
                count: k,
                scale,
                low: acc,
                end: i + 1,
            });
        }
        if k == 9 {
            return None;
        }
        acc = (b - 128) * scale + acc;
        scale = scale * 128;
    }
    None
}

// The position `end`, past a number from `at` on that `size` bytes would hold.
fn past(at: Position, end: usize, size: usize) -> Position
    requires { at.at ≤ end }
    ensures { result ≡ past at (eqb (end - at.at) size) end }
{
    Position {
        at: end,
        shortest: at.shortest && end - at.at == size,
    }
}

// The unsigned LEB number at `at`, of ten bytes at most and below 2^64, and the position past it.
pub fn read_uleb(s: &[u8], at: Position) -> Option<(u64, Position)>
    ensures { result ≡ uleb_at s.now at }
{
    let g = last_byte(s, at.at)?;
    if g.count == 9 && 2 <= g.top {
        return None;
    }
    let v = g.top * g.scale + g.low;
    Some((v, past(at, g.end, leb::uleb_size(v))))
}

// m, or -(m + 1) where neg is true.
fn signed_of(neg: bool, m: u64) -> i64
    requires { m < 2 ^ 63 }
    ensures { result ≡ signed neg m }
{
    if neg { -1 - (m as i64) } else { m as i64 }
}

// A number that was read, from `at` to `end`.
fn signed_value(v: i64, at: Position, end: usize) -> Option<(i64, Position)>
    requires { at.at ≤ end }
    ensures { result ≡ spelled_to v at end }
{
    Some((v, past(at, end, leb::sleb_size(v))))
}

// What is read where the groups are turned: the tenth byte holds a sign alone.
fn signed_past(neg: bool, g: Groups, at: Position) -> Option<(i64, Position)>
    requires { (g.count ≤ 9) × (g.scale ≡ 128 ^ g.count) × (g.top < 64) × (g.low < g.scale) × (at.at ≤ g.end) }
    ensures { result ≡ held neg (g.top * g.scale + g.low) at g.end }
{
    if g.count == 9 && 0 < g.top {
        return None;
    }
    signed_value(signed_of(neg, g.top * g.scale + g.low), at, g.end)
}

// The signed LEB number at `at`, of ten bytes at most and of 64 bits, and the position past it.
pub fn read_sleb(s: &[u8], at: Position) -> Option<(i64, Position)>
    ensures { result ≡ sleb_at s.now at }
{
    let g = last_byte(s, at.at)?;
    if g.top < 64 {
        return signed_past(false, g, at);
    }
    let turned = Groups {
        top: 127 - g.top,
        low: g.scale - 1 - g.low,
        ..g
    };
    signed_past(true, turned, at)
}

// The field of n bytes at `at`, the lowest first, and the position past it: it is read from its end.
pub fn read_le(s: &[u8], at: Position, n: usize) -> Option<(u64, Position)>
    requires { n ≤ 8 }
    ensures { result ≡ little_at n s.now at }
{
    let from = at.at;
    if s.len() < from {
        if n == 0 {
            return Some((0, Position { at: s.len(), ..at }));
        }
        return None;
    }
    if s.len() - from < n {
        return None;
    }
    let mut acc = 0u64;
    // Kept: from the last byte to the first. In a `fold` over the bytes the bound of the product is a clause of the closure, by how many bytes came
    // before; `from_le_bytes` takes arrays of one size, and n is any number to 8.
    for i in (0..n).rev() {
        let b = u64::from(s[from + i]);
        acc = acc * 256 + b;
    }
    Some((acc, Position { at: from + n, ..at }))
}
