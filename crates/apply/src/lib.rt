// Relocations applied: a section put in place (request W-211). `Reloc` is ported from rucc-asm/src/unwind.rs of tamnd/rucc, changed: see NOTICE; the rest is added.
#![tactic(auto)]

ghost use Rattle.std.specs.Prelude.{◌≡◌, ℕ, ◌+◌, ◌^◌, ◌<◌, ◌≤◌, T, length, pos, ◌-ℤ◌, ◌≤ℤ◌, ◌<ℤ◌, IfSome};
ghost use Rattle.std.proofs.Math.Option.{none, some};
ghost use Rattle.format.specs.Prelude.{after};
ghost use Rattle.format.specs.Coded.{numbered};
ghost use Rattle.format.specs.Put.{put};
ghost use Rattle.format.specs.Lists.{count, relocation_stride, relocation_at, relocations_of};
ghost use Rattle.format.proofs.Asked.{option_of};
ghost use Rattle.apply.specs.Kinds.{kind_of, bits_of, bytes_of, size_ok};
ghost use Rattle.apply.specs.Fields.{up_to, signed32, number_at};
ghost use Rattle.apply.specs.Values.{symbols_of, address_of, sum_of, apart, value_as, distance_of, store_of};
ghost use Rattle.apply.specs.Apply.{partners, paired, value_ok, near_as, sound, near, everywhere, stores, apply, Applies};
ghost use Rattle.apply.specs.Pairs.{PairsHold};
ghost use Rattle.apply.specs.Standing.{meant, placed, beside, before_at, behind_at, SumRange, true_value, fitted, patched, answer_of};

use format::Question;

// The width of a field that Set and Sub patch, in bits.
#[derive(Clone, Copy)]
pub enum Width {
    W6 = 6,
    W8 = 8,
    W16 = 16,
    W32 = 32,
}

// What a relocation is by its number.
// Kept: Unknown, and no Option of a kind. Nine definitions of specs/ have one line for it each. With an Option these lines go, but the 13 others of
// `kind_of` get a `some`, and `sound`, `near` and `store_of` two cases each for what a missing kind gives, in specs/ and here.
#[derive(Clone, Copy)]
pub enum Kind {
    Data,
    Address,
    SumPlus,
    SumMinus,
    Image,
    Set(Width),
    Sub(Width),
    Unknown,
}

#[derive(Clone, Copy)]
pub struct Reloc {
    pub place: u64,
    pub symbol: u64,
    pub kind: u64,
    pub bytes: u64,
    pub addend: u64,
}

// The kinds of Sub: each is one more than that of its Set.
const SUB6: u64 = relocs::SET6 + 1;

const SUB8: u64 = relocs::SET8 + 1;

const SUB16: u64 = relocs::SET16 + 1;

const SUB32: u64 = relocs::SET32 + 1;

impl From<u64> for Kind {
    ghost from_gives = { λ n k. k ≡ kind_of n };

    #[tactic(auto, unfolding(crate::specs::Kinds::kind_of, format::specs::Prelude::pick))]
    fn from(n: u64) -> Kind {
        match n {
            relocs::DATA => Kind::Data,
            relocs::ADDRESS => Kind::Address,
            relocs::SUM_PLUS => Kind::SumPlus,
            relocs::SUM_MINUS => Kind::SumMinus,
            relocs::IMAGE => Kind::Image,
            relocs::SET6 => Kind::Set(Width::W6),
            SUB6 => Kind::Sub(Width::W6),
            relocs::SET8 => Kind::Set(Width::W8),
            SUB8 => Kind::Sub(Width::W8),
            relocs::SET16 => Kind::Set(Width::W16),
            SUB16 => Kind::Sub(Width::W16),
            relocs::SET32 => Kind::Set(Width::W32),
            SUB32 => Kind::Sub(Width::W32),
            _ => Kind::Unknown,
        }
    }
}

impl Width {
    fn bits(self) -> u64
        ensures { result ≡ bits_of self }
    {
        self as u64
    }

    // 2 to the bits.
    fn modulus(self) -> u64
        ensures { (result ≡ 2 ^ bits_of self) × (0 < result) × (result ≤ 4294967296) }
    {
        1 << self.bits()
    }

    // The bytes that hold a field of that width.
    fn bytes(self) -> u64
        ensures { result ≡ bytes_of self }
    {
        self.bits().div_ceil(8)
    }
}

// The sizes that the writers give each kind.
#[tactic(auto, unfolding(crate::specs::Kinds::size_ok))]
fn size_ok(k: Kind, n: u64) -> bool
    ensures { result ≡ size_ok k n }
{
    match k {
        Kind::Data | Kind::Image => n == 4,
        Kind::Address | Kind::SumPlus | Kind::SumMinus => numbers::is_word(n),
        Kind::Set(w) | Kind::Sub(w) => n == w.bytes(),
        Kind::Unknown => false,
    }
}

// ---- relocations in a list

// How many there are.
fn count(relocs: &[u64]) -> usize
    ensures { result ≡ count relocation_stride relocs.now }
{
    relocs.len() / relocs::RELOCATION_STRIDE
}

#[tactic(auto, unfolding(format::specs::Lists::relocation_at))]
fn reloc_at(relocs: &[u64], i: usize) -> Reloc
    requires { i < count relocation_stride relocs.now }
    ensures { meant result ≡ relocation_at relocs.now i }
{
    let at = relocs::RELOCATION_STRIDE * i;
    Reloc {
        place: relocs[at],
        symbol: relocs[at + relocs::RELOCATION_SYMBOL],
        kind: relocs[at + relocs::RELOCATION_KIND],
        bytes: relocs[at + relocs::RELOCATION_BYTES],
        addend: relocs[at + relocs::RELOCATION_ADDEND],
    }
}

// A relocation in its list: its kind, and those right before and right behind it.
#[derive(Clone, Copy)]
pub struct InList {
    pub before: Option<Reloc>,
    pub reloc: Reloc,
    pub kind: Kind,
    pub behind: Option<Reloc>,
    pub ghost named: { kind ≡ kind_of reloc.kind },
}

#[tactic(auto, unfolding(crate::specs::Standing::beside, crate::specs::Standing::before_at, crate::specs::Standing::behind_at, format::specs::Prelude::pick))]
fn in_list(relocs: &[u64], i: usize) -> InList
    requires { i < count relocation_stride relocs.now }
    ensures { (beside result.before ≡ before_at relocs.now i) × (meant result.reloc ≡ relocation_at relocs.now i) × (beside result.behind ≡ behind_at relocs.now i) }
{
    let reloc = reloc_at(relocs, i);
    InList {
        before: i.checked_sub(1).map(|j| reloc_at(relocs, j)),
        reloc,
        behind: (i + 1 < count(relocs)).then(|| reloc_at(relocs, i + 1)),
        // Last, so that what is asked by kind stands right behind.
        kind: Kind::from(reloc.kind),
    }
}

// A relocation whose field has a size that the writers give its kind.
#[derive(Clone, Copy)]
pub struct Field<'a> {
    pub of: &'a InList,
    pub ghost sized: { T (size_ok of.now.kind of.now.reloc.bytes) },
}

// Whether s is the second of a pair that r is the first of.
#[tactic(auto, unfolding(crate::specs::Apply::partners))]
fn partners(r: Reloc, s: Reloc) -> bool
    ensures { result ≡ partners (meant r) (meant s) }
{
    s.kind.checked_sub(1) == Some(r.kind) && s.place == r.place && s.bytes == r.bytes
}

#[tactic(auto, unfolding(crate::specs::Apply::paired, crate::specs::Apply::leads, crate::specs::Apply::follows, crate::specs::Standing::beside))]
fn paired(x: &InList) -> bool
    ensures { result ≡ paired x.now.kind (beside x.now.before) (meant x.now.reloc) (beside x.now.behind) }
{
    match x.kind {
        Kind::SumPlus | Kind::Set(_) => x.behind.is_some_and(|s| partners(x.reloc, s)),
        Kind::SumMinus | Kind::Sub(_) => x.before.is_some_and(|s| partners(s, x.reloc)),
        Kind::Data | Kind::Address | Kind::Image | Kind::Unknown => true,
    }
}

// ---- values that have to fit

// A value from 0 to `most`.
#[tactic(auto, unfolding(crate::specs::Fields::up_to, format::specs::Prelude::pick))]
fn up_to(most: u64, z: i128) -> Option<u64>
    ensures { result ≡ option_of (up_to most z) }
{
    u64::try_from(z).ok().filter(|n| *n <= most)
}

// A value of 32 bits with a sign, in two's complement.
#[tactic(auto, unfolding(crate::specs::Fields::signed32, format::specs::Prelude::pick))]
fn signed32(z: i128) -> Option<u64>
    ensures { result ≡ option_of (signed32 z) }
{
    let v = i32::try_from(z).ok()?;
    Some(u64::from(v.cast_unsigned()))
}

// A value as it stands in a field of n bytes.
#[tactic(auto, using(crate::proofs::Tests::sized), unfolding(crate::specs::Standing::fitted))]
fn fitted(k: Kind, n: u64, z: i128) -> Option<u64>
    requires { T (size_ok k n) }
    ensures { result ≡ option_of (fitted k n z) }
{
    match k {
        Kind::Data => signed32(z),
        _ => up_to(numbers::largest(n), z),
    }
}

// ---- values: symbol plus addend less a base, without a width

// Where everything ended up: two numbers for each symbol, it and its address; the section's first byte; the image.
#[derive(Clone, Copy)]
pub struct Placement<'a> {
    pub addresses: &'a [u64],
    pub section: u64,
    pub image: u64,
}

// The numbers of a symbol with its address.
const ADDRESS_STRIDE: usize = 2;

impl Placement<'_> {
    // The address of a symbol: the first one listed.
    fn address_of(&self, symbol: u64) -> Option<u64>
        ensures { result ≡ option_of (address_of (symbols_of self.now.addresses.now) symbol) }
    {
        let n = self.addresses.len() / ADDRESS_STRIDE;
        // A loop: `find` takes an instruction more in each turn, and most of the time goes here.
        for i in 0..n {
            if self.addresses[ADDRESS_STRIDE * i] == symbol {
                return Some(self.addresses[ADDRESS_STRIDE * i + 1]);
            }
        }
        None
    }

    // Symbol plus addend.
    #[tactic(auto, unfolding(crate::specs::Values::sum_of, format::specs::Prelude::after))]
    fn sum(&self, r: Reloc) -> Option<i128>
        ensures { (result ≡ option_of (sum_of (symbols_of self.now.addresses.now) (meant r))) × IfSome result SumRange }
    {
        let s = self.address_of(r.symbol)?;
        Some(i128::from(s) + i128::from(r.addend.cast_signed()))
    }

    // The address of a relocation's field.
    fn field(&self, r: Reloc) -> i128
        ensures { (result ≡ pos (self.now.section + r.place)) × (result <ℤ pos (2 ^ 65)) }
    {
        i128::from(self.section) + i128::from(r.place)
    }

    // Symbol plus addend less a base.
    #[tactic(auto, unfolding(format::specs::Prelude::after))]
    fn less(&self, r: Reloc, base: i128) -> Option<i128>
        requires { (pos 0 ≤ℤ base) × (base <ℤ pos (2 ^ 65)) }
        ensures { result ≡ option_of (after (sum_of (symbols_of self.now.addresses.now) (meant r)) λ z. some (z -ℤ base)) }
    {
        Some(self.sum(r)? - base)
    }

    // Symbol plus addend less that of the relocation behind.
    // Inlined, as `true_value` and `value` are: for a call of one the whole InList would be stored.
    #[inline(always)]
    #[tactic(auto, unfolding(crate::specs::Values::apart, crate::specs::Standing::beside, format::specs::Prelude::after))]
    fn apart(&self, x: &InList) -> Option<i128>
        ensures { result ≡ option_of (apart (symbols_of self.now.addresses.now) (meant x.now.reloc) (beside x.now.behind)) }
    {
        let s = self.sum(x.reloc)?;
        Some(s - self.sum(x.behind?)?)
    }

    // The value of a relocation.
    #[inline(always)]
    #[tactic(auto, unfolding(crate::specs::Standing::true_value))]
    fn true_value(&self, x: &InList) -> Option<i128>
        ensures { result ≡ option_of (true_value x.now.kind (placed self.now) (meant x.now.reloc) (beside x.now.behind)) }
    {
        match x.kind {
            Kind::Data => self.less(x.reloc, self.field(x.reloc)),
            Kind::Address => self.sum(x.reloc),
            Kind::SumPlus => self.apart(x),
            Kind::Image => self.less(x.reloc, i128::from(self.image)),
            Kind::SumMinus | Kind::Set(_) | Kind::Sub(_) | Kind::Unknown => None,
        }
    }

    // The value as it stands in its field, where it fits.
    #[inline(always)]
    #[tactic(auto, using(crate::proofs::Tests::no_value))]
    fn value(&self, f: &Field) -> Option<u64>
        ensures { result ≡ option_of (value_as f.now.of.now.kind (placed self.now) (meant f.now.of.now.reloc) (beside f.now.of.now.behind)) }
    {
        let x = f.of;
        fitted(x.kind, x.reloc.bytes, self.true_value(x)?)
    }

    // The true distance of a Set and Sub pair, where its field holds it.
    #[tactic(auto, unfolding(crate::specs::Values::distance_of, format::specs::Prelude::after))]
    fn distance(&self, w: Width, x: &InList) -> Option<u64>
        ensures { result ≡ option_of (distance_of w (symbols_of self.now.addresses.now) (meant x.now.reloc) (beside x.now.behind)) }
    {
        up_to(w.modulus() - 1, self.apart(x)?)
    }

    // ---- questions 79 and 80

    // The value fits, where there is one that has to.
    #[tactic(auto, using(format::proofs::Asked::some_is), unfolding(crate::specs::Apply::value_ok, crate::specs::Apply::measured))]
    fn value_ok(&self, f: &Field) -> bool
        ensures { result ≡ value_ok f.now.of.now.kind (placed self.now) (meant f.now.of.now.reloc) (beside f.now.of.now.behind) }
    {
        match f.of.kind {
            Kind::Data | Kind::Address | Kind::SumPlus | Kind::Image => self.value(f).is_some(),
            Kind::SumMinus | Kind::Set(_) | Kind::Sub(_) | Kind::Unknown => true,
        }
    }

    // Question 79 of one relocation.
    #[tactic(auto, using(format::proofs::Asked::some_is), unfolding(crate::specs::Apply::sound, format::specs::Lists::inside))]
    fn sound(&self, size: usize, x: &InList) -> bool
        ensures { result ≡ sound (placed self.now) size (beside x.now.before) (meant x.now.reloc) (beside x.now.behind) }
    {
        size_ok(x.kind, x.reloc.bytes)
            && paired(x)
            && self.address_of(x.reloc.symbol).is_some()
            && numbers::inside(x.reloc.place, x.reloc.bytes, size as u64)
            && self.value_ok(&Field { of: x })
    }

    // Question 80 of one relocation.
    #[tactic(auto, using(format::proofs::Asked::some_is), unfolding(crate::specs::Apply::near_as))]
    fn near(&self, x: &InList) -> bool
        ensures { result ≡ near_as (kind_of x.now.reloc.kind) (symbols_of self.now.addresses.now) (meant x.now.reloc) (beside x.now.behind) }
    {
        match x.kind {
            Kind::Set(w) => self.distance(w, x).is_some(),
            _ => true,
        }
    }

    fn all_sound(&self, relocs: &[u64], size: usize) -> bool
        ensures { result ≡ everywhere (sound (placed self.now) size) none (relocations_of relocs.now) }
    {
        (0..count(relocs)).all(|i| self.sound(size, &in_list(relocs, i)))
    }

    fn all_near(&self, relocs: &[u64]) -> bool
        ensures { result ≡ everywhere (near (symbols_of self.now.addresses.now)) none (relocations_of relocs.now) }
    {
        (0..count(relocs)).all(|i| self.near(&in_list(relocs, i)))
    }
}

// ---- stores

// The number in the bytes of a field of that width.
fn number_at(copy: &[u8], p: usize, w: Width) -> u64
    requires { p + bytes_of w ≤ length copy.now }
    ensures { (result ≡ number_at copy.now p (bytes_of w)) × (result < 4294967296) }
{
    match w {
        Width::W6 | Width::W8 => u64::from(copy[p]),
        Width::W16 => u64::from(u16::from_le_bytes([copy[p], copy[p + 1]])),
        Width::W32 => {
            u64::from(u32::from_le_bytes([copy[p], copy[p + 1], copy[p + 2], copy[p + 3]]))
        }
    }
}

// Bytes at the front of a buffer. The library's copy becomes memmove, which the archive for C must not need.
fn copy_in(out: &mut [u8], bytes: &[u8])
    requires { length bytes.now ≤ length out.old }
    ensures { out.new ≡ put out.old 0 bytes.now }
{
    for i in 0..bytes.len() {
        out[i] = bytes[i];
    }
}

impl Placement<'_> {
    // What `made` makes of what a field of Set and Sub holds and of symbol plus addend, both as 64 bits: its low bits are stored, and the
    // bits above the field stay.
    fn patch<F: Fn(u64, u64) -> u64>(&self, copy: &mut [u8], r: Reloc, w: Width, made: F)
        requires { (r.place + bytes_of w ≤ length copy.old) × ((x y : ℕ) → F.pre made x y) }
        ensures { (of : ℕ → ℕ → ℕ) → ((x y v : ℕ) → F.post made x y v → v ≡ of x y) → copy.new ≡ patched w of copy.old r.place (sum_of (symbols_of self.now.addresses.now) (meant r)) }
    {
        let Some(s) = self.address_of(r.symbol) else {
            return;
        };
        let m = w.modulus();
        let place = r.place as usize;
        let old = number_at(copy, place, w);
        let v = made(old % m, s.wrapping_add(r.addend)) % m;
        leb::le(copy, place, w.bytes() as usize, old / m * m + v);
    }

    // The store of one relocation.
    fn store(&self, copy: &mut [u8], f: &Field)
        requires { f.now.of.now.reloc.place + f.now.of.now.reloc.bytes ≤ length copy.old }
        ensures { copy.new ≡ store_of (placed self.now) copy.old (meant f.now.of.now.reloc) (beside f.now.of.now.behind) }
    {
        let r = f.of.reloc;
        match f.of.kind {
            Kind::Set(w) => self.patch(copy, r, w, |_, sum| sum),
            Kind::Sub(w) => self.patch(copy, r, w, |held, sum| held.wrapping_sub(sum)),
            _ => {
                if let Some(v) = self.value(f) {
                    leb::le(copy, r.place as usize, r.bytes as usize, v);
                }
            }
        }
    }

    // The stores of all relocations, in list order.
    fn store_all(&self, copy: &mut [u8], relocs: &[u64])
        requires { T (everywhere (sound (placed self.now) (length copy.old)) none (relocations_of relocs.now)) }
        ensures { copy.new ≡ stores (placed self.now) copy.old (relocations_of relocs.now) }
    {
        for i in 0..count(relocs) {
            let x = in_list(relocs, i);
            self.store(copy, &Field { of: &x });
        }
    }

    // ---- the whole

    /// A section's bytes with its relocations applied, at the front of `out`. Where a question is answered by no, `out` is as it was. Else the field
    /// of each Set and Sub pair that no other relocation shares, of 6, 8, 16 or 32 bits, holds the distance of the pair's labels, although the sums
    /// and what is stored between wrap; and the bits above a 6-bit field are as they were.
    pub fn apply(&self, bytes: &[u8], relocs: &[u64], out: &mut [u8]) -> Result<(), Question>
        ensures applied { Applies (apply bytes.now relocs.now self.now.addresses.now self.now.section self.now.image (length out.old)) (answer_of (numbered result)) out.old out.new }
        ensures pairs { answer_of (numbered result) ≡ 0 → PairsHold (symbols_of self.now.addresses.now) (relocations_of relocs.now) bytes.now out.new }
    {
        let n = bytes.len();
        if out.len() < n {
            return Err(Question::BytesRoom);
        }
        if !self.all_sound(relocs, n) {
            return Err(Question::Relocations);
        }
        if !self.all_near(relocs) {
            return Err(Question::Distance);
        }
        copy_in(&mut out[..n], bytes);
        self.store_all(&mut out[..n], relocs);
        Ok(())
    }
}

// ---- the entry

// A section's bytes with its relocations applied, at the front of `out`: 0, or 52, 79 or 80, and `out` is then as it was. `section` is the
// address of the first byte; `addresses` are two numbers each, a symbol and its address.
#[unsafe(no_mangle)]
pub extern "C" fn unwind_apply(
    bytes: &[u8],
    relocations: &[u64],
    addresses: &[u64],
    section: u64,
    image: u64,
    out: &mut [u8],
) -> u64
    ensures { Applies (apply bytes.now relocations.now addresses.now section image (length out.old)) result out.old out.new }
{
    let placement = Placement {
        addresses,
        section,
        image,
    };
    match placement.apply(bytes, relocations, out) {
        Ok(()) => 0,
        Err(question) => question.number(),
    }
}
