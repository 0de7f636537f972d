// Header owners: the first earlier function whose header a function can use. Ported from rucc-asm/src/unwind.rs (choose) of tamnd/rucc, changed: see NOTICE.
#![tactic(auto)]

ghost use Rattle.std.specs.Prelude.{◌≡◌, true, ◌&&◌, ◌+◌, ◌*◌, ◌^◌, ◌≤◌, ◌<◌, length, IfSome};
ghost use Rattle.std.specs.Bool.{beq};
ghost use Rattle.format.specs.Headers.{same_encoding, same_kind, same_key};
ghost use Rattle.header_keys.specs.Functions.{key_in};
ghost use Rattle.header_keys.specs.Inputs.{inputs_of, ListedTo, RowsIn};
ghost use Rattle.header_keys.specs.Kinds.{lsda_of, named_by, kind_in};
ghost use Rattle.owners.specs.Owners.{key_at, leading_of, same_at, owner, EarlierOwner};
ghost use Rattle.owners.specs.Chains.{row_number, mixed, kind_number, digest_of, slot_at, behind_in, Chained};
ghost use Rattle.owners.specs.Lent.{SameChains, LongFor, EmptyFor, FoundIn, OwnedIn};

use format::Row;
use header_keys::{Input, Kind, kind_of};
use lists::{Extent, Lsda, Personality};

// The lists that the functions' owners are found in: the last owner of each slot, the one behind each owner, and the owners.
// Kept: three lists. The first has an entry for each slot, the others one for each function, and these two are not read together: a chain is followed
// by `links` alone, and an owner is looked up in `owners` alone, also after all chains are done with.
#[derive(Drop)]
pub struct Chains<'a> {
    pub heads: &'a mut [u16],
    pub links: &'a mut [u16],
    pub owners: &'a mut [u16],
}

// ---- kinds of header

// Two functions' LSDAs have one encoding, or neither has one.
#[tactic(auto, unfolding(header_keys::specs::Kinds::lsda_of, format::specs::Headers::same_encoding))]
fn same_lsda(a: Option<Lsda>, b: Option<Lsda>) -> bool
    ensures { result ≡ same_encoding (lsda_of a) (lsda_of b) }
{
    match (a, b) {
        (Some(l), Some(m)) => l.encoding == m.encoding,
        (None, None) => true,
        _ => false,
    }
}

// Two named personalities make one kind: by their encodings, their symbols and the LSDA's encoding.
#[tactic(auto, unfolding(format::specs::Headers::same_kind))]
fn same_named(a: &Personality, b: &Personality) -> bool
    ensures { result ≡ same_kind (named_by a.now) (named_by b.now) }
{
    if a.encoding != b.encoding {
        return false;
    }
    if a.routine != b.routine {
        return false;
    }
    same_lsda(a.lsda, b.lsda)
}

// Two functions ask for one kind of header.
// Kept: no `==` of two keys that are made first. This is asked of each function of a chain, and is left at the first difference.
#[tactic(auto, unfolding(header_keys::specs::Kinds::kind_meant, header_keys::specs::Kinds::asked_kind, header_keys::specs::Kinds::by_personality, format::specs::Headers::same_kind, format::specs::Prelude::pick))]
fn same_kind(a: &Extent, b: &Extent) -> bool
    ensures { result ≡ same_kind (kind_in a.now) (kind_in b.now) }
{
    if a.landings != 0 {
        return b.landings != 0;
    }
    if b.landings != 0 {
        return false;
    }
    match a.personality {
        None => b.personality.is_none(),
        Some(p) => match b.personality {
            None => false,
            Some(q) => same_named(&p, &q),
        },
    }
}

// Two functions ask for one kind of header and agree in the signal mark.
fn same_kind_and_signal(a: &Extent, b: &Extent) -> bool
    ensures { result ≡ same_kind (kind_in a.now) (kind_in b.now) && beq a.now.signal b.now.signal }
{
    same_kind(a, b) && a.signal == b.signal
}

// ---- leading rows

// Leading row i of two functions is the same.
// Kept: that a record's rows can be read is asked here and in `digest` alone; what calls them has it of function k by its number.
#[tactic(auto, unfolding(crate::specs::Owners::same_at, format::specs::Rows::same_row, format::specs::Rows::kind_of, format::specs::Rows::reg_of, format::specs::Rows::offset_of, format::specs::Rows::same_offset))]
fn same_leading(x: &Input, a: Extent, b: Extent, i: usize) -> bool
    requires { RowsIn (inputs_of x.now) a × RowsIn (inputs_of x.now) b × (i < length (leading_of (inputs_of x.now) a)) × (i < length (leading_of (inputs_of x.now) b)) }
    ensures { result ≡ same_at (leading_of (inputs_of x.now) a) (leading_of (inputs_of x.now) b) i }
{
    let first = header_keys::leading_at(&x.machine, &a, x.lists.rows, i);
    let second = header_keys::leading_at(&x.machine, &b, x.lists.rows, i);
    first == second
}

// ---- digests of keys

// A row's number.
fn row_number(r: Row) -> u64
    ensures { (result ≡ row_number r) × (result < 2 ^ 50) }
{
    rows::kind(r)
        + 17 * rows::register(r) as u64
        + 131101 * (rows::size(rows::offset(r)) % 4294967296)
}

// The digest of rows, one row further.
fn mixed(d: u64, r: Row) -> u64
    requires { d < 2 ^ 34 }
    ensures { (result ≡ mixed d r) × (result < 2 ^ 34) }
{
    (33 * d + row_number(r)) % 4294967296
}

// What the digest of a function's key starts with: its kind of header.
#[tactic(auto, unfolding(header_keys::specs::Kinds::kind_meant, crate::specs::Chains::kind_number))]
fn kind_number(e: Extent) -> u64
    ensures { (result ≡ kind_number (kind_in e)) × (result < 2 ^ 34) }
{
    match kind_of(&e) {
        Kind::Plain => 0,
        Kind::Personal => 1,
        Kind::Named(p) => 2 + p.routine % 4294967296,
    }
}

// The digest of a function's key.
fn digest(x: &Input, e: Extent) -> u64
    requires { RowsIn (inputs_of x.now) e }
    ensures { result ≡ digest_of (key_in x.now.machine e x.now.lists.rows.now) }
{
    let n = header_keys::leading_count(&x.machine, &e, x.lists.rows);
    let mut d = kind_number(e);
    for i in 0..n {
        d = mixed(d, header_keys::leading_at(&x.machine, &e, x.lists.rows, i));
    }
    d
}

// The slot of function k's key among `size`.
// Kept: that the first k + 1 functions can be read is asked here and in what follows, and no struct holds it. Public `find_owner` takes x and
// k, so that it would make the struct for each k; and the contracts of `choose`, `surely_shares`, `inherited` and `seek`, which ask this
// once, name x twice more and k two or three times, which would be the longer names of the struct's parts.
fn slot(x: &Input, k: usize, size: usize) -> usize
    requires { ListedTo (inputs_of x.now) (k + 1) × (0 < size) }
    ensures { (result ≡ slot_at (inputs_of x.now) size k) × (result < size) }
{
    digest(x, x.function(k)) as usize % size
}

// ---- functions

// The function behind function j in its chain. Function 0 ends every chain.
#[tactic(auto, unfolding(crate::specs::Chains::behind_in, format::specs::Prelude::pick))]
fn behind(links: &[u16], j: usize) -> Option<usize>
    requires { j < length links.now }
    ensures { result ≡ behind_in links.now j }
{
    if j == 0 {
        return None;
    }
    Some(usize::from(links[j]))
}

// The first earlier function whose header function k can use, sought in the chain of its slot, which starts at `first`.
// Kept: loops with labels over functions and over leading rows, left by their label when it is decided, are a form that document 01 names
// (docs/DECISIONS.md). As `find` over the chain and `all` over the rows neither loop would have its label.
fn choose(x: &Input, k: usize, first: usize, chains: &Chains) -> Option<usize>
    requires { ListedTo (inputs_of x.now) (k + 1) × Chained (inputs_of x.now) (length chains.now.heads.now) k first chains.now.links.now }
    ensures { EarlierOwner (inputs_of x.now) k result }
{
    let own = x.function(k);
    let count = header_keys::leading_count(&x.machine, &own, x.lists.rows);
    let mut next = (0 < k).then_some(first);
    'functions: while let Some(j) = next {
        next = behind(chains.links, j);
        let other = x.function(j);
        if !same_kind_and_signal(&other, &own) {
            continue 'functions;
        }
        if header_keys::leading_count(&x.machine, &other, x.lists.rows) != count {
            continue 'functions;
        }
        'rows: for i in 0..count {
            if same_leading(x, other, own, i) {
                continue 'rows;
            }
            continue 'functions;
        }
        return Some(j);
    }
    None
}

// A yes says that function k can use function j's header, where neither has leading rows beside those that a call implies. A no
// says nothing.
fn surely_shares(x: &Input, j: usize, k: usize) -> bool
    requires { ListedTo (inputs_of x.now) (k + 1) × (j ≤ k) }
    ensures { result ≡ true → same_key (key_at (inputs_of x.now) j) (key_at (inputs_of x.now) k) ≡ true }
{
    let a = x.function(j);
    let b = x.function(k);
    if !same_kind_and_signal(&a, &b) {
        return false;
    }
    if a.simple != b.simple {
        return false;
    }
    if 0 < header_keys::ahead(&a, x.lists.rows) {
        return false;
    }
    header_keys::ahead(&b, x.lists.rows) == 0
}

// The owner of the function in front of function k, where it is surely function k's as well. None says nothing.
fn inherited(x: &Input, k: usize, chains: &Chains) -> Option<usize>
    requires { ListedTo (inputs_of x.now) (k + 1) × OwnedIn (inputs_of x.now) k chains.now }
    ensures { IfSome result (λ o. (o ≡ owner (inputs_of x.now) k) × (o < k)) }
{
    if k == 0 {
        return None;
    }
    let o = usize::from(chains.owners[k - 1]);
    if surely_shares(x, o, k) {
        return Some(o);
    }
    None
}

// Function k's owner, sought in its chain and stored.
fn seek(x: &Input, k: usize, chains: &mut Chains)
    requires { ListedTo (inputs_of x.now) (k + 1) × LongFor (k + 1) chains.old × FoundIn (inputs_of x.now) (length chains.old.heads.now) k chains.old }
    ensures { FoundIn (inputs_of x.now) (length chains.old.heads.now) (k + 1) chains.new × SameChains chains.old chains.new }
{
    let h = slot(x, k, chains.heads.len());
    let first = chains.heads[h];
    chains.links[k] = first;
    if let Some(o) = choose(x, k, usize::from(first), chains) {
        chains.owners[k] = o as u16;
        return;
    }
    chains.owners[k] = k as u16;
    chains.heads[h] = k as u16;
}

// Function k's owner, found and stored: often that of the function in front of it.
pub fn find_owner(x: &Input, k: usize, chains: &mut Chains)
    requires { ListedTo (inputs_of x.now) (k + 1) × LongFor (k + 1) chains.old × FoundIn (inputs_of x.now) (length chains.old.heads.now) k chains.old }
    ensures { FoundIn (inputs_of x.now) (length chains.old.heads.now) (k + 1) chains.new × SameChains chains.old chains.new }
{
    if let Some(owner) = inherited(x, k, chains) {
        chains.owners[k] = owner as u16;
        return;
    }
    seek(x, k, chains);
}

// The owner of each of n functions: the first function whose header it can use, or itself. `heads` and `links` chain the
// owners by the slots of their keys, so that only those of one slot are compared.
pub fn owners(x: &Input, n: usize, chains: &mut Chains)
    requires { ListedTo (inputs_of x.now) n × EmptyFor n chains.old }
    ensures { OwnedIn (inputs_of x.now) n chains.new × SameChains chains.old chains.new }
{
    for k in 0..n {
        find_owner(x, k, chains);
    }
}
