//! The augmentation of a CIE: the letters of its string, and the data that they announce.

ghost use Rattle.std.specs.Prelude.{◌≡◌, ◌+◌, ◌≤◌, ◌<◌, ◌==◌, length, IfOk, IfSome};
ghost use Rattle.std.specs.List.{position};
ghost use Rattle.cfi_fields.specs.Augmentations.{Inside, byte_at, encoding_at, pointers_at, personality_at};
ghost use Rattle.cfi_fields.specs.Augmentations.{lsda_at};
ghost use Rattle.cfi_fields.specs.Augmentations.{with_pointers, with_personality, with_lsda, with_letter};
ghost use Rattle.cfi_fields.specs.Augmentations.{with_letters};
ghost use Rattle.cfi_fields.specs.Augmentations.{has_data, augmentation_at};

use cfi_entries::places::uleb;
use cfi_entries::{Question, Refusal};
use cfi_pointers::encoding::DW_EH_PE_OMIT;
use cfi_pointers::{AddressSize, Bases, Encoding, pointer_at};

/// The personality routine of a function.
#[derive(Clone, Copy, PartialEq, Eq, Debug)]
pub struct Personality {
    /// The routine's address, or where that stands.
    pub address: u64,
    pub indirect: bool,
}

/// What the string and its data say.
#[derive(Clone, Copy, PartialEq, Eq, Debug)]
pub struct Augmentation {
    /// `z`: CIE and FDEs have augmentation data.
    pub augmented: bool,
    /// `R`: the encoding of the pointers in FDEs.
    pub pointers: Option<Encoding>,
    /// `P`, and the routine where one is named.
    pub has_personality: bool,
    pub personality: Option<Personality>,
    /// `L`, and the encoding of the FDEs' pointers to call sites where they have them.
    pub has_lsda: bool,
    pub lsda: Option<Encoding>,
    /// `S`: the frame of a signal handler.
    pub signal: bool,
    /// `B`: return addresses are signed with AArch64's B key.
    pub b_key: bool,
    /// `G`: frames are tagged, as AArch64's memory tagging does.
    pub tagged: bool,
}

/// What was read of an augmentation, and where its data goes on.
#[derive(Clone, Copy)]
pub struct Augmented {
    pub says: Augmentation,
    pub next: usize,
}

/// The byte at a place.
pub fn byte(s: &[u8], at: usize) -> Result<u8, Refusal>
    ensures value { result ≡ byte_at s.now at }
    ensures inside { IfOk result (λ b. at < length s.now) }
{
    if s.len() <= at {
        return Err(Refusal::new(Question::Fields, at));
    }
    Ok(s[at])
}

/// The encoding at a place.
#[tactic(auto, unfolding(crate::specs::Augmentations::encoding_at))]
fn encoding_in(s: &[u8], at: usize) -> Result<Encoding, Refusal>
    ensures value { result ≡ encoding_at s.now at }
    ensures inside { IfOk result (λ e. at < length s.now) }
{
    let b = byte(s, at)?;
    let Some(read) = Encoding::new(b) else {
        return Err(Refusal::new(Question::Fields, at));
    };
    Ok(read)
}

/// The encoding of the pointers in FDEs, which are not indirect.
#[tactic(auto, unfolding(crate::specs::Augmentations::pointers_at))]
fn pointers_in(s: &[u8], at: usize) -> Result<Encoding, Refusal>
    ensures value { result ≡ pointers_at s.now at }
    ensures inside { IfOk result (λ e. at < length s.now) }
{
    let read = encoding_in(s, at)?;
    if read.indirect {
        return Err(Refusal::new(Question::Fields, at));
    }
    Ok(read)
}

/// A personality by its encoding, and where the data goes on.
#[tactic(auto, unfolding(crate::specs::Augmentations::personality_at))]
fn personality_in(
    s: &[u8],
    at: usize,
    size: AddressSize,
    bases: &Bases,
) -> Result<(Option<Personality>, usize), Refusal>
    ensures value { result ≡ personality_at size bases.now s.now at }
    ensures inside { IfOk result (λ x. x.1 ≤ length s.now) }
{
    let b = byte(s, at)?;
    if b == DW_EH_PE_OMIT {
        return Ok((None, at + 1));
    }
    let encoding = encoding_in(s, at)?;
    let pointer = pointer_at(s, at + 1, encoding, size, bases)?;
    let routine = Personality {
        address: pointer.address,
        indirect: encoding.indirect,
    };
    Ok((Some(routine), pointer.next))
}

/// The encoding of the pointers to call sites, where there are any.
#[tactic(auto, unfolding(crate::specs::Augmentations::lsda_at))]
fn lsda_in(s: &[u8], at: usize) -> Result<Option<Encoding>, Refusal>
    ensures value { result ≡ lsda_at s.now at }
    ensures inside { IfOk result (λ e. at < length s.now) }
{
    let b = byte(s, at)?;
    if b == DW_EH_PE_OMIT {
        return Ok(None);
    }
    let read = encoding_in(s, at)?;
    Ok(Some(read))
}

/// The letter R.
#[tactic(auto, unfolding(crate::specs::Augmentations::with_pointers))]
fn with_pointers(s: &[u8], string: usize, x: Augmented) -> Result<Augmented, Refusal>
    requires { x.next ≤ length s.now }
    ensures value { result ≡ with_pointers s.now string x }
    ensures inside { IfOk result (Inside (length s.now)) }
{
    if !x.says.augmented || x.says.pointers.is_some() {
        return Err(Refusal::new(Question::Fields, string));
    }
    let read = pointers_in(s, x.next)?;
    Ok(Augmented {
        says: Augmentation {
            pointers: Some(read),
            ..x.says
        },
        next: x.next + 1,
    })
}

/// The letter P.
#[tactic(auto, unfolding(crate::specs::Augmentations::with_personality))]
fn with_personality(
    s: &[u8],
    size: AddressSize,
    bases: &Bases,
    string: usize,
    x: Augmented,
) -> Result<Augmented, Refusal>
    requires { x.next ≤ length s.now }
    ensures value { result ≡ with_personality size bases.now s.now string x }
    ensures inside { IfOk result (Inside (length s.now)) }
{
    if !x.says.augmented || x.says.has_personality {
        return Err(Refusal::new(Question::Fields, string));
    }
    let (routine, next) = personality_in(s, x.next, size, bases)?;
    Ok(Augmented {
        says: Augmentation {
            has_personality: true,
            personality: routine,
            ..x.says
        },
        next,
    })
}

/// The letter L.
#[tactic(auto, unfolding(crate::specs::Augmentations::with_lsda))]
fn with_lsda(s: &[u8], string: usize, x: Augmented) -> Result<Augmented, Refusal>
    requires { x.next ≤ length s.now }
    ensures value { result ≡ with_lsda s.now string x }
    ensures inside { IfOk result (Inside (length s.now)) }
{
    if !x.says.augmented || x.says.has_lsda {
        return Err(Refusal::new(Question::Fields, string));
    }
    let read = lsda_in(s, x.next)?;
    Ok(Augmented {
        says: Augmentation {
            has_lsda: true,
            lsda: read,
            ..x.says
        },
        next: x.next + 1,
    })
}

/// What a letter adds. It stands once, and one that has data stands behind `z`.
#[tactic(auto, unfolding(crate::specs::Augmentations::with_letter))]
fn with_letter(
    s: &[u8],
    size: AddressSize,
    bases: &Bases,
    string: usize,
    letter: u8,
    x: Augmented,
) -> Result<Augmented, Refusal>
    requires { x.next ≤ length s.now }
    ensures value { result ≡ with_letter size bases.now s.now string letter x }
    ensures inside { IfOk result (Inside (length s.now)) }
{
    let says = x.says;
    match letter {
        b'R' => with_pointers(s, string, x),
        b'P' => with_personality(s, size, bases, string, x),
        b'L' => with_lsda(s, string, x),
        b'S' if !says.signal => Ok(Augmented {
            says: Augmentation {
                signal: true,
                ..says
            },
            ..x
        }),
        b'B' if !says.b_key => Ok(Augmented {
            says: Augmentation {
                b_key: true,
                ..says
            },
            ..x
        }),
        b'G' if !says.tagged => Ok(Augmented {
            says: Augmentation {
                tagged: true,
                ..says
            },
            ..x
        }),
        _ => Err(Refusal::new(Question::Fields, string)),
    }
}

/// What the letters add, one after the other.
#[tactic(auto, using(crate::proofs::Letters::letters_more, crate::proofs::Letters::letters_end))]
fn with_letters(
    s: &[u8],
    size: AddressSize,
    bases: &Bases,
    string: usize,
    letters: &[u8],
    first: Augmented,
) -> Result<Augmented, Refusal>
    requires { first.next ≤ length s.now }
    ensures value { result ≡ with_letters size bases.now s.now string letters.now first }
{
    let mut x = first;
    for letter in letters {
        match with_letter(s, size, bases, string, *letter, x) {
            Ok(more) => x = more,
            Err(refusal) => return Err(refusal),
        }
    }
    Ok(x)
}

/// How many bytes stand in front of the first 0.
pub fn text_size(text: &[u8]) -> Option<usize>
    ensures value { result ≡ position (λ b. b == 0) text.now }
    ensures below { IfSome result (λ n. n < length text.now) }
{
    text.iter().position(|b| *b == 0)
}

/// Whether a string starts with `z`.
fn has_data(text: &[u8]) -> bool
    ensures value { result ≡ has_data text.now }
{
    text.len() > 0 && text[0] == b'z'
}

/// An augmentation by its string, whose data stands at `at`, and where the operations start.
#[tactic(auto, unfolding(crate::specs::Augmentations::augmentation_at))]
pub fn augmentation_at(
    s: &[u8],
    size: AddressSize,
    bases: &Bases,
    string: usize,
    text: &[u8],
    at: usize,
) -> Result<Augmented, Refusal>
    requires { at ≤ length s.now }
    ensures value { result ≡ augmentation_at size bases.now s.now string text.now at }
    ensures inside { IfOk result (Inside (length s.now)) }
{
    let nothing = Augmentation {
        augmented: false,
        pointers: None,
        has_personality: false,
        personality: None,
        has_lsda: false,
        lsda: None,
        signal: false,
        b_key: false,
        tagged: false,
    };
    if !has_data(text) {
        let read = with_letters(
            s,
            size,
            bases,
            string,
            text,
            Augmented {
                says: nothing,
                next: at,
            },
        )?;
        return Ok(Augmented {
            says: read.says,
            next: at,
        });
    }
    let Some((n, from)) = uleb(s, at) else {
        return Err(Refusal::new(Question::Fields, at));
    };
    if ((s.len() - from) as u64) < n {
        return Err(Refusal::new(Question::Fields, at));
    }
    let end = from + n as usize;
    let first = Augmented {
        says: Augmentation {
            augmented: true,
            ..nothing
        },
        next: from,
    };
    let read = with_letters(&s[..end], size, bases, string, &text[1..], first)?;
    Ok(Augmented {
        says: read.says,
        next: end,
    })
}
