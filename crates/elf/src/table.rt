//! Tables in a file: entries of one size, one after another.

ghost use Rattle.std.specs.Prelude.{◌≡◌, ◌+◌, ◌*◌, ◌≤◌, ◌<◌, length, true, IfOk, OnOk};
ghost use Rattle.elf.specs.Refusals.{Gives};
ghost use Rattle.elf.specs.Tables.{is_inside, entry_of, entry_place, HasEntries, HasCount, AreItsBytes, KeepsFields};

use crate::refusal::{Reason, Refusal};

/// Where a table lies in a file.
#[derive(Clone, Copy)]
pub struct Table {
    pub place: u64,
    pub size: u64,
    pub count: u64,
}

impl Table {
    /// Whether all of the table lies in a file of this length.
    pub fn is_inside(self, len: u64) -> bool
        ensures { result ≡ is_inside self len }
    {
        match self.size.checked_mul(self.count) {
            Some(all) => all <= len && self.place <= len - all,
            None => false,
        }
    }

    /// Where a table that lies in a file ends.
    pub fn end(self, len: u64) -> u64
        requires { is_inside self len ≡ true }
        ensures { result ≡ self.place + self.size * self.count }
    {
        self.place + self.size * self.count
    }

    /// Where the entry at an index of a table that lies in a file stands.
    pub fn entry_place(self, index: u64, len: u64) -> u64
        requires inside { is_inside self len ≡ true }
        requires there { index < self.count }
        ensures value { result ≡ entry_place self index }
        ensures inside { result + self.size ≤ len }
    {
        self.place + self.size * index
    }

    /// The bytes of the entry at an index, of a table that lies in the file.
    #[tactic(auto, using(crate::proofs::Tables::entry_past, crate::proofs::Tables::entry_there))]
    pub fn get(self, file: &[u8], index: u64) -> Result<&[u8], Refusal>
        requires { is_inside self (length file.now) ≡ true }
        ensures value { Gives (λ r. r.now) result (entry_of self file.now index) }
        ensures size { IfOk result (λ r. length r.now ≡ self.size) }
        ensures there { OnOk result (index < self.count) }
    {
        if index >= self.count {
            return Err(Refusal::new(Reason::NoEntry, self.end(file.len() as u64)));
        }
        let place = self.entry_place(index, file.len() as u64);
        Ok(&file[place as usize..(place + self.size) as usize])
    }
}

/// A table has its entries, each of its size, and they are all of its bytes; a field of an entry is a field
/// of the file.
#[tactic(auto, using(crate::proofs::Tables::table_laws))]
pub fn table_law()
    ensures get { HasEntries }
    ensures count { HasCount }
    ensures bytes { AreItsBytes }
    ensures field { KeepsFields }
{}
