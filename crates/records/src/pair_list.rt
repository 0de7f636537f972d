// A function's pairs of places with labels, and the pair of a step.
ghost use Rattle.std.specs.Prelude.{◌≡◌, true, ◌+◌, ◌-◌, ◌*◌, ◌≤◌, ◌<◌, length};
ghost use Rattle.format.specs.Lists.{pair_stride, pair_at, count};
ghost use Rattle.format.specs.Records.{pair_for};
ghost use Rattle.header_keys.specs.Functions.{PairsReady};
ghost use Rattle.records.specs.Labels.{is_for, found_pair, Rising, Rising-prop, Parted};

use lists::{Labels, Pair};

// The first place of pair i.
fn place_of(pairs: &[u64], i: usize) -> u64
    requires { pair_stride * i + pair_stride ≤ length pairs.now }
    ensures { result ≡ (pair_at pairs.now i).place1 }
{
    pairs[lists::PAIR_STRIDE * i]
}

// The first places of the pairs rise, as where an assembler lists pairs in the order of the rows.
fn rises(pairs: &[u64]) -> bool
    ensures { result ≡ true → Rising pairs.now 0 (count pair_stride pairs.now) }
{
    (1..pairs.len() / lists::PAIR_STRIDE).all(|i| place_of(pairs, i - 1) < place_of(pairs, i))
}

// A part of a list: its pairs, whether their first places are known to rise, and where the next step's pair is to be looked for.
// Kept: a place by hand, and no `binary_search`: pairs need not rise, and then the first one that is for the step counts. Where they rise, the
// pair of the next step is the next one or none.
#[derive(Drop)]
pub struct Pairs<'a> {
    part: &'a [u64],
    rising: bool,
    near: usize,
    pub ghost ordered: { rising ≡ true → Rising part.now 0 (count pair_stride part.now) } by { Rising-prop rising part.now 0 (count pair_stride part.now) },
}

impl<'a> Pairs<'a> {
    ghost use Rattle.records.specs.Written.{pairs_of, pairs_in};

    // A function's pairs. A search starts at the first.
    pub fn of(l: &Labels, list: &'a [u64]) -> Pairs<'a>
        requires { PairsReady l.now list.now }
        ensures pairs { pairs_of result ≡ pairs_in l.now list.now }
        ensures start { result.near ≡ 0 }
    {
        let from = lists::PAIR_STRIDE * l.pairs_at;
        let part = &list[from..from + lists::PAIR_STRIDE * l.pairs];
        Pairs {
            part,
            rising: rises(part),
            near: 0,
        }
    }

    // How many there are.
    fn count(&self) -> usize
        ensures { result ≡ count pair_stride self.now.part.now }
    {
        self.part.len() / lists::PAIR_STRIDE
    }

    // Pair i is for the step from one place to another.
    #[tactic(auto, unfolding(crate::specs::Labels::is_for, format::specs::Lists::pair_at))]
    fn serves(&self, i: usize, from: u64, to: u64) -> bool
        requires { i < count pair_stride self.now.part.now }
        ensures { result ≡ is_for from to (pair_at self.now.part.now i) }
    {
        let p = lists::pair_at(self.part, i);
        p.place1 == from && p.place2 == to
    }

    // The first pair that is for a step.
    fn find(&self, from: u64, to: u64) -> Option<Pair>
        ensures { found_pair result ≡ pair_for from to (pairs_of self.now) }
    {
        let i = (0..self.count()).find(|i| self.serves(*i, from, to))?;
        Some(lists::pair_at(self.part, i))
    }

    // The pair in front of the one to be looked at, where there is one, starts below `from`.
    fn parts_below(&self, from: u64) -> bool
        requires { self.now.near ≤ count pair_stride self.now.part.now }
        ensures { result ≡ true → 0 < self.now.near → (pair_at self.now.part.now (self.now.near - 1)).place1 < from }
    {
        if self.near == 0 {
            return true;
        }
        place_of(self.part, self.near - 1) < from
    }

    // The pairs rise, and those in front of the one to be looked at, and no other, start below `from`. A no says nothing.
    fn parts(&self, from: u64) -> bool
        ensures { result ≡ true → Parted self.now.part.now 0 (count pair_stride self.now.part.now) self.now.near from }
    {
        if !self.rising {
            return false;
        }
        if self.count() < self.near {
            return false;
        }
        if !self.parts_below(from) {
            return false;
        }
        if self.near == self.count() {
            return true;
        }
        from <= place_of(self.part, self.near)
    }

    // The same as `find`, at the pair to be looked at or by the search.
    fn pair(&self, from: u64, to: u64) -> Option<Pair>
        ensures { found_pair result ≡ pair_for from to (pairs_of self.now) }
    {
        if !self.parts(from) {
            return self.find(from, to);
        }
        if self.count() <= self.near {
            return None;
        }
        if self.serves(self.near, from, to) {
            return Some(lists::pair_at(self.part, self.near));
        }
        None
    }

    // Where the pair of a step from `to` on is to be looked for: past the pairs below its start.
    fn behind(&self, to: u64) -> usize
        ensures { self.now.near ≤ result }
    {
        let end = self.count();
        (self.near..end)
            .find(|k| to <= place_of(self.part, *k))
            .unwrap_or(usize::max(self.near, end))
    }

    // The pair of a step from one place to another. The next step starts where this one ends.
    pub fn step(&mut self, from: u64, to: u64) -> Option<Pair>
        ensures found { found_pair result ≡ pair_for from to (pairs_of self.old) }
        ensures same { pairs_of self.new ≡ pairs_of self.old }
    {
        let found = self.pair(from, to);
        self.near = self.behind(to);
        found
    }
}
