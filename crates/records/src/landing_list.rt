// A function's landings, and their call sites.
ghost use Rattle.std.specs.Prelude.{◌≡◌, ◌+◌, ◌≤◌, length};
ghost use Rattle.format.proofs.Wrote.{Wrote};
ghost use Rattle.format.specs.Prelude.{each};
ghost use Rattle.format.specs.Leb.{uleb};
ghost use Rattle.format.specs.Lists.{landing_stride, landing_at, count, most_records};
ghost use Rattle.format.specs.CallSites.{sites_bytes, site_table};
ghost use Rattle.header_keys.specs.Functions.{LandingsReady};

use lists::Extent;
use numbers::encodings;

// A part of a list: its landings, one after the other.
#[derive(Drop)]
pub struct Landings<'a> {
    pub part: &'a [u64],
    pub ghost few: { count landing_stride part.now ≤ most_records },
}

impl<'a> Landings<'a> {
    ghost use Rattle.records.specs.Landings.{landings_of};

    // A function's landings.
    pub fn of(e: &Extent, list: &'a [u64]) -> Landings<'a>
        requires { LandingsReady e.now list.now }
        ensures { landings_of result ≡ each (landing_at list.now) e.now.landings_at e.now.landings }
    {
        let from = lists::LANDING_STRIDE * e.landings_at;
        Landings {
            part: &list[from..from + lists::LANDING_STRIDE * e.landings],
        }
    }

    // Their entries.
    // Kept: the list and the place stand apart here and below, as in leb; and sizes stand beside bytes, for the reason at the head of headers.
    fn put(&self, out: &mut [u8], at: usize) -> usize
        requires { at + length (sites_bytes (landings_of self.now)) ≤ length out.old }
        ensures { Wrote out.old out.new at result (sites_bytes (landings_of self.now)) }
    {
        let mut p = at;
        for i in 0..self.part.len() / lists::LANDING_STRIDE {
            p = crate::site(out, p, lists::landing_at(self.part, i));
        }
        p
    }

    pub fn size(&self) -> usize
        ensures { result ≡ length (sites_bytes (landings_of self.now)) }
    {
        let mut size = 0;
        for i in 0..self.part.len() / lists::LANDING_STRIDE {
            size += crate::site_size(lists::landing_at(self.part, i));
        }
        size
    }

    // A function's table: no base for the pads, no types, numbers in ULEB, and the entries behind their length.
    pub fn put_table(&self, out: &mut [u8], at: usize) -> usize
        requires { at + 3 + length (uleb (length (sites_bytes (landings_of self.now)))) + length (sites_bytes (landings_of self.now)) ≤ length out.old }
        ensures { Wrote out.old out.new at result (site_table (landings_of self.now)) }
    {
        let a = leb::byte(out, at, encodings::DW_EH_PE_OMIT);
        let b = leb::byte(out, a, encodings::DW_EH_PE_OMIT);
        let c = leb::byte(out, b, encodings::DW_EH_PE_ULEB128);
        let d = leb::uleb(out, c, self.size() as u64);
        self.put(out, d)
    }
}
