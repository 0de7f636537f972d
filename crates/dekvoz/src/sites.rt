// Call sites read.
ghost use Rattle.std.specs.Prelude.{◌≡◌};
ghost use Rattle.format.specs.CallSiteReader.{site_at, sites_short, marked_site};
ghost use Rattle.call_sites.specs.Reads.{marked_of};

use call_sites::Site;

// The first site of the table at a place of the exception bytes that covers a code offset: its start, length and pad, or that no entry
// covers it; and whether every number of the table is spelled shortest. Every entry is read before the answer. It refuses by 71 and 72.
#[unsafe(no_mangle)]
pub extern "C" fn unwind_call_site(sites: &[u8], place: u64, offset: u64) -> Site
    ensures { marked_of result ≡ marked_site (site_at sites.now place offset) (sites_short sites.now place) }
{
    call_sites::unwind_call_site(sites, place, offset)
}
