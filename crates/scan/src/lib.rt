// The torn sheet of one region's records, tested on bytes of which nothing is known (01, "Torn unless all hold"). Each function ends and
// reads nothing outside the loan on every input, and says exactly whether its clause of the sheet holds. `from` is the page frame number of
// the region's first managed page, `base` that page's number in the records, `past` the number behind its last.
#![tactic(auto)]

ghost use Rattle.std.specs.Prelude.{◌≡◌, ℕ, ◌+◌, ◌-◌, ◌^◌, ◌<◌, ◌≤◌, ◌↔◌, true, IsTrue};
ghost use Rattle.definition.specs.World.{record_at};
ghost use Rattle.definition.specs.Torn.{listed_pages};
ghost use Rattle.record.specs.Records.{pages_in};
ghost use Rattle.words.specs.Words.{row_of, rows_in, InUse};
ghost use Rattle.scan.specs.Sheet.{
  placed_at,
  head_pages,
  alone,
  Free,
  Marked,
  kind_on,
  page_on,
  walks_at,
  list_at,
  level_at,
  Tallied,
  AuditedAt,
};

use definition::{Links, Row};

// The pages that a region holds, without KERNEL and with it.
#[derive(Clone, Copy)]
pub struct HeldPages {
    pub page: usize,
    pub kernel: usize,
}

// A region, by the loan that its records stand in and its numbers.
#[derive(Clone, Copy)]
struct Region<'a> {
    records: &'a [u8],
    from: usize,
    base: usize,
    past: usize,
    ghost ordered: { base ≤ past },
    ghost lent: { past ≤ pages_in records.now },
    ghost numbered: { from + (past - base) < 2 ^ 64 },
}

// ---- the heads

// Whether the four pages from `h` on are unheld frames of one page. Most heads are such, and one load tells.
fn four_free(records: &[u8], h: usize) -> bool
    requires { h + 4 ≤ pages_in records.now }
    ensures { result ≡ true → Free (record_at records.now) h (h + 4) }
{
    record::is_free_page(records, h)
        && record::is_free_page(records, h + 1)
        && record::is_free_page(records, h + 2)
        && record::is_free_page(records, h + 3)
}

// "held heads have neighbours 0".
fn is_alone(records: &[u8], h: usize) -> bool
    requires { h < pages_in records.now }
    ensures { result ≡ alone (record_at records.now h) }
{
    record::earlier(records, h) == 0 && record::later(records, h) == 0
}

impl<'a> Region<'a> {
    // "ADMITTED, aligned heads of level 0 to 2 with no mark bits but those named, .. zeros inside": the pages of such a head. A frame of
    // one page is aligned and has nothing inside, and is told apart by a branch of its own, so that the step to the next head waits for
    // no load.
    #[tactic(auto, using(level::proofs::Sizes::size_positive))]
    fn head_pages(&self, h: usize) -> Option<usize>
        requires { (self.now.base ≤ h) × (h < self.now.past) }
        ensures { result ≡ head_pages (record_at self.now.records.now) self.now.from self.now.base self.now.past h }
    {
        let marks = record::marks(self.records, h);
        if !record::is_admitted(marks) || !record::is_named(marks) {
            return None;
        }
        let level = record::level_of(record::level(self.records, h));
        if level == 0 {
            return Some(1);
        }
        if 3 <= level {
            return None;
        }
        let pages = level::pages_at(level);
        if (self.from + (h - self.base)) % pages == 0
            && pages <= self.past - h
            && record::is_clear(self.records, h + 1, pages - 1)
        {
            Some(pages)
        } else {
            None
        }
    }

    // A page up to which there are only unheld frames of one page. They come in long runs: four are looked at in a step, and where less
    // than four are left it stops.
    fn past_free(&self, first: usize) -> usize
        requires { first ≤ self.now.past }
        ensures { (first ≤ result) × (result ≤ self.now.past) × Free (record_at self.now.records.now) first result }
    {
        let mut at = first;
        while 4 <= self.past - at && four_free(self.records, at) {
            at += 4;
        }
        at
    }

    // "stepping by frame size from each region's first managed page": the heads, tested, and the pages of those that are held. At the first
    // that is bad it stops.
    #[tactic(auto, using(crate::proofs::Heads::pages_within))]
    fn scan(&self) -> Option<HeldPages>
        ensures { Tallied (record_at self.now.records.now) self.now.from self.now.base self.now.past result }
    {
        let mut page: usize = 0;
        let mut kernel: usize = 0;
        // Not a `for`: each head goes on by its own pages.
        let mut at = self.past_free(self.base);
        while at < self.past {
            if record::is_free_page(self.records, at) {
                at += 1;
            } else {
                let pages = self.head_pages(at)?;
                let marks = record::marks(self.records, at);
                if record::is_allocated(marks) {
                    if !is_alone(self.records, at) {
                        return None;
                    }
                    if record::is_kernel(marks) {
                        kernel += pages;
                    } else {
                        page += pages;
                    }
                }
                at = self.past_free(at + pages);
            }
        }
        Some(HeldPages { page, kernel })
    }
}

// ---- the lists

// The marks and the level, as one number, of the unheld frames on the list `k`, but for KERNEL.
fn list_kind(k: usize) -> u64
    requires { k < 6 }
    ensures { (result ≡ kind_on k) × (result < 2 ^ 63) }
{
    record::free_kind(k / 2, k % 2 == 1)
}

// An empty list, which walks.
const EMPTY: Links = Links {
    front: 0,
    back: 0,
    count: 0,
};

impl<'a> Region<'a> {
    // The page that the number `at` names, where it is of the region and an unheld frame, whose marks and level are `kind`, with KERNEL or
    // without. A number up to `base` wraps to one past the region's last, so that one comparison tells both ends.
    #[tactic(auto, using(std::proofs::lemmas::Bool::Decides::nat_tests), unfolding(crate::specs::Sheet::on_kind))]
    fn page_on(&self, kind: u64, at: u32) -> Option<usize>
        requires { kind < 2 ^ 63 }
        ensures { result ≡ page_on (record_at self.now.records.now) self.now.base self.now.past kind at }
    {
        let number = at as usize;
        if self.past - self.base <= std::num::wrapping_sub_usize(number, self.base + 1) {
            return None;
        }
        let page = number - 1;
        if record::is_kind(self.records, page, kind) {
            Some(page)
        } else {
            None
        }
    }

    // "each list walks front to back in its count, both ways, over unheld frames of its region, level and mark". From both ends at once:
    // where the nodes are scattered, each step waits for memory, and the two chains of steps wait side by side. It comes after the scan: as
    // no page then has a mark bit but those named, marks and level are compared as one number.
    #[tactic(auto, using(crate::proofs::Marks::page_within))]
    #[inline(always)]
    fn walk(&self, k: usize, links: Links) -> bool
        requires list { k < 6 }
        requires marked { Marked (record_at self.now.records.now) self.now.base self.now.past }
        ensures { result ≡ walks_at (record_at self.now.records.now) self.now.base self.now.past k links.count 0 links.front links.back }
    {
        let records = self.records;
        let kind = list_kind(k);
        let mut prev: u32 = 0;
        let mut at = links.front;
        let mut next: u32 = 0;
        let mut last = links.back;
        let mut left = links.count;
        while 2 <= left {
            let Some(front) = self.page_on(kind, at) else {
                return false;
            };
            let Some(back) = self.page_on(kind, last) else {
                return false;
            };
            if record::earlier(records, front) != prev || record::later(records, back) != next {
                return false;
            }
            prev = at;
            at = record::later(records, front);
            next = last;
            last = record::earlier(records, back);
            left -= 2;
        }
        if left == 1 {
            let Some(front) = self.page_on(kind, at) else {
                return false;
            };
            if record::earlier(records, front) != prev {
                return false;
            }
            prev = at;
            at = record::later(records, front);
        }
        at == next && prev == last
    }
}

// The walk out of line: else the test of an empty list goes out of line with it. It is lent a slice and not a region, so that all that an
// audit reads it reads through what it was lent: of audits in a loop that writes none of it the compiler makes one.
#[inline(never)]
fn walk_of(records: &[u8], from: usize, base: usize, past: usize, k: usize, links: Links) -> bool
    requires list { k < 6 }
    requires base_le_past { (base ≤ past) × (past ≤ pages_in records.now) × (from + (past - base) < 2 ^ 64) }
    requires marked { Marked (record_at records.now) base past }
    ensures { result ≡ walks_at (record_at records.now) base past k links.count 0 links.front links.back }
{
    let region = Region {
        records,
        from,
        base,
        past,
    };
    region.walk(k, links)
}

// The lists of a row in use, and its region, no page of which has a mark bit but those named.
#[derive(Clone, Copy)]
struct Lists<'a> {
    region: &'a Region<'a>,
    words: &'a [u64],
    i: usize,
    ghost marked: { Marked (record_at region.now.records.now) region.now.base region.now.past },
    ghost in_use: { InUse words.now i },
}

impl<'a> Lists<'a> {
    // Whether the list `k` walks. The empty ones, as most are, are told by their numbers.
    fn list_walks(&self, k: usize) -> bool
        requires { k < 6 }
        ensures { let r = self.now.region.now in
            result ≡ list_at (record_at r.records.now) r.base r.past (row_of (rows_in self.now.words.now) self.now.i).lists k }
    {
        let links = words::list_at(self.words, self.i, k);
        let region = *self.region;
        links == EMPTY
            || walk_of(
                region.records,
                region.from,
                region.base,
                region.past,
                k,
                links,
            )
    }

    // Whether both lists of a level walk. Where both are empty, they are told together.
    fn level_walks(&self, level: usize) -> bool
        requires { level < 3 }
        ensures { let r = self.now.region.now in
            result ≡ level_at (record_at r.records.now) r.base r.past (row_of (rows_in self.now.words.now) self.now.i).lists level }
    {
        words::is_bare(self.words, self.i, level)
            || (self.list_walks(2 * level) && self.list_walks(2 * level + 1))
    }

    // Whether all six walk.
    fn all_walk(&self) -> bool
        ensures { let r = self.now.region.now in
            let lists = (row_of (rows_in self.now.words.now) self.now.i).lists in
            IsTrue result ↔ ((level : ℕ) → level < 3 → IsTrue (level_at (record_at r.records.now) r.base r.past lists level)) }
    {
        (0..3).all(|level| self.level_walks(level))
    }
}

// The pages of the frames on the lists of a row.
fn listed_pages(row: Row) -> usize
    ensures { result ≡ listed_pages (placed_at 0 row) }
{
    // Not `map(..).sum()`: its bound would have to be asked of the caller.
    let mut pages = 0;
    for (k, links) in row.lists.iter().enumerate() {
        pages += level::pages_at(k / 2) * (links.count as usize);
    }
    pages
}

// ---- the region

// The pages held of the region of the row i, if its heads and lists are as the sheet says. The nodes of lists that walk are unheld heads,
// each once: that they have as many pages as nobody holds says that "every unheld head is on a list".
pub fn region_whole(
    records: &[u8],
    from: usize,
    base: usize,
    past: usize,
    row: Row,
    words: &[u64],
    i: usize,
) -> Option<HeldPages>
    requires in_use { InUse words.now i × (row ≡ row_of (rows_in words.now) i) }
    requires base_le_past { (base ≤ past) × (past ≤ pages_in records.now) × (from + (past - base) < 2 ^ 64) }
    ensures { AuditedAt (record_at records.now) row from base past result }
{
    let region = Region {
        records,
        from,
        base,
        past,
    };
    let held = region.scan()?;
    if listed_pages(row) != past - base - held.page - held.kernel {
        return None;
    }
    let lists = Lists {
        region: &region,
        words,
        i,
    };
    if lists.all_walk() { Some(held) } else { None }
}
