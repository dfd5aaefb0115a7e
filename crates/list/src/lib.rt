// Lists of pages, linked both ways in the pages' records, after the LinkedList that frame.rs uses. No other crate sees links. Contracts
// speak of `pages_of`, the pages that walking a list from its front finds. Every `requires` rests on `Sound` of specs/Linked.antt: the walk
// finds distinct pages that have a record and are linked both ways, as many as the count says. The audit establishes it, and each function
// keeps it.
#![tactic(auto)]

ghost use Rattle.std.specs.Prelude.{◌≡◌, cond, [], ◌∷◌, ◌≢◌, ◌+◌, ◌-◌, ◌<◌, ◌^◌, eqb};
ghost use Rattle.definition.specs.World.{record_at, pages_of};
ghost use Rattle.record.specs.Records.{pages_in};
ghost use Rattle.list.specs.Linked.{Sound, Out, In, Pushed, Pops, Removed, later_at, earlier_at};

use definition::Links;

// A list of no pages.
pub const EMPTY: Links = Links {
    front: 0,
    back: 0,
    count: 0,
};

fn either(c: u32, a: u32, b: u32) -> u32
    ensures { result ≡ cond (eqb c 0) a b }
{
    if c == 0 { a } else { b }
}

// A neighbour that is none has no record to change.
fn later_at(records: &mut [u8], c: u32, v: u32)
    requires { c ≢ 0 → c - 1 < pages_in records.old }
    ensures { record_at records.new ≡ later_at (record_at records.old) c v }
{
    if let Some(page) = c.checked_sub(1) {
        record::set_later(records, page as usize, v);
    }
}

fn earlier_at(records: &mut [u8], c: u32, v: u32)
    requires { c ≢ 0 → c - 1 < pages_in records.old }
    ensures { record_at records.new ≡ earlier_at (record_at records.old) c v }
{
    if let Some(page) = c.checked_sub(1) {
        record::set_earlier(records, page as usize, v);
    }
}

// Puts a page at the back of a list that it is not on.
pub fn push_back(records: &mut [u8], list: Links, page: usize) -> Links
    requires sound { Sound (record_at records.old) (pages_in records.old) list }
    requires page_bound { page < pages_in records.old }
    requires out { Out page (pages_of (record_at records.old) list) }
    requires page_bound_2 { (page + 1 < 2 ^ 32) × (list.count + 1 < 2 ^ 32) }
    ensures { Pushed (record_at records.old) list (page ∷ []) (record_at records.new)
        (pages_in records.new) result }
{
    let code = (page + 1) as u32;
    let back = list.back;
    record::set_links(records, page, back, 0);
    later_at(records, back, code);
    Links {
        front: either(back, code, list.front),
        back: code,
        count: list.count + 1,
    }
}

// Takes a page out of its list, and leaves it with no neighbours.
pub fn remove(records: &mut [u8], list: Links, page: usize) -> Links
    requires sound { Sound (record_at records.old) (pages_in records.old) list }
    requires fact { In page (pages_of (record_at records.old) list) }
    ensures { Removed (record_at records.old) list page (record_at records.new) (pages_in records.new)
        result }
{
    let e = record::earlier(records, page);
    let z = record::later(records, page);
    later_at(records, e, z);
    earlier_at(records, z, e);
    record::set_links(records, page, 0, 0);
    Links {
        front: either(e, z, list.front),
        back: either(z, e, list.back),
        count: list.count - 1,
    }
}

// Takes the last page off a list, if it has any, and leaves it with no neighbours.
pub fn pop_back(records: &mut [u8], list: Links) -> Option<(usize, Links)>
    requires { Sound (record_at records.old) (pages_in records.old) list }
    ensures { Pops (record_at records.old) list (record_at records.new) (pages_in records.new) result }
{
    let page = list.back.checked_sub(1)? as usize;
    Some((page, remove(records, list, page)))
}
