// Physical addresses, after address.rs: a type of their own, so that an address is never mistaken for a count of pages or of bytes. Bytes
// are counted in u64, as an address is, and pages in usize. Where the Rust gives an error, for a sum past 64 bits, a `requires` stands
// here: boot refuses every usable entry that ends past 2^40 before it moves an address.
#![tactic(auto)]

ghost use Rattle.std.specs.Prelude.{◌≡◌, ◌+◌, ◌-◌, ◌*◌, ◌/◌, ◌%◌, ◌^◌, ◌≤◌, ◌<◌, eqb};

// address.rs 25
#[derive(Clone, Copy)]
pub struct PhysAddr(pub u64);

impl PhysAddr {
    // address.rs 249. The width that the processor reports is not tested: 01's refusal 2 bounds what is usable.
    pub fn new(addr: u64) -> Self
        ensures { result.0 ≡ addr }
    {
        PhysAddr(addr)
    }

    // address.rs 294
    pub fn raw(self) -> u64
        ensures { result ≡ self.0 }
    {
        self.0
    }

    // address.rs 275, at an offset upwards, which is all that frame.rs asks for.
    pub fn offset(self, bytes: u64) -> Self
        requires { self.0 + bytes < 2 ^ 64 }
        ensures { result.0 ≡ self.0 + bytes }
    {
        PhysAddr(self.0 + bytes)
    }

    // address.rs 290
    pub fn is_aligned_to(self, align: u64) -> bool
        requires { 0 < align }
        ensures { result ≡ eqb (self.0 % align) 0 }
    {
        self.0 % align == 0
    }

    // address.rs 304. The Rust fills the low bits of a power of two and adds 1; by division it is the same, at any alignment but 0.
    pub fn align_up(self, align: u64) -> Self
        requires { (0 < align) × (self.0 + align ≤ 2 ^ 64) }
        ensures { result.0 ≡ (self.0 + (align - 1)) / align * align }
    {
        let n = self.0 + (align - 1);
        PhysAddr(n / align * align)
    }

    // The page frame number of the page that holds the address, where a page has so many bytes.
    pub fn page_number(self, page: usize) -> usize
        requires { 0 < page }
        ensures { result ≡ self.0 / page }
    {
        (self.0 / (page as u64)) as usize
    }

    // The first address of a page.
    pub fn from_page_number(number: usize, page: usize) -> Self
        requires { page * number < 2 ^ 64 }
        ensures { result.0 ≡ page * number }
    {
        PhysAddr((page * number) as u64)
    }
}
