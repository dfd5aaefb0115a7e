// What a call on the contents of held frames is lent. That there is a sane table in the words and the records, and room in the memory for
// every managed page, is said here for all of them: the torn test gives it, and each call leaves it so.
ghost use Rattle.allocator.specs.Spots.{SeesIn};
ghost use Rattle.exam.specs.Making.{LooksIn, RoomIn, TableIn};
ghost use Rattle.exam.specs.Props.{table_in_prop};
ghost use Rattle.std.specs.Prelude.{◌/◌};
ghost use Rattle.words.specs.Words.{board_in};

use address::PhysAddr;
use allocator::{Seen, Table};
use definition::Refusal;

#[derive(Drop)]
pub struct Contents<'a> {
    pub words: &'a [u64],
    pub records: &'a mut [u8],
    pub memory: &'a mut [u8],
    pub ghost table: { TableIn words.now records.now } by { table_in_prop words.now records.now },
    pub ghost room: { RoomIn words.now memory.now },
}

impl Contents<'_> {
    // What a call finds at an address, the frame held or not.
    pub fn see(&self, pa: PhysAddr) -> Option<Seen>
        ensures { let ws = self.now.words.now in
            SeesIn self.now.records.now ws (pa.0 / (board_in ws).page) result }
    {
        let table = Table {
            words: self.words,
            records: self.records,
        };
        table.see(pa)
    }

    // The held frame that starts at an address and has the range, or the refusal that a call meets.
    pub fn look(&self, pa: PhysAddr, offset: u64, len: u64) -> Result<Seen, Refusal>
        ensures { LooksIn self.now.words.now self.now.records.now pa.0 offset len result }
    {
        let table = Table {
            words: self.words,
            records: self.records,
        };
        crate::look(table, pa, offset, len)
    }
}
