// A table in lent bytes: its kind, and the refusals 1, 2 and 3 that its bytes give by themselves.
ghost use Rattle.std.specs.Prelude.{◌≡◌, ◌≤◌, ◌<◌, ◌/◌, cond, ltb, length};
ghost use Rattle.lent.specs.Order.{rising, keys, table_fault};
ghost use Rattle.lent.specs.Paper.{number, told_fault, told_value, unless, value};
ghost use Rattle.lent.specs.Table.{bytes_of, shape_fault};

use crate::fields::u32_at;
use crate::refusal::Refusal;

// A kind of table, whose records begin with their key of four bytes.
#[derive(Clone, Copy)]
pub struct Kind {
    // The bytes of a record.
    pub width: usize,
    // The most records that are allowed.
    pub most: usize,
    ghost keyed: { 4 ≤ width },
}

pub const OMAP: Kind = Kind {
    width: 8,
    most: 1048576,
};

pub const SECTIONS: Kind = Kind {
    width: 40,
    most: 65535,
};

pub const OLD_FRAMES: Kind = Kind {
    width: 16,
    most: 1048576,
};

pub const NEW_FRAMES: Kind = Kind {
    width: 32,
    most: 1048576,
};

// A table that is lent behind a mark, as C lends it: absent, its bytes are not read.
pub fn if_present(present: bool, table: &[u8]) -> Option<&[u8]>
    ensures { result ≡ cond present (Some table.entry) None }
{
    if present {
        return Some(table);
    }
    None
}

// The bytes of a table that may be absent: of an absent one, none.
pub fn bytes_or_none(table: Option<&[u8]>) -> &[u8]
    ensures { result.now ≡ bytes_of table.entry }
{
    table.unwrap_or(&[])
}

// Whether the length of a table of records of `width` bytes, at most `most` of them, is right.
// It and `in_order` stand beside `Kind`'s methods, since docs/PROMISES.md names them, for any width.
#[tactic(auto, unfolding(crate::specs::Table::shape_fault))]
pub fn shape(table: &[u8], width: usize, most: usize) -> Result<(), Refusal>
    requires { 0 < width }
    ensures { told_fault result ≡ shape_fault (record { width = width; most = most }) table.now }
{
    if table.len() % width != 0 {
        return Err(Refusal::Length);
    }
    if table.len() / width > most {
        return Err(Refusal::Count);
    }
    Ok(())
}

// Whether each key of a table is greater than the one before it. The loop has no way out in its middle,
// so that several records are compared at a time.
#[tactic(auto, using(crate::proofs::Place::inside))]
pub fn in_order(table: &[u8], width: usize) -> bool
    requires { 4 ≤ width }
    ensures { result ≡ rising (keys width table.now) }
{
    let n = table.len() / width;
    if n == 0 {
        return true;
    }
    let mut rises = true;
    let mut before = u32_at(table, 0);
    for i in 1..n {
        let key = u32_at(table, width * i);
        rises &= before < key;
        before = key;
    }
    rises
}

impl Kind {
    // Whether a table has right lengths: refusals 1 and 2.
    pub fn shape(self, table: &[u8]) -> Result<(), Refusal>
        ensures { told_fault result ≡ shape_fault (record { width = self.width; most = self.most }) table.now }
    {
        shape(table, self.width, self.most)
    }

    // Whether a table of right lengths has a record at a place.
    pub fn has(self, table: &[u8], place: usize) -> Result<bool, Refusal>
        ensures { told_value number result
            ≡ unless (shape_fault (record { width = self.width; most = self.most }) table.now)
            (value (ltb place (length table.now / self.width))) }
    {
        self.shape(table)?;
        Ok(place < table.len() / self.width)
    }

    // Whether its lengths are right and it is in order: refusals 1, 2 and 3.
    #[tactic(auto, unfolding(crate::specs::Order::table_fault))]
    pub fn check(self, table: &[u8]) -> Result<(), Refusal>
        ensures { told_fault result ≡ table_fault (record { width = self.width; most = self.most }) table.now }
    {
        let width = self.width;
        shape(table, width, self.most)?;
        if in_order(table, width) {
            Ok(())
        } else {
            Err(Refusal::Order)
        }
    }
}
