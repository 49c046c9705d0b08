// Reading a case: what is asked, and then the answer in it beside ours.
ghost use Rattle.std.specs.Prelude.{◌≡◌, ◌&&◌, IfOk};

// Told of a case that breaks the format.
#[derive(Clone, Copy, Debug)]
pub struct Broken;

// What is left of a case, and whether all of its answer that was read is ours.
#[derive(Clone, Copy)]
pub struct Case<'s> {
    rest: &'s [u8],
    agrees: bool,
}

impl<'s> Case<'s> {
    pub(crate) fn new(bytes: &'s [u8]) -> Case<'s> {
        Case {
            rest: bytes,
            agrees: true,
        }
    }

    fn array<const N: usize>(&mut self) -> Result<[u8; N], Broken> {
        let (array, rest) = self.rest.split_first_chunk().ok_or(Broken)?;
        self.rest = rest;
        Ok(*array)
    }

    pub(crate) fn number<N: Number>(&mut self) -> Result<N, Broken> {
        N::read(self)
    }

    pub(crate) fn flag(&mut self) -> Result<bool, Broken> {
        let mark: u8 = self.number()?;
        Ok(mark == 1)
    }

    // The next table as the face takes it, by C's interface: whether it is present, and its bytes.
    pub(crate) fn table(&mut self) -> Result<(bool, &'s [u8]), Broken> {
        let mark: u8 = self.number()?;
        let length: u16 = self.number()?;
        let bytes = self.rest.split_off(..usize::from(length)).ok_or(Broken)?;
        marked(mark, bytes)
    }

    // The next table, for a question that is asked only of a present one.
    pub(crate) fn present_table(&mut self) -> Result<&'s [u8], Broken> {
        match self.table()? {
            (true, bytes) => Ok(bytes),
            (false, _) => Err(Broken),
        }
    }

    // Compares the next number of the answer with ours.
    pub(crate) fn compare<N: Number>(&mut self, ours: N) -> Result<(), Broken> {
        let theirs: N = self.number()?;
        self.agrees &= theirs == ours;
        Ok(())
    }

    pub(crate) fn compare_all<N: Number>(&mut self, ours: &[N]) -> Result<(), Broken> {
        for number in ours {
            self.compare(*number)?;
        }
        Ok(())
    }

    // A code, a type, marks or a length: one byte in a case, and more in our answers.
    pub(crate) fn compare_byte<N: From<u8> + Eq + Drop>(&mut self, ours: N) -> Result<(), Broken> {
        let theirs: u8 = self.number()?;
        self.agrees &= N::from(theirs) == ours;
        Ok(())
    }

    // Agrees only where another reading of the same case does.
    pub(crate) fn agree_with(&mut self, other: Case<'_>)
        ensures { self.new ≡ record { rest = self.old.rest; agrees = self.old.agrees && other.entry.agrees } }
    {
        self.agrees &= other.agrees;
    }

    // Whether the answer is ours, once all of the case is read.
    pub(crate) fn end(self) -> Result<bool, Broken> {
        if self.rest.is_empty() {
            Ok(self.agrees)
        } else {
            Err(Broken)
        }
    }
}

// A number as it stands in a case, little-endian.
pub trait Number: Copy + Eq {
    fn read(case: &mut Case<'_>) -> Result<Self, Broken>;
}

// Written out for each type: an impl by a macro of the repository is refused by `rt ci`.
impl Number for u8 {
    fn read(case: &mut Case<'_>) -> Result<u8, Broken> {
        Ok(u8::from_le_bytes(case.array()?))
    }
}

impl Number for u16 {
    fn read(case: &mut Case<'_>) -> Result<u16, Broken> {
        Ok(u16::from_le_bytes(case.array()?))
    }
}

impl Number for u32 {
    fn read(case: &mut Case<'_>) -> Result<u32, Broken> {
        Ok(u32::from_le_bytes(case.array()?))
    }
}

// A place or a count, which has 32 bits in a case.
impl Number for usize {
    fn read(case: &mut Case<'_>) -> Result<usize, Broken> {
        let place = u32::read(case)?;
        Ok(place as usize)
    }
}

// A table behind its mark. What is lent beside the mark of an absent one is lent as it stands, since the face must not
// read it.
fn marked(mark: u8, bytes: &[u8]) -> Result<(bool, &[u8]), Broken>
    ensures { IfOk result (λ table. table.1.now ≡ bytes.now) }
{
    match mark {
        0 => Ok((false, bytes)),
        1 => Ok((true, bytes)),
        _ => Err(Broken),
    }
}

// Marks as the bits of a number, the first as the lowest.
pub(crate) fn bits(marks: &[bool]) -> u32 {
    marks
        .iter()
        .rev()
        .fold(0, |number, &mark| number << 1 | u32::from(mark))
}
