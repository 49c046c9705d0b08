// What the program counts and prints.
use crate::operation::Operation;

// How many cases were asked, and in how many of them our answer is the one in the case.
#[derive(Clone, Copy, Default)]
struct Tally {
    cases: u64,
    agreed: u64,
}

impl Tally {
    fn count(&mut self, agrees: bool) {
        self.cases = self.cases.saturating_add(1);
        self.agreed = self.agreed.saturating_add(u64::from(agrees));
    }
}

// The tally of each operation, at its number less one, and that of all.
#[derive(Drop)]
pub struct Report {
    each: [Tally; Operation::COUNT],
    all: Tally,
}

impl Report {
    pub(crate) fn new() -> Report {
        Report {
            each: [Tally::default(); Operation::COUNT],
            all: Tally::default(),
        }
    }

    pub(crate) fn count(&mut self, operation: Operation, agrees: bool) {
        self.each[operation as usize - 1].count(agrees);
        self.all.count(agrees);
    }

    // How many answers differed.
    pub(crate) fn differing(&self) -> u64 {
        self.all.cases.saturating_sub(self.all.agreed)
    }

    // A line for each operation, and the last line.
    pub(crate) fn print(&self, rt: &impl Print) {
        for operation in Operation::ALL {
            let Tally { cases, agreed } = self.each[operation as usize - 1];
            let _ = println!(rt; "{operation}: {cases} cases, {agreed} ok");
        }
        let _ = println!(rt;
            "replayed {} cases, {} differ",
            self.all.cases,
            self.differing()
        );
    }
}
