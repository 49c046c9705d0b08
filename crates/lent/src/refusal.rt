// Why a question is refused, and the number that the rules give each reason.
ghost use Rattle.std.specs.Prelude.{◌≡◌, ℕ};
ghost use Rattle.lent.specs.Paper.{number, sum_number};
ghost use Rattle.lent.specs.declared.refusal.SumRefusal.TheVariants.{Table};

// Why a table is refused.
#[derive(Clone, Copy, Debug, PartialEq, Eq)]
pub enum Refusal {
    // 1: its length is no multiple of its record.
    Length,
    // 2: it has more records than allowed.
    Count,
    // 3: a key is not greater than the one before it.
    Order,
}

// Why a question about a table has no answer, where a sum or a product is asked for.
#[derive(Clone, Copy, Debug, PartialEq, Eq)]
pub enum SumRefusal {
    // The table is refused.
    Table(Refusal),
    // 4: the sum or the product does not fit 32 bits.
    TooLarge,
}

impl From<Refusal> for SumRefusal {
    ghost from_gives = { λ why refused. refused ≡ Table why };

    fn from(why: Refusal) -> SumRefusal {
        SumRefusal::Table(why)
    }
}

// A reason that the rules have a number for.
pub trait Numbered: Copy {
    ghost number_of: { Self → ℕ };

    fn number(self) -> u32
        ensures { result ≡ number_of self };
}

impl Numbered for Refusal {
    ghost number_of = { number };

    fn number(self) -> u32 {
        match self {
            Refusal::Length => 1,
            Refusal::Count => 2,
            Refusal::Order => 3,
        }
    }
}

impl Numbered for SumRefusal {
    ghost number_of = { sum_number };

    fn number(self) -> u32 {
        match self {
            SumRefusal::Table(why) => why.number(),
            SumRefusal::TooLarge => 4,
        }
    }
}
