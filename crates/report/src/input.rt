// The programs' input by its length.
ghost use Rattle.std.specs.Prelude.{◌≡◌};
ghost use Rattle.lent.specs.Paper.{told_fault};
ghost use Rattle.report.specs.Text.{input_fault};

use lent::Refusal;

// Whether an input has `least` bytes or more, and 65,536 or fewer.
pub(crate) fn check_length(input: &[u8], least: usize) -> Result<(), Refusal>
    ensures { told_fault result ≡ input_fault least input.now }
{
    if input.len() < least {
        return Err(Refusal::Length);
    }
    if input.len() > 65536 {
        return Err(Refusal::Count);
    }
    Ok(())
}
