// The codes that every answer begins with: 0 with a value, 255 for none, and a refusal by its number. C has neither
// Option nor Result.
ghost use Rattle.std.specs.Prelude.{◌≡◌};
ghost use Rattle.lent.specs.Paper.{sum_number, told, told_value};
ghost use Rattle.gillacorn.specs.Code.{coded, value_answer};

use lent::{Numbered, SumRefusal};

// A number beside its code.
#[repr(C)]
#[derive(Clone, Copy)]
pub struct ValueAnswer {
    pub code: u32,
    pub value: u32,
}

// An answer's code, and its value; `nothing` where there is none to give.
pub(crate) fn coded<T: Copy, E: Numbered>(answer: Result<Option<T>, E>, nothing: T) -> (u32, T)
    ensures { result ≡ coded nothing (told E.number_of answer) }
{
    match answer {
        Ok(Some(value)) => (0, value),
        Ok(None) => (255, nothing),
        Err(why) => (why.number(), nothing),
    }
}

// The same of a call that always has a value where it is not refused.
pub(crate) fn coded_value<T: Copy, E: Numbered>(answer: Result<T, E>, nothing: T) -> (u32, T)
    ensures { result ≡ coded nothing (told_value E.number_of answer) }
{
    coded(answer.map(Some), nothing)
}

pub fn value_answer(answer: Result<Option<u32>, SumRefusal>) -> ValueAnswer
    ensures { result ≡ value_answer (told sum_number answer) }
{
    let (code, value) = coded(answer, 0);
    ValueAnswer { code, value }
}
