// The classes of bytes that RFC 3629's ranges tell apart, and what each may do in a text.
ghost use Rattle.std.specs.Prelude.{◌≡◌, map};
ghost use Rattle.std.proofs.Math.Option.{some};
ghost use Rattle.utf8.specs.Classes.{class_of};
ghost use Rattle.utf8.specs.Due.{following, told_due};
ghost use Rattle.utf8.specs.Utf8.{UTF8-char, after_lead, holds, next};

// A class goes by its first byte: a number and no enum, since `Classed`, the rule of the table, speaks of numbers.
// C0 and C1, which would begin overlong forms, and F5 to FF, which would begin letters beyond U+10FFFF, are in no text.

// This one is a character by itself.
const ASCII: u8 = 0x00;

// These follow another byte.
const LOW: u8 = 0x80;

const MIDDLE: u8 = 0x90;

const HIGH: u8 = 0xA0;

// These begin a character of two, three or four bytes.
const TWO: u8 = 0xC2;

const THREE_E0: u8 = 0xE0;

const THREE_E1: u8 = 0xE1;

const THREE_ED: u8 = 0xED;

const THREE_EE: u8 = 0xEE;

const FOUR_F0: u8 = 0xF0;

const FOUR_F1: u8 = 0xF1;

const FOUR_F4: u8 = 0xF4;

// The class of each byte.
static CLASSES: [u8; 256] = *b"\
    \x00\x00\x00\x00\x00\x00\x00\x00\x00\x00\x00\x00\x00\x00\x00\x00\
    \x00\x00\x00\x00\x00\x00\x00\x00\x00\x00\x00\x00\x00\x00\x00\x00\
    \x00\x00\x00\x00\x00\x00\x00\x00\x00\x00\x00\x00\x00\x00\x00\x00\
    \x00\x00\x00\x00\x00\x00\x00\x00\x00\x00\x00\x00\x00\x00\x00\x00\
    \x00\x00\x00\x00\x00\x00\x00\x00\x00\x00\x00\x00\x00\x00\x00\x00\
    \x00\x00\x00\x00\x00\x00\x00\x00\x00\x00\x00\x00\x00\x00\x00\x00\
    \x00\x00\x00\x00\x00\x00\x00\x00\x00\x00\x00\x00\x00\x00\x00\x00\
    \x00\x00\x00\x00\x00\x00\x00\x00\x00\x00\x00\x00\x00\x00\x00\x00\
    \x80\x80\x80\x80\x80\x80\x80\x80\x80\x80\x80\x80\x80\x80\x80\x80\
    \x90\x90\x90\x90\x90\x90\x90\x90\x90\x90\x90\x90\x90\x90\x90\x90\
    \xA0\xA0\xA0\xA0\xA0\xA0\xA0\xA0\xA0\xA0\xA0\xA0\xA0\xA0\xA0\xA0\
    \xA0\xA0\xA0\xA0\xA0\xA0\xA0\xA0\xA0\xA0\xA0\xA0\xA0\xA0\xA0\xA0\
    \xC0\xC0\xC2\xC2\xC2\xC2\xC2\xC2\xC2\xC2\xC2\xC2\xC2\xC2\xC2\xC2\
    \xC2\xC2\xC2\xC2\xC2\xC2\xC2\xC2\xC2\xC2\xC2\xC2\xC2\xC2\xC2\xC2\
    \xE0\xE1\xE1\xE1\xE1\xE1\xE1\xE1\xE1\xE1\xE1\xE1\xE1\xED\xEE\xEE\
    \xF0\xF1\xF1\xF1\xF4\xF5\xF5\xF5\xF5\xF5\xF5\xF5\xF5\xF5\xF5\xF5";

// The class of one byte.
fn class(b: u8) -> u8
    ensures { result ≡ class_of b }
{
    CLASSES[b as usize]
}

// The bytes that may come next within a character.
#[derive(Clone, Copy)]
pub enum Follow {
    // Every byte that follows another: 0x80 to 0xBF.
    Any,
    // 0x80 to 0x8F
    Low,
    // 0xA0 to 0xBF
    High,
    // 0x90 to 0xBF
    NotLow,
    // 0x80 to 0x9F
    NotHigh,
}

impl Follow {
    #[tactic(auto, using(crate::proofs::Classed::allowed))]
    fn allows(self, b: u8) -> bool
        ensures { result ≡ holds (following self) b }
    {
        match self {
            Follow::Any => matches!(class(b), LOW | MIDDLE | HIGH),
            Follow::Low => class(b) == LOW,
            Follow::High => class(b) == HIGH,
            Follow::NotLow => matches!(class(b), MIDDLE | HIGH),
            Follow::NotHigh => matches!(class(b), LOW | MIDDLE),
        }
    }
}

// What a character asks for after its first byte, a range for each byte; none where no character begins with it.
#[tactic(auto, using(crate::proofs::Classed::leading))]
fn lead(b: u8) -> Option<&'static [Follow]>
    ensures { told_due result ≡ after_lead UTF8-char b }
{
    match class(b) {
        ASCII => Some(&[]),
        TWO => Some(&[Follow::Any]),
        THREE_E0 => Some(&[Follow::High, Follow::Any]),
        THREE_E1 | THREE_EE => Some(&[Follow::Any, Follow::Any]),
        THREE_ED => Some(&[Follow::NotHigh, Follow::Any]),
        FOUR_F0 => Some(&[Follow::NotLow, Follow::Any, Follow::Any]),
        FOUR_F1 => Some(&[Follow::Any, Follow::Any, Follow::Any]),
        FOUR_F4 => Some(&[Follow::Low, Follow::Any, Follow::Any]),
        _ => None,
    }
}

// What is due once a byte is read, where `due` was; none where nothing makes it UTF-8 any more.
pub fn after<'a>(due: &'a [Follow], b: u8) -> Option<&'a [Follow]>
    ensures { told_due result ≡ next (some (map following due.now)) b }
{
    match due {
        [] => lead(b),
        [follow, rest @ ..] => follow.allows(b).then_some(rest),
    }
}
