// The name of a section: a part of the lent bytes, checked to be UTF-8.
ghost use Rattle.std.specs.Prelude.{◌≡◌, length};
ghost use Rattle.pe.specs.Name.{name_spec};

use crate::header::given_at;
use lent::SECTIONS;

// The name of the section with this number, from 1: the part of its header that holds it, empty where there is none.
#[tactic(auto, unfolding(crate::specs::Name::name_spec))]
pub fn name(table: &[u8], number: u16) -> &[u8]
    ensures { result.now ≡ name_spec table.now number }
{
    let Some(place) = usize::from(number).checked_sub(1) else {
        return &[];
    };
    match given_at(table, place) {
        Ok(true) => {
            let from = SECTIONS.width * place;
            let field = &table[from..from + 8];
            &field[..utf8::text_length(field)]
        }
        Ok(false) | Err(_) => &[],
    }
}

// The length of that name: 0 where there is none.
pub fn name_length(table: &[u8], number: u16) -> usize
    ensures { result ≡ length (name_spec table.now number) }
{
    name(table, number).len()
}
