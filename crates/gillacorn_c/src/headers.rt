// Section headers, their flags and names. C has no Option: an answer begins with a code.
ghost use Rattle.std.specs.Prelude.{◌≡◌, length};
ghost use Rattle.pe.specs.Header.{header_spec};
ghost use Rattle.pe.specs.Flags.{alignment_spec};
ghost use Rattle.pe.specs.Name.{name_spec};
ghost use Rattle.gillacorn.specs.Code.{value_answer};
ghost use Rattle.gillacorn.specs.Headers.{header_answer, flags_of};

use gillacorn::code::ValueAnswer;
use gillacorn::headers::{Flags, HeaderAnswer};

#[unsafe(no_mangle)]
pub extern "C" fn gillacorn_header(table: &[u8], place: usize) -> HeaderAnswer
    ensures { result ≡ header_answer (header_spec table.now place) }
{
    gillacorn::headers::gillacorn_header(table, place)
}

#[unsafe(no_mangle)]
pub extern "C" fn gillacorn_name_length(table: &[u8], number: u16) -> usize
    ensures { result ≡ length (name_spec table.now number) }
{
    gillacorn::headers::gillacorn_name_length(table, number)
}

#[unsafe(no_mangle)]
pub extern "C" fn gillacorn_characteristics(characteristics: u32) -> Flags
    ensures { result ≡ flags_of characteristics }
{
    gillacorn::headers::gillacorn_characteristics(characteristics)
}

#[unsafe(no_mangle)]
pub extern "C" fn gillacorn_alignment(characteristics: u32) -> ValueAnswer
    ensures { result ≡ value_answer (alignment_spec characteristics) }
{
    gillacorn::headers::gillacorn_alignment(characteristics)
}
