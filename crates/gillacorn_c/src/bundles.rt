// Bundles: the tables of a build in one file. C has no Option: a part that may be missing is a mark and bytes.
ghost use Rattle.std.specs.Prelude.{◌≡◌, length};
ghost use Rattle.bundle.specs.Reading.{read_spec};
ghost use Rattle.bundle.specs.Writing.{lent_parts, write_spec, write_out};
ghost use Rattle.gillacorn.specs.Bundles.{spans_answer, bytes_answer};

use gillacorn::bundles::{BytesAnswer, SpansAnswer};

#[unsafe(no_mangle)]
pub extern "C" fn gillacorn_bundle_read(file: &[u8]) -> SpansAnswer
    ensures { result ≡ spans_answer (read_spec file.now) }
{
    gillacorn::bundles::gillacorn_bundle_read(file)
}

#[unsafe(no_mangle)]
pub extern "C" fn gillacorn_bundle_write<'s>(
    has_original_sections: bool,
    original_sections: &'s [u8],
    has_transformed_sections: bool,
    transformed_sections: &'s [u8],
    has_to_original: bool,
    to_original: &'s [u8],
    has_to_transformed: bool,
    to_transformed: &'s [u8],
    has_old_frames: bool,
    old_frames: &'s [u8],
    has_new_frames: bool,
    new_frames: &'s [u8],
    out: &mut [u8],
) -> BytesAnswer
    ensures { (result ≡ bytes_answer (write_spec
        (lent_parts has_original_sections original_sections.now has_transformed_sections
        transformed_sections.now has_to_original to_original.now has_to_transformed
        to_transformed.now has_old_frames old_frames.now has_new_frames
        new_frames.now)
        (length out.old)))
        × (out.new ≡ write_out
        (lent_parts has_original_sections original_sections.now has_transformed_sections
        transformed_sections.now has_to_original to_original.now has_to_transformed
        to_transformed.now has_old_frames old_frames.now has_new_frames
        new_frames.now)
        out.old) }
{
    gillacorn::bundles::gillacorn_bundle_write(
        has_original_sections,
        original_sections,
        has_transformed_sections,
        transformed_sections,
        has_to_original,
        to_original,
        has_to_transformed,
        to_transformed,
        has_old_frames,
        old_frames,
        has_new_frames,
        new_frames,
        out,
    )
}
