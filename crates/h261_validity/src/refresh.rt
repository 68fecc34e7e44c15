// Whether a described picture is a refresh.
ghost use Rattle.std.specs.Prelude.{◌≡◌, [], length};
ghost use Rattle.h261_groups.specs.Format.{macroblocks_length};
ghost use Rattle.layout.specs.Flat.{flat};
ghost use Rattle.h261_description.specs.Fields.{refresh};

use h261_groups::Format;

// Whether every macroblock is sent as INTRA. Nothing else of a description is looked at.
pub fn is_refresh(format: Format, macroblocks: &[u8]) -> bool
    requires { length macroblocks.now ≡ macroblocks_length format }
    ensures { result ≡ refresh format (flat [] macroblocks.now []) }
{
    let count = h261_groups::order::macroblock_count(format);
    for n in 0..count {
        if !h261_words::kind::is_intra(macroblocks[n * 4] as u16) {
            return false;
        }
    }
    true
}
