// Settings, whose numbers C gives in 32 bits.
ghost use Rattle.std.specs.Prelude.{◌≡◌, min};
ghost use Rattle.dwarnizza.specs.Indexes.{settings_from};

use crossing::narrow;
use index_writer::Settings;

// Each number that a byte does not hold becomes 255, which no setting may be.
pub(crate) fn narrow_settings(version: u32, offset_width: u32, key_length: u32) -> Settings
    ensures { result ≡ settings_from (min version 255) (min offset_width 255) (min key_length 255) }
{
    let v = narrow(version);
    let w = narrow(offset_width);
    let k = narrow(key_length);
    Settings {
        version: v,
        offset_width: w,
        key_length: k,
    }
}
