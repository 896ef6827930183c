#![tactic(auto, unfolding(refusal::specs::Check::first, refusal::specs::Check::refused_if, refusal::specs::Outcome::after))]

// A checked index, listed and written again, and a written one, read back: the calls of demand 2, one after the other. The demand is
// what the two functions ensure, so that it rests on the contracts of the functions they call.
ghost use Rattle.std.specs.Prelude.{◌≡◌, length};
ghost use Rattle.refusal.specs.Outcome.{written_outcome};
ghost use Rattle.index_open.specs.Open as checks;
ghost use Rattle.index_round_trip.specs.Same.{settings_of};
ghost use Rattle.index_round_trip_calls.specs.Trips as spec;

use index_layout::Layout;
use index_writer::Settings;
use parts::part;
use refusal::Refusal;

// The settings of an index.
#[tactic(auto, unfolding(index_round_trip::specs::Same::settings_of))]
fn settings_of(l: Layout) -> Settings
    ensures { result ≡ settings_of l }
{
    Settings {
        version: l.version,
        offset_width: l.offset_width,
        key_length: l.key_length,
    }
}

// Lists an index that passes the full check, and writes it again from that list and its settings.
pub fn write_again(index: &[u8], list: &mut [u8], file: &mut [u8]) -> Result<usize, Refusal>
    ensures result_value { written_outcome result ≡ spec.again_outcome index.now (length list.old) (length file.old) }
    ensures list_after { list.new ≡ spec.left_by_list index.now list.old }
    ensures file_after { file.new ≡ spec.file_again index.now (length list.old) file.old }
{
    let l = index::check(index)?;
    let n = index_list::list(index, list)?;
    index_writer::write(settings_of(l), part(list, 0, n), file)
}

// Writes an index, checks it and lists it again.
pub fn read_back(
    settings: Settings,
    list: &[u8],
    file: &mut [u8],
    again: &mut [u8],
) -> Result<Layout, Refusal>
    ensures result_value { checks.outcome result ≡ spec.back_outcome settings list.now (length file.old) (length again.old) }
    ensures file_after { file.new ≡ spec.file_left settings list.now file.old }
    ensures again_after { again.new ≡ spec.list_read_back settings list.now (length file.old) again.old }
{
    let n = index_writer::write(settings, list, file)?;
    index_list::list(part(file, 0, n), again)?;
    index::check(part(file, 0, n))
}
